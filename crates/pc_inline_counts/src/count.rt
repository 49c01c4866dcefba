//! How many nodes are reached of one thing that is exported.

ghost use Rattle.std.specs.Prelude.{◌≡◌};
ghost use Rattle.pc_inline_counts.specs.Counts.{after_nodes, count_at, nothing, one_node, refused_node};

use pc_types::Unsupported;

/// How many nodes are reached of what is exported: of all that it has, up to the first that is refused.
#[derive(Clone, Copy)]
pub struct NodeCount {
    /// How many there are, cut at the greatest number.
    pub nodes: u32,
    /// What is refused behind them, if anything is.
    pub refusal: Option<Unsupported>,
}

impl NodeCount {
    /// No nodes.
    pub fn nothing() -> NodeCount
        ensures { result ≡ nothing }
    {
        NodeCount {
            nodes: 0,
            refusal: None,
        }
    }

    /// A node with nothing under it.
    pub fn one() -> NodeCount
        ensures { result ≡ one_node }
    {
        NodeCount {
            nodes: 1,
            refusal: None,
        }
    }

    /// What is refused before it counts.
    pub fn refused(what: Unsupported) -> NodeCount
        ensures { result ≡ refused_node what }
    {
        NodeCount {
            nodes: 0,
            refusal: Some(what),
        }
    }

    /// These nodes and those after them. After one that is refused nothing more is reached.
    pub fn and_after(self, next: NodeCount) -> NodeCount
        ensures { result ≡ after_nodes self next }
    {
        match self.refusal {
            Some(_) => self,
            None => NodeCount {
                nodes: self.nodes.saturating_add(next.nodes),
                refusal: next.refusal,
            },
        }
    }
}

/// The count under a number; what isn't there has no nodes.
pub(crate) fn count_at(counts: &[NodeCount], number: u32) -> NodeCount
    ensures { result ≡ count_at counts.now number }
{
    match counts.get(number as usize) {
        Some(count) => *count,
        None => NodeCount::nothing(),
    }
}
