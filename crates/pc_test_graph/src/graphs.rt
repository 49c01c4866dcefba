//! The graphs that are tested, and what they list.

ghost use Rattle.std.specs.Prelude.{◌≡◌, ◌<◌, ℕ, Some, slice_get, IfOk};
ghost use Rattle.std.specs.List.{All};
ghost use Rattle.pc_entity.specs.Lists.{AreDistinct};
ghost use Rattle.pc_graph.specs.Digraph.{Digraph};

use crate::support::holds;
use pc_entity::{FuncIndex, NoMemory};
use pc_graph::{EntityGraph, Graph, GraphError};
use std::alloc::Global;
use std::process::Abort;
use std::test::*;

/// How many nodes a large graph has.
pub const MANY: u32 = 200000;

pub const A: FuncIndex = FuncIndex(0);

pub const B: FuncIndex = FuncIndex(1);

pub const C: FuncIndex = FuncIndex(2);

pub const D: FuncIndex = FuncIndex(3);

pub const E: FuncIndex = FuncIndex(4);

pub const F: FuncIndex = FuncIndex(5);

/// The numbers below `count`.
fn numbers(alloc: Global, count: u32) -> Result<Vec<FuncIndex>, NoMemory>
    ensures { IfOk result (λ list. (i : ℕ) (n : FuncIndex) → slice_get list.items i ≡ Some n → (n.0 ≡ i)
        × (i < count)) }
{
    let mut list = Vec::new(alloc);
    for number in 0..count {
        list.push(FuncIndex(number))?;
    }
    Ok(list)
}

/// The edges of a graph.
#[derive(Clone, Copy)]
pub enum Edges<'a> {
    /// These, each node's in their order.
    Listed(&'a [(u32, u32)]),

    /// One from each of many nodes into the next, and this from the last.
    Long(Option<u32>),

    /// Two from each other node into node 0.
    Star,

    /// None, but node 2 is refused.
    Refused,
}

impl Edges<'_> {
    /// Where an edge of a node leads, if there is one of this number.
    fn target(self, node: u32, number: usize) -> Option<u32> {
        match self {
            Edges::Listed(edges) => match edges.get(number) {
                Some((from, to)) if *from == node => Some(*to),
                _ => None,
            },
            Edges::Long(last) if number == 0 => {
                if node < MANY - 1 {
                    Some(node + 1)
                } else {
                    last
                }
            }
            Edges::Star if number < 2 && node > 0 => Some(0),
            _ => None,
        }
    }

    /// Appends where the edges of a node lead, of which there are at most eight.
    fn push_targets(self, node: u32, into: &mut Vec<FuncIndex>) -> Result<(), u32> {
        if matches!(self, Edges::Refused) && node == 2 {
            return Err(7);
        }
        for number in 0..8 {
            if let Some(to) = self.target(node, number) {
                if into.push(FuncIndex(to)).is_err() {
                    return Err(0);
                }
            }
        }
        Ok(())
    }
}

/// The graph of these nodes with these edges.
fn made(
    alloc: Global,
    nodes: &[FuncIndex],
    edges: Edges<'_>,
) -> Result<EntityGraph<FuncIndex>, GraphError<u32>>
    requires distinct { AreDistinct nodes.now }
    requires small { All (λ n. n.0 < 4294967295) nodes.now }
{
    EntityGraph::new(alloc, nodes, |node, into| edges.push_targets(node.0, into))
}

/// The graph of the nodes below `count` with these edges.
pub fn graph_of(
    alloc: Global,
    count: u32,
    edges: Edges<'_>,
) -> Result<EntityGraph<FuncIndex>, GraphError<u32>> {
    let nodes = numbers(alloc, count)?;
    made(alloc, nodes.as_slice(), edges)
}

/// The graph of the nodes below `count` with these edges, none of which is refused.
pub fn graph(
    rt: &impl Abort,
    alloc: Global,
    count: u32,
    edges: Edges<'_>,
) -> EntityGraph<FuncIndex> {
    graph_of(alloc, count, edges).expect(rt, "no graph")
}

#[test]
fn a_refused_node_is_told(rt: HostRuntime) {
    let refused = graph_of(rt.alloc(), 5, Edges::Refused).err();
    holds(&rt, "refused", refused == Some(GraphError::Successors(7)));
}

/// Appends the nodes of a graph, and behind them the successors of one.
fn list<G: Graph<FuncIndex>>(
    graph: &G,
    node: u32,
    into: &mut Vec<FuncIndex>,
) -> Result<(), NoMemory>
    requires { (d : Digraph FuncIndex) × G.Shows graph.now d }
{
    graph.nodes(into)?;
    graph.successors(FuncIndex(node), into)
}

/// Whether these are the nodes of a graph, and behind them the successors of one.
pub fn lists<G: Graph<FuncIndex>>(alloc: Global, graph: &G, node: u32, nodes: &[FuncIndex]) -> bool
    requires { (d : Digraph FuncIndex) × G.Shows graph.now d }
{
    let mut found = Vec::new(alloc);
    list(graph, node, &mut found).is_ok() && found.as_slice() == nodes
}

/// What a graph of four nodes and one of its nodes list: half of each given number follows it.
static LISTED: [(u32, &[FuncIndex]); 6] = [
    (0, &[A, B, C, D]),
    (1, &[A, B, C, D, A]),
    (2, &[A, B, C, D]),
    (3, &[A, B, C, D, B]),
    (4, &[A, B, C, D]),
    (4294967295, &[A, B, C, D]),
];

#[test]
fn a_number_that_was_not_given_has_no_successors(rt: HostRuntime) {
    let edges = Edges::Listed(&[(3, 1), (1, 0)]);
    let graph = made(rt.alloc(), &[D, B], edges).expect(&rt, "no graph");
    for (node, nodes) in &LISTED {
        holds(&rt, "listed", lists(rt.alloc(), &graph, *node, nodes));
    }
}
