//! A graph without some of its nodes.

ghost use Rattle.std.specs.Prelude.{◌≡◌, ◌++◌, Bool, OnOk, OnErr, ◌≤◌, length, take, drop};
ghost use Rattle.std.specs.List.{filter};
ghost use Rattle.pc_graph.specs.Digraph.{AnswersBy, Digraph, filtered};

use crate::Graph;
use pc_entity::NoMemory;
use pc_numbers::EntityRef;
use std::marker::PhantomData;

/// A graph without the nodes of which a predicate says no: they are not listed, and are no successors.
///
/// `Graph::filter_nodes` makes it.
#[derive(Drop)]
pub struct FilterNodes<Node, G, F> {
    pub(crate) graph: G,
    pub(crate) predicate: F,
    pub(crate) node: PhantomData<Node>,
}

impl<Node: EntityRef, G: Graph<Node>, F: Fn(&Node) -> bool> Graph<Node>
    for FilterNodes<Node, G, F> {
    ghost Shows = { λ s d.
        F.IsAlwaysCallable s.predicate
        × (inner : Digraph Node) × (test : Node → Bool)
        × G.Shows s.graph inner
        × AnswersBy F.Fn s.predicate test
        × (d ≡ filtered test inner) };

    fn nodes(&self, into: &mut Vec<Node>) -> Result<(), NoMemory> {
        let start = into.len();
        self.graph.nodes(into)?;
        keep_tail(into, start, &self.predicate);
        Ok(())
    }

    fn successors(&self, node: Node, into: &mut Vec<Node>) -> Result<(), NoMemory> {
        let start = into.len();
        self.graph.successors(node, into)?;
        keep_tail(into, start, &self.predicate);
        Ok(())
    }
}

/// Takes out the items from `start` on of which `predicate` says no.
fn keep_tail<Node: Copy, F: Fn(&Node) -> bool>(list: &mut Vec<Node>, start: usize, predicate: &F)
    requires callable { F.IsAlwaysCallable predicate.now }
    requires within { start ≤ length list.old.items }
    ensures { (test : Node → Bool) → AnswersBy F.Fn predicate.now test
        → list.new.items ≡ take start list.old.items ++ filter test (drop start list.old.items) }
{
    let mut kept = start;
    for place in start..list.len() {
        let item = list[place];
        if predicate(&item) {
            list[kept] = item;
            kept += 1;
        }
    }
    list.truncate(kept);
}
