//! What a graph is.

ghost use Rattle.std.specs.Prelude.{◌≡◌, ◌++◌, Bool, OnOk, OnErr};
ghost use Rattle.pc_graph.specs.Digraph.{AnswersBy, Digraph};

use crate::FilterNodes;
use pc_entity::NoMemory;
use pc_numbers::EntityRef;
use std::marker::PhantomData;

/// A graph that lists its nodes and the successors of each.
///
/// It shows a directed graph, always the same. A graph that holds a predicate shows one only where the predicate may be
/// called and has one answer for each node: this is the condition of its calls.
pub trait Graph<Node: EntityRef> {
    // The directed graph that is seen in it.
    ghost Shows: { Self → Digraph Node → Type 0 };

    /// Appends the nodes in their order.
    fn nodes(&self, into: &mut Vec<Node>) -> Result<(), NoMemory>
        requires { (d : Digraph Node) × Shows self.now d }
        ensures ok { (d : Digraph Node) → Shows self.now d → OnOk result (into.new.items ≡ into.old.items ++ d.nodes) }
        ensures err { OnErr result (into.new.items ≡ into.old.items) };

    /// Appends the successors of `node` in their order.
    fn successors(&self, node: Node, into: &mut Vec<Node>) -> Result<(), NoMemory>
        requires { (d : Digraph Node) × Shows self.now d }
        ensures ok { (d : Digraph Node) → Shows self.now d
            → OnOk result (into.new.items ≡ into.old.items ++ d.successors node) }
        ensures err { OnErr result (into.new.items ≡ into.old.items) };

    /// The graph itself, lent.
    final fn by_ref(&self) -> &Self
        ensures { result.now ≡ self.now }
    {
        self
    }

    /// The graph without the nodes of which `predicate` says no.
    final fn filter_nodes<F: Fn(&Node) -> bool>(self, predicate: F) -> FilterNodes<Node, Self, F>
    where
        Self: Sized,
        requires callable { F.IsAlwaysCallable predicate }
        requires one_answer { (test : Node → Bool) × AnswersBy F.Fn predicate test }
        ensures graph { result.graph ≡ self }
        ensures predicate { result.predicate ≡ predicate }
    {
        FilterNodes {
            graph: self,
            predicate,
            node: PhantomData,
        }
    }
}

impl<Node: EntityRef, T: Graph<Node>> Graph<Node> for &T {
    ghost Shows = { λ s d. T.Shows s.now d };

    fn nodes(&self, into: &mut Vec<Node>) -> Result<(), NoMemory> {
        (*self).nodes(into)
    }

    fn successors(&self, node: Node, into: &mut Vec<Node>) -> Result<(), NoMemory> {
        (*self).successors(node, into)
    }
}
