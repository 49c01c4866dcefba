//! Strong components.

ghost use Rattle.std.specs.Prelude.{◌≡◌, ◌<◌, ◌≤◌, ◌^◌, ◌++◌, ℕ, List, [], Some, length, nat_eq, slice_get};
ghost use Rattle.std.specs.Prelude.{slice_range, IfOk};
ghost use Rattle.std.specs.Map.Iter.{ShowsInOrder, deref};
ghost use Rattle.pc_entity.specs.SecondaryMap.{value_at};
ghost use Rattle.std.proofs.Common.{refl, rules};
ghost use Rattle.pc_entity.specs.Lists.{AreDistinct};
ghost use Rattle.pc_graph.specs.Classes.{AreComponents, flat, start_of};
ghost use Rattle.pc_graph.specs.Digraph.{Digraph};
ghost use Rattle.pc_graph.specs.Evaporation.{IsClosed};
ghost use Rattle.pc_graph.specs.Searching.{Search, StandsFor, was_met};

use crate::scc_iter::SccValues;
use crate::search::PathSearch;
use crate::{Dfs, Graph};
use pc_entity::NoMemory;
use pc_numbers::EntityRef;
use std::alloc::Global;
use std::marker::Model;

/// The number of a strong component.
#[derive(Clone, Copy, PartialEq, Eq, PartialOrd, Ord, Hash)]
pub struct Scc(pub u32);

impl EntityRef for Scc {
    ghost number = { λ k. k.0 };

    ghost of_number = { λ n. record { 0 = n } };

    ghost number_of_number = { λ _. refl };

    ghost of_number_number = { λ _. refl };

    ghost exact = { Prim.search rules };

    fn from_u32(n: u32) -> Scc {
        Scc(n)
    }

    fn as_u32(self) -> u32 {
        self.0
    }
}

/// The strong components of a graph. A contract sees the list of the components, each as the list of its nodes.
#[derive(Drop)]
pub struct StronglyConnectedComponents<Node> {
    /// The nodes of the components, one component behind the other.
    nodes: Vec<Node>,

    /// Where each component ends among `nodes`.
    ends: Vec<usize>,
}

impl<Node> Model for StronglyConnectedComponents<Node> {
    ghost use Rattle.std.specs.Prelude.{List, length, ◌≤◌};
    ghost use Rattle.pc_entity.specs.Lists.{AreDistinct};
    ghost use Rattle.pc_graph.specs.Classes.{Ascend, cut, flat};

    ghost Value = { List (List Node) };

    ghost view = { λ s. cut 0 s.nodes.items s.ends.items };

    ghost invariant = { λ s. Ascend 0 s.ends.items (length s.nodes.items) × (length s.ends.items ≤ 4294967295)
        × AreDistinct (flat (cut 0 s.nodes.items s.ends.items)) };
}

impl<Node: EntityRef> StronglyConnectedComponents<Node> {
    /// The components of all nodes that can be reached from the listed ones, those that an edge leads to before those
    /// that it comes from.
    pub fn new<G: Graph<Node>>(
        alloc: Global,
        graph: &G,
    ) -> Result<StronglyConnectedComponents<Node>, NoMemory>
        requires { (d : Digraph Node) × G.Shows graph.now d }
        ensures components { (d : Digraph Node) → G.Shows graph.now d
            → IfOk result (λ components. AreComponents d components) }

        // An edge from a node of a component leads to another such node, as `evaporation` asks.
        ensures closed { (d : Digraph Node) → G.Shows graph.now d
            → IfOk result (λ components. IsClosed d (flat components)) }
    {
        let search = search_all(alloc, graph)?;
        let nodes = search.nodes;
        let ends = search.ends;
        // There are no numbers for more.
        if ends.len() > 4294967295 {
            return Err(NoMemory);
        }
        Ok(StronglyConnectedComponents { nodes, ends })
    }

    /// The number of components. There is a number of 32 bits for each.
    pub fn len(&self) -> usize
        ensures value { result ≡ length self.now }
        ensures small { result ≤ 4294967295 }
    {
        self.ends.len()
    }

    /// Whether there is no component.
    pub fn is_empty(&self) -> bool
        ensures { result ≡ nat_eq (length self.now) 0 }
    {
        self.len() == 0
    }

    /// The nodes of a component, the one that was met last first.
    pub fn nodes(&self, component: Scc) -> &[Node]
        requires { component.0 < length self.now }
        ensures { slice_get self.now component.0 ≡ Some result.now }
    {
        let place = component.0 as usize;
        let start = start_at(self.ends.as_slice(), place);
        let end = self.ends[place];
        part(self.nodes.as_slice(), start, end)
    }

    /// The nodes of each component, in the order of their numbers.
    pub fn values(&self) -> SccValues<'_, Node>
        ensures rest { result ≡ self.now }
        ensures runs { ShowsInOrder (deref {X = List Node}) }
    {
        SccValues::new(self.nodes.as_slice(), self.ends.as_slice())
    }

    /// No node stands in two components.
    pub(crate) fn once(&self)
        ensures { AreDistinct (flat self.now) }
    {
        // Brings the invariant into the proof.
        let _ends = self.ends.len();
    }
}

/// The items from one place to another.
pub(crate) fn part<T>(items: &[T], start: usize, end: usize) -> &[T]
    requires ordered { start ≤ end }
    requires within { end ≤ length items.now }
    ensures { result.now ≡ slice_range items.now start end }
{
    &items[start..end]
}

/// Where a component begins, by where they end.
fn start_at(ends: &[usize], place: usize) -> usize
    requires { place < length ends.now }
    ensures { result ≡ start_of ends.now place }
{
    if place == 0 { 0 } else { ends[place - 1] }
}

/// The search through the whole tour of a graph.
fn search_all<Node: EntityRef, G: Graph<Node>>(
    alloc: Global,
    graph: &G,
) -> Result<PathSearch<Node>, NoMemory>
    requires { (d : Digraph Node) × G.Shows graph.now d }
    ensures { (d : Digraph Node) → G.Shows graph.now d
        → IfOk result (λ held. (s : Search Node) × StandsFor Node.number held s × AreComponents d s.closed) }
{
    let mut roots = Vec::new(alloc);
    graph.nodes(&mut roots)?;
    let mut dfs = Dfs::new(alloc, roots.as_slice())?;
    let mut search = PathSearch::new(alloc);
    'events: while let Some(event) = dfs.next(
        graph,
        |node| -> bool
            ensures { result ≡ was_met (value_at search.noted (Node.number node)) }
        { search.is_met(node) },
    )? {
        search.turn(event)?;
    }
    Ok(search)
}
