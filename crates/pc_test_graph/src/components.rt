//! Strong components and the edges between them.

ghost use Rattle.std.specs.Prelude.{◌≡◌, nat_eq, not};
ghost use Rattle.pc_graph.specs.Classes.{flat};
ghost use Rattle.pc_graph.specs.Digraph.{Digraph};
ghost use Rattle.pc_graph.specs.Evaporation.{IsClosed};

use crate::graphs::{A, B, C, D, E, Edges, F, MANY, graph, lists};
use crate::support::holds;
use pc_entity::FuncIndex;
use pc_graph::{Evaporation, Graph, Scc, SccKeys, StronglyConnectedComponents};
use std::alloc::Global;
use std::process::Abort;
use std::test::*;

/// The nodes of a component, and the components that have an edge into it.
pub type Part<'a> = (&'a [FuncIndex], &'a [Scc]);

/// What is wanted of the components of a graph.
#[derive(Clone, Copy)]
pub enum Wanted<'a> {
    /// That they are these, in this order.
    Parts(&'a [Part<'a>]),

    /// That the first has one node, the second two, and there is no third.
    Two,

    /// So many of them, and so many that have an edge into the first and into the second of them.
    Sizes(usize, usize, usize),
}

/// Nodes 1 and 2 reach each other, and so do 3, 4 and 5; node 0 has an edge to itself.
const CHAIN: [(u32, u32); 8] = [
    (0, 0),
    (0, 1),
    (1, 2),
    (1, 3),
    (2, 1),
    (3, 5),
    (4, 3),
    (5, 4),
];

/// How many nodes there are, the edges, and the components in their order.
static WORKED: [(u32, &[(u32, u32)], &[Part<'_>]); 5] = [
    (
        6,
        &CHAIN,
        &[(&[D, E, F], &[Scc(1)]), (&[B, C], &[Scc(2)]), (&[A], &[])],
    ),
    (2, &[], &[(&[B], &[]), (&[A], &[])]),
    (0, &[], &[]),
    (
        3,
        &[(0, 1), (1, 0), (1, 2)],
        &[(&[C], &[Scc(1)]), (&[A, B], &[])],
    ),
    // Two edges between the same components, and edges from two components into one.
    (
        3,
        &[(0, 1), (0, 1), (2, 1), (0, 2)],
        &[(&[B], &[Scc(1), Scc(2)]), (&[C], &[Scc(2)]), (&[A], &[])],
    ),
];

/// Whether a component is as it is wanted.
fn is_part(nodes: &[FuncIndex], from: &[Scc], part: Option<&Part<'_>>) -> bool {
    match part {
        Some((wanted, wanted_from)) => nodes == *wanted && from == *wanted_from,
        None => false,
    }
}

/// Whether the components are these, in this order.
fn are_parts(
    components: &StronglyConnectedComponents<FuncIndex>,
    evaporation: &Evaporation,
    parts: &[Part<'_>],
) -> bool {
    for place in 0..components.len() {
        let number = Scc(place as u32);
        let from = evaporation.reverse_edges(number);
        if !is_part(components.nodes(number), from, parts.get(place)) {
            return false;
        }
    }
    components.len() == parts.len()
}

/// Whether the numbers are 0 and 1.
fn are_two_keys(mut keys: SccKeys) -> bool {
    keys.next() == Some(Scc(0)) && keys.next() == Some(Scc(1)) && keys.next().is_none()
}

/// Whether the first component has one node, the second two, and there is no third.
fn are_two(components: &StronglyConnectedComponents<FuncIndex>) -> bool {
    for (number, nodes) in components.iter() {
        if nodes.len() != number.0 as usize + 1 {
            return false;
        }
    }
    components.values().len() == 2 && !components.is_empty() && are_two_keys(components.keys())
}

/// Whether components are as they are wanted.
fn are_wanted(
    components: &StronglyConnectedComponents<FuncIndex>,
    evaporation: &Evaporation,
    wanted: Wanted<'_>,
) -> bool {
    match wanted {
        Wanted::Parts(parts) => are_parts(components, evaporation, parts),
        Wanted::Two => are_two(components),
        Wanted::Sizes(count, first, second) => {
            components.len() == count
                && evaporation.reverse_edges(Scc(0)).len() == first
                && evaporation.reverse_edges(Scc(1)).len() == second
        }
    }
}

/// Whether the components of a graph and the edges between them are as they are wanted.
fn evaporates<G: Graph<FuncIndex>>(
    alloc: Global,
    graph: &G,
    components: &StronglyConnectedComponents<FuncIndex>,
    wanted: Wanted<'_>,
) -> bool
    requires { (d : Digraph FuncIndex) × G.Shows graph.now d × IsClosed d (flat components.now) }
{
    match components.evaporation(alloc, graph) {
        Ok(evaporation) => are_wanted(components, &evaporation, wanted),
        Err(_) => false,
    }
}

/// Whether a graph has these components.
pub fn splits<G: Graph<FuncIndex>>(alloc: Global, graph: &G, wanted: Wanted<'_>) -> bool
    requires { (d : Digraph FuncIndex) × G.Shows graph.now d }
{
    match StronglyConnectedComponents::new(alloc, graph) {
        Ok(components) => evaporates(alloc, graph, &components, wanted),
        Err(_) => false,
    }
}

/// Splits the graph of so many nodes with these edges into these components.
fn works(rt: &impl Abort, alloc: Global, count: u32, edges: Edges<'_>, wanted: Wanted<'_>) {
    let graph = graph(rt, alloc, count, edges);
    holds(rt, "components", splits(alloc, &graph, wanted));
}

#[test]
fn components_stand_as_they_are_left(rt: HostRuntime) {
    for (count, edges, parts) in &WORKED {
        let edges = Edges::Listed(edges);
        works(&rt, rt.alloc(), *count, edges, Wanted::Parts(parts));
    }
}

/// The nodes that are left in the chain without node 3, and behind them the successors of node 1.
static NODES: [FuncIndex; 6] = [A, B, C, E, F, C];

/// The components of the chain without node 3.
static LEFT: [Part<'_>; 4] = [
    (&[E], &[Scc(1)]),
    (&[F], &[]),
    (&[B, C], &[Scc(3)]),
    (&[A], &[]),
];

/// Whether a graph lists these nodes, and has these components.
fn shows<G: Graph<FuncIndex>>(alloc: Global, graph: &G) -> bool
    requires { (d : Digraph FuncIndex) × G.Shows graph.now d }
{
    lists(alloc, graph, 1, &NODES) && splits(alloc, graph, Wanted::Parts(&LEFT))
}

#[test]
fn a_node_that_is_filtered_out_is_no_successor(rt: HostRuntime) {
    let graph = graph(&rt, rt.alloc(), 6, Edges::Listed(&CHAIN));
    let filtered = graph.by_ref().filter_nodes(
        |node: &FuncIndex| -> bool
            ensures { result ≡ not (nat_eq node.now.0 3) }
        { node.0 != 3 },
    );
    holds(&rt, "nodes", shows(rt.alloc(), &filtered));
}

#[test]
fn components_are_told_with_their_numbers(rt: HostRuntime) {
    let edges = Edges::Listed(&[(0, 1), (1, 0), (1, 2)]);
    works(&rt, rt.alloc(), 3, edges, Wanted::Two);
}

#[test]
fn the_edges_of_a_star_are_reversed(rt: HostRuntime) {
    // The component of node 0 is left first.
    let few = Wanted::Sizes(300, 299, 0);
    works(&rt, rt.alloc(), 300, Edges::Star, few);
    let many = Wanted::Sizes(200000, 199999, 0);
    works(&rt, rt.alloc(), MANY, Edges::Star, many);
}
