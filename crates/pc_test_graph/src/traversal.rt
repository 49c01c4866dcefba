//! Traversals of worked graphs, and of a long path and a long cycle.

use crate::components::{Wanted, splits};
use crate::graphs::{A, B, Edges, MANY, graph};
use crate::support::holds;
use pc_entity::{FuncIndex, NoMemory, SecondaryMap};
use pc_graph::{Dfs, DfsEvent, EntityGraph};
use std::alloc::Global;
use std::process::Abort;
use std::test::*;

/// The next event of a traversal, which leaves out the nodes that were met.
fn step(
    graph: &EntityGraph<FuncIndex>,
    dfs: &mut Dfs<FuncIndex>,
    met: &mut SecondaryMap<FuncIndex, bool>,
) -> Result<Option<DfsEvent<FuncIndex>>, NoMemory> {
    let event = dfs.next(graph, |node| met.get(node))?;
    if let Some(DfsEvent::Pre(node)) = event {
        met.set(node, true)?;
    }
    Ok(event)
}

/// Whether these are the events of a traversal.
fn tours(
    graph: &EntityGraph<FuncIndex>,
    dfs: &mut Dfs<FuncIndex>,
    met: &mut SecondaryMap<FuncIndex, bool>,
    events: &[DfsEvent<FuncIndex>],
) -> bool {
    for event in events {
        if step(graph, dfs, met) != Ok(Some(*event)) {
            return false;
        }
    }
    step(graph, dfs, met) == Ok(None)
}

/// How many events a traversal has.
fn events_of(
    graph: &EntityGraph<FuncIndex>,
    dfs: &mut Dfs<FuncIndex>,
    met: &mut SecondaryMap<FuncIndex, bool>,
) -> Result<u32, NoMemory> {
    for events in 0..999999 {
        if step(graph, dfs, met)?.is_none() {
            return Ok(events);
        }
    }
    Ok(999999)
}

/// The traversal of two nodes, of which one has two edges to the other.
static TWICE: [DfsEvent<FuncIndex>; 6] = [
    DfsEvent::Pre(A),
    DfsEvent::Pre(B),
    DfsEvent::Post(B),
    DfsEvent::AfterEdge(A, B),
    DfsEvent::AfterEdge(A, B),
    DfsEvent::Post(A),
];

/// Visits nodes 0 and 1, of which node 0 was met, and before them no root.
fn visits_last(alloc: Global, graph: &EntityGraph<FuncIndex>) -> bool {
    let mut dfs = Dfs::empty(alloc);
    let mut met = SecondaryMap::new(alloc, false);
    met.set(A, true).is_ok()
        && tours(graph, &mut dfs, &mut met, &[])
        && dfs.add_root(A).is_ok()
        && dfs.add_roots(&[B]).is_ok()
        && tours(graph, &mut dfs, &mut met, &LAST)
}

/// The visit of node 1 alone.
static LAST: [DfsEvent<FuncIndex>; 2] = [DfsEvent::Pre(B), DfsEvent::Post(B)];

#[test]
fn the_last_root_is_visited_first(rt: HostRuntime) {
    let graph = graph(&rt, rt.alloc(), 2, Edges::Listed(&[]));
    holds(&rt, "tour", visits_last(rt.alloc(), &graph));
}

/// The events of a tour.
#[derive(Clone, Copy)]
enum Events<'a> {
    /// These.
    Listed(&'a [DfsEvent<FuncIndex>]),

    /// So many.
    Many(u32),
}

/// Whether the tour of a graph from node 0 has these events.
fn has_events(alloc: Global, graph: &EntityGraph<FuncIndex>, events: Events<'_>) -> bool {
    let Ok(mut dfs) = Dfs::new(alloc, &[A]) else {
        return false;
    };
    let mut met = SecondaryMap::new(alloc, false);
    match events {
        Events::Listed(events) => tours(graph, &mut dfs, &mut met, events),
        Events::Many(events) => events_of(graph, &mut dfs, &mut met) == Ok(events),
    }
}

/// Tours the graph of so many nodes with these edges from node 0, and splits it into these components.
fn tours_and_splits(
    rt: &impl Abort,
    alloc: Global,
    count: u32,
    edges: Edges<'_>,
    events: Events<'_>,
    wanted: Wanted<'_>,
) {
    let graph = graph(rt, alloc, count, edges);
    holds(rt, "events", has_events(alloc, &graph, events));
    holds(rt, "components", splits(alloc, &graph, wanted));
}

#[test]
fn an_edge_given_twice_is_followed_twice(rt: HostRuntime) {
    let edges = Edges::Listed(&[(0, 1), (0, 1)]);
    let events = Events::Listed(&TWICE);
    tours_and_splits(&rt, rt.alloc(), 2, edges, events, Wanted::Sizes(2, 1, 0));
}

#[test]
fn a_long_path_is_toured_and_split(rt: HostRuntime) {
    // Two events for each node, and one for each edge. Each component but the last has an edge from the next one.
    let wanted = Wanted::Sizes(200000, 1, 1);
    let edges = Edges::Long(None);
    tours_and_splits(&rt, rt.alloc(), MANY, edges, Events::Many(599999), wanted);
}

#[test]
fn a_long_cycle_is_toured_and_split(rt: HostRuntime) {
    let wanted = Wanted::Sizes(1, 0, 0);
    let edges = Edges::Long(Some(0));
    tours_and_splits(&rt, rt.alloc(), MANY, edges, Events::Many(600000), wanted);
}
