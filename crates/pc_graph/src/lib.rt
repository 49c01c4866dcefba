//! Directed graphs over numbers: a depth-first traversal, filtered graphs, and strong components.
//!
//! A graph is anything that lists its nodes and the successors of each. What is promised here holds for each such
//! graph, and no function recurses, so a path of a million nodes takes no more stack than one of two.
#![tactic(auto)]

mod dfs;
mod entity_graph;
mod evaporation;
mod filter_nodes;
mod graph;
mod laws;
mod scc;
mod scc_iter;
mod search;

pub use dfs::{Dfs, DfsEvent};
pub use entity_graph::{EntityGraph, GraphError};
pub use evaporation::Evaporation;
pub use filter_nodes::FilterNodes;
pub use graph::Graph;
pub use laws::{runs_are_tours, tours_meet_the_reachable};
pub use scc::{Scc, StronglyConnectedComponents};
pub use scc_iter::{SccIter, SccKeys, SccValues};
