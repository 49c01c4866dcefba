//! Tests of the graphs of `pc_graph`, of the names of `pc_names`, and of the partitions of `pc_partition`.
//!
//! What a clause says isn't tested again: here are worked graphs, graphs with many nodes, the names of wasmtime's own
//! tests, and each public call once.
#![tactic(auto)]

#[cfg(test)]
mod components;
#[cfg(test)]
mod graphs;
#[cfg(test)]
mod names;
#[cfg(test)]
mod partition;
#[cfg(test)]
mod support;
#[cfg(test)]
mod traversal;
