//! The fused adapters of a graph, grouped into the fewest modules.
//!
//! A module of adapters is made after all that its adapters need, and before whatever uses one of them. So no adapter
//! may be in one module with another that it needs. Adapters join the module in progress, in the order of their
//! numbers, and a new one begins only where an adapter needs one of the module in progress: no other split into runs
//! has fewer modules. All that this asks of an adapter is one number, one more than the greatest adapter that it
//! needs. The numbers are found in one pass over the graph, and the split is made in one pass over the numbers. So
//! nothing here walks the graph with a stack, and nothing is looked through twice.
#![tactic(auto)]

mod effects;
mod needed;
mod reach;
mod runs;
mod trampolines;

pub use runs::adapter_groups;
