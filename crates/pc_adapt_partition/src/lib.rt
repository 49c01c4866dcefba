//! The modules of a graph's adapters: as few as can be, appended to the modules and to the graph.
//!
//! Adapters are grouped first, in the order of their numbers. Then each group becomes a module: what its adapters need
//! is planned and defined, adapter by adapter, and put together to a record; and since the functions that a module
//! imports have its first numbers, an adapter's function is known once all of its group are.
#![tactic(auto)]

mod close;
mod gather;
mod group;
mod make;
pub mod partition;

pub use partition::partition_adapter_modules;
