//! Which fused adapters of a graph need not keep the state of a thread.
//!
//! An adapter is transparent where its two types and both its options are synchronous, no handle stands in the types,
//! and the component instance that lifts can't see the state of a thread. An instance can see it that lowers a function
//! of the host or an async one, declares a builtin, or uses an intrinsic that reads or writes the slots of a context.
//! Each test looks at an entry of the graph alone, and follows nothing. So one pass over each list finds the instances
//! that see the state, and one over the adapters those that are transparent.
#![tactic(auto)]

mod context;
mod opaque;
mod transparent;
mod types;

pub use transparent::transparent_adapters;
