//! Which function imports of a core module come from one place in each instantiation of it.
//!
//! A call of an imported function loads the context of the instance that defines it. Imports that always come from one
//! instance always have one context, so a compiler may load it once, from the first of them. What is always so is what
//! each instantiation says: a partition of the imports for each, and the meet of them all. Putting too much together is
//! unsound, so a number of which nothing is known is alone.
#![tactic(auto)]

mod classes;
mod laws;
mod least;
mod pairs;
mod partition;
mod vmctx_key;

pub use classes::Classes;
pub use laws::{
    meets_are_a_semilattice, meets_are_greatest_lower_bounds, partitions_are_told,
    representatives_are_least,
};
pub use partition::SameVmctxPartition;
pub use vmctx_key::VmctxKey;
