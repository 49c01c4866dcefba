//! Which function imports of core modules always take one context.
//!
//! A function that is called runs in the context of the instance that defines it. Where two imports of a module are
//! given functions of one instance whenever the module is instantiated, a compiler may load that context once.
//!
//! Each core instance says which imports it is given functions of one context for. What all of them say together is a
//! meet of partitions, as `pc_partition` has it. Whose context a function takes is found by one look-up, since what an
//! instance is given is looked at once, in the order of instances.
#![tactic(auto)]

mod import_index;
mod made;
mod partitions;
mod vmctx;

pub use vmctx::analyze_same_vmctx_imports;
