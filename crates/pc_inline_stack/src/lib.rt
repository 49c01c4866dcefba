//! Component instances one inside another: all items of a root are read, and those of each component instance that
//! begins in it.
//!
//! An instantiation goes into the items of its component. The component instances that wait meanwhile stand on a stack,
//! so that the depth of the input is no depth of calls.
#![tactic(auto)]

mod begin;
mod driver;

pub use begin::begin_instance;
pub use driver::run;
