//! Builtins of the canonical ABI: a trampoline for each, under its core signature.
//!
//! A builtin is its kind and at most two parts, of which the first is a type or a number. So there is one table of what
//! each canonical function names, and one function that makes the parts and puts the trampoline together; no other
//! place has a case for each kind.
#![tactic(auto)]

mod builtin;
mod canonical;
mod context;
mod declared;
mod first;
mod handles;
mod second;
mod steps;
mod values;

pub use context::step_context;
pub use steps::{step_builtin, step_new_thread, step_task_return};
