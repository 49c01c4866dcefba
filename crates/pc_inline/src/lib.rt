//! Symbolic instantiation: from the local program of a component to its graph.
//!
//! The root begins, its imports are prepared, its items are read in order, with those of each component instance that
//! begins in it, and it exports.
#![tactic(auto)]

mod inliner;

pub use inliner::inline_run;
