//! What the root exports: its exports become items of the graph, each instance with what it exports itself.
//!
//! What the root exports may be a tree as deep as its instances stand inside one another, so it is built with a stack:
//! children take their numbers before the instance that they stand in.
#![tactic(auto)]

mod build;
mod count;
mod exports;
mod item;
mod part;

pub use exports::export_all;
