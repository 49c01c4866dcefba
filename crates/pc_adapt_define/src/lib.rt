//! What modules of adapters import, as definitions of a graph.
//!
//! A planned import is a definition that the graph has, or a helper that adapter modules alone use. A helper becomes a
//! trampoline, over the slots of the memories and functions that it works with. All of these are interned: so two
//! adapters that ask for the same helper under the same core signature share one trampoline, and nothing that the graph
//! has changes its number.
#![tactic(auto)]

pub mod arguments;
mod helpers;
pub mod imports;
pub mod laws;
mod slots;

pub use arguments::define_all;
pub use imports::define;
