//! The generated input: `n` components in a chain, each of which lowers the function of the one before and lifts one of
//! its own.
//! A number goes in, a type table and a list of payloads come out; what the list means is known for each number that a
//! word of a command may name.
//! It stands on `pc_parsed`, which has the payloads, and its laws on `pc_spec_reading`.
#![tactic(auto)]

mod bodies;
mod count;
mod input;
pub mod laws;
mod pieces;
mod types;

pub use count::count_of;
pub use input::{Generated, generate};
