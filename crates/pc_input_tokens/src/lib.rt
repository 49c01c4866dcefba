//! Trees of JSON whichever reader made them, and small ones taken off a reader one at a time: text goes in, and out
//! come values one after another, so that no tree of a whole text is made.
//! It stands on `json` for the tokens, and on `serde_json` for what a text means.
#![tactic(auto)]

mod borrowed;
mod numbers;
mod owned;
mod refusal;
mod start;
mod take;
mod tree;
mod values;

pub use numbers::is_in_range;
pub use refusal::Refusal;
pub use start::{Start, begin};
pub use take::{pass_items, pass_members, take_tree};
pub use tree::{Tree, headed};
