//! The reader of input forms: bytes go in, and out come the type table and the payloads of a translation.
//! It stands on `pc_parsed` for the payloads, on `pc_input_values` for the values of which they are made, and on
//! `pc_input_tokens` for the tokens.
#![tactic(auto)]

mod canon;
mod canon_option;
mod content;
mod entry;
mod input;
mod module;
mod payload;
mod root;
mod sections;
mod take;
mod tree;

pub use input::{Input, decode_input};
pub use pc_input_values::DecodeError;
pub use tree::decode_tree;
