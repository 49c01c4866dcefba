//! Values of an input's JSON: a tree goes in, and out comes a number, a word, a name, a list, a type table or a module
//! record.
//! What a type is read from is said once, in a trait, and so is what input forms may differ in.
//! It stands on `pc_types` and `pc_parsed` for these types, and on `pc_input_tokens` for the trees.
#![tactic(auto)]

mod error;
mod form;
mod module_record;
mod names;
mod types;
mod words;

pub use error::DecodeError;
pub use form::{Form, Plain, ReadForm, Tabled, Word, field, read};
