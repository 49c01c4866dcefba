//! The pieces that the lines of a plan's text are made of.
//!
//! Each function appends one piece to a text, and leaves what stands before it. `pc_spec_plan` defines the text of each
//! piece, over the views that `pc_info` gives of definitions, arguments and options.
#![tactic(auto)]

mod argument;
mod definition;
mod extern_data;
mod options;
mod piece;

pub use argument::put_arguments;
pub use definition::{
    put_definition, put_definitions, put_maybe_definition, put_memory, put_table,
};
pub use extern_data::put_extern_data;
pub use options::{async_word, encoding_word, put_all_options};
pub use piece::{
    put, put_key, put_maybe_key, put_maybe_number, put_number, put_numbers, put_quoted,
};
