//! One text for all the bytes of a source: how a call ends that reads them, answers them, and writes the answer.
//!
//! What a program says of bytes is an implementation of `Answers`, on the type of its commands. `serve` is the rest: it
//! reads the whole source, has the bytes answered, and only then writes. `say` writes one text.
#![tactic(auto)]

mod answers;
mod ends;
mod status;

pub use answers::{Answer, Answers};
pub use ends::{say, serve};
pub use status::Status;
