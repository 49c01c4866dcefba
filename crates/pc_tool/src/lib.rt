//! One call from bytes to bytes: what the program `plan` does, as a library.
//!
//! `run` reads a whole source, decodes it, translates it and writes the text that a command makes of the plan, or of
//! why there is none. Its clauses join those of the crates below; `specs/Headline.antt` says what the bytes mean that
//! it writes.
#![tactic(auto)]

mod answer;
mod chain;
mod command;
mod words;

pub use command::run;
pub use pc_generate::{Generated, generate};
pub use pc_input::{DecodeError, Input, decode_input, decode_tree};
pub use pc_serve::Status;
pub use pc_stream::{
    Failed, MemSink, MemSource, ReadEnd, Sink, Source, StdSink, StdSource, SureSink, SureSource,
    read_all, write_all as write_text,
};
pub use pc_text::{fault_text, plan_text, summary_text};
pub use pc_text_facts::facts_text;
