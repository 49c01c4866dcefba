//! Bytes in, bytes out: what a program here reads from and writes to.
//!
//! A `Source` gives bytes and a `Sink` takes them, a piece at a time, and either may fail at any call. Each has forms
//! in memory, whose every call is known, and a form over std's readers and writers. `read_all` reads a source to its
//! end, and `write_all` writes a whole text. The crate stands on std alone.
#![tactic(auto)]

mod calls;
mod host;
mod sinks;
mod sources;
mod stream;
mod whole;

pub use host::{StdSink, StdSource};
pub use sinks::{MemSink, SureSink};
pub use sources::{MemSource, SureSource};
pub use stream::{Failed, Sink, Source};
pub use whole::{MAX_INPUT, ReadEnd, read_all, write_all};
