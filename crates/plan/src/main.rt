//! The program `plan`: it runs its words over standard input and standard output, and ends with the code of the status.
#![tactic(auto)]

use pc_tool::{Sink, Source, Status, StdSink, StdSource, run};
use std::alloc::Global;
use std::io::ErrorKind;
use std::process::ExitCode;
use std::{env, io};

/// The words behind the program's name.
fn words(rt: &HostRuntime) -> io::Result<Vec<String>> {
    let mut args = env::args(rt)?;
    args.next();
    Ok(args.collect(rt.alloc())?)
}

/// `run` itself. Its clauses are long, and are opened wherever its answer is looked at, so here nothing is.
fn plain_run<S: Source, W: Sink>(
    alloc: Global,
    words: &[String],
    src: &mut S,
    out: &mut W,
) -> Status {
    run(alloc, words, src, out)
}

fn main(rt: HostRuntime) -> ExitCode {
    let words = match words(&rt) {
        Ok(words) => words,
        Err(e) if e.kind() == ErrorKind::OutOfMemory => {
            return ExitCode::from(Status::NoMemory.code());
        }
        // A word that is no text names no command, and neither does no word at all.
        Err(_) => Vec::new(rt.alloc()),
    };
    let mut src = StdSource::new(rt.stdin());
    let mut out = StdSink::new(rt.stdout());
    ExitCode::from(plain_run(rt.alloc(), &words, &mut src, &mut out).code())
}
