//! The rows of the files that its words name: it runs each of them, and tells how many a file has and which of them
//! aren't so.
#![tactic(auto)]

mod rows;
mod runs;

use std::{env, fs, io};

/// The words behind the program's name.
fn words(rt: &HostRuntime) -> io::Result<Vec<String>> {
    let mut args = env::args(rt)?;
    args.next();
    Ok(args.collect(rt.alloc())?)
}

/// Runs the rows of a file, and tells how many it has.
fn run_file(rt: &HostRuntime, name: &str) -> io::Result<()> {
    let text = fs::read_to_string(rt, name)?;
    let count = rows::run_rows(rt, text.as_str())?;
    println!(rt; "{name}: {count} rows")
}

fn main(rt: HostRuntime) -> io::Result<()> {
    let names = words(&rt)?;
    for name in names.as_slice() {
        run_file(&rt, name.as_str())?;
    }
    Ok(())
}
