//! Runs over memory, in which no stream fails.

use pc_tool::{Status, SureSink, SureSource, run};
use std::alloc::{AllocError, Global};

/// `run` itself. Its clauses are long, and are opened wherever its answer is looked at, so here nothing is.
fn plain_run(alloc: Global, words: &[String], src: &mut SureSource, out: &mut SureSink) -> Status {
    run(alloc, words, src, out)
}

/// Whether a run of these words reads all, ends with this status and writes this text.
fn runs_to(
    alloc: Global,
    words: &[String],
    src: &mut SureSource,
    out: &mut SureSink,
    status: Status,
    text: &str,
) -> bool {
    plain_run(alloc, words, src, out) == status
        && out.kept() == text.as_bytes()
        && src.left().is_empty()
}

/// Whether a command ends with this status for an input that is read whole, and writes this text. The sink has room for
/// the longest one.
pub(crate) fn is_answered(
    alloc: Global,
    command: &str,
    input: &str,
    status: Status,
    text: &str,
) -> Result<bool, AllocError> {
    let words = vec![in alloc; String::from_str(alloc, command)?]?;
    let mut src = SureSource::new(input.as_bytes().to_vec(alloc)?);
    let mut out = SureSink::new(Vec::with_capacity(alloc, 1048576)?);
    Ok(runs_to(alloc, words.as_slice(), &mut src, &mut out, status, text))
}
