//! The rows of a file.
//!
//! A line that begins with `~` and a word says what the lines behind it are, up to the next `~`:
//!
//! | word | lines |
//! |---|---|
//! | `before`, `after` | what stands around each input from here on |
//! | `translate`, `context`, `facts` | an input, but for what stands around it; the word is the command |
//! | `done`, `refused` | the whole text that the command then writes; the word is how it ends |
//!
//! The lines behind any other word aren't read, and a comment begins with `~` and a space. So no text of a row has a
//! `~` in it.

use crate::runs::is_answered;
use pc_tool::Status;
use std::io;

/// A row, as far as it was read.
#[derive(Clone, Copy)]
struct Row<'a> {
    before: &'a str,
    after: &'a str,
    command: &'a str,
    input: &'a str,
}

/// Lines without the end of the last one.
fn unended(lines: &str) -> &str {
    lines.strip_suffix('\n').unwrap_or(lines)
}

/// A row with what these lines say of it.
fn with_lines<'a>(row: Row<'a>, word: &'a str, lines: &'a str) -> Row<'a> {
    match word {
        "before" => Row {
            before: lines,
            ..row
        },
        "after" => Row {
            after: lines,
            ..row
        },
        "translate" | "context" | "facts" => Row {
            command: word,
            input: lines,
            ..row
        },
        _ => row,
    }
}

/// How a row ends whose text stands behind this word.
fn status_of(word: &str) -> Option<Status> {
    match word {
        "done" => Some(Status::Done),
        "refused" => Some(Status::Refused),
        _ => None,
    }
}

/// Runs a row, and shows its input where it isn't so.
fn run_row(rt: &HostRuntime, row: &Row<'_>, status: Status, text: &str) -> io::Result<()> {
    let input = [row.before, row.input, row.after].join(rt.alloc(), "")?;
    if is_answered(rt.alloc(), row.command, input.as_str(), status, text)? {
        return Ok(());
    }
    println!(rt; "not so: {} of\n{input}", row.command)
}

/// Runs the rows of a text, and counts them.
pub(crate) fn run_rows(rt: &HostRuntime, text: &str) -> io::Result<u64> {
    let mut row = Row {
        before: "",
        after: "",
        command: "",
        input: "",
    };
    let mut count = 0u64;
    for part in text.split('~') {
        let Some((word, lines)) = part.split_once('\n') else {
            continue;
        };
        row = with_lines(row, word, unended(lines));
        if let Some(status) = status_of(word) {
            run_row(rt, &row, status, lines)?;
            count = count.saturating_add(1);
        }
    }
    Ok(count)
}
