//! What the tests share.

use pc_input::{DecodeError, Input, decode_input, decode_tree};
use serde_json::Value;
use std::alloc::{AllocError, Global};
use std::process::Abort;

/// What a text comes to.
#[derive(Clone, Copy, PartialEq, Eq)]
pub(crate) enum Outcome {
    /// It stands for an input.
    Read,
    /// It has a bad form.
    BadForm,
    /// It is no JSON.
    NotJson,
    /// Memory was wanting.
    NoMemory,
}

/// That something holds. All assertions stand here, since each is proved anew where it stands.
pub(crate) fn holds(rt: &impl Abort, what: &str, holds: bool) {
    assert!(rt; holds, "{what}");
}

/// What a refusal is.
fn refused(e: DecodeError) -> Outcome {
    match e {
        DecodeError::NotJson => Outcome::NotJson,
        DecodeError::BadForm => Outcome::BadForm,
        DecodeError::NoMemory => Outcome::NoMemory,
    }
}

/// What an answer is.
fn answered(answer: Result<Input, DecodeError>) -> Outcome {
    match answer {
        Ok(_) => Outcome::Read,
        Err(e) => refused(e),
    }
}

/// What the tree of a text comes to.
fn of_tree(alloc: Global, text: &str) -> Outcome {
    match Value::from_str(alloc, text) {
        Ok(tree) => answered(decode_tree(alloc, &tree)),
        Err(_) => Outcome::NotJson,
    }
}

/// Whether a text comes to this, and its tree does too.
pub(crate) fn comes_to(alloc: Global, text: &str, want: Outcome) -> bool {
    answered(decode_input(alloc, text.as_bytes())) == want && of_tree(alloc, text) == want
}

/// The texts one after another.
pub(crate) fn joined(alloc: Global, parts: &[&str]) -> Result<String, AllocError> {
    let mut text = String::new(alloc);
    for part in parts {
        text.push_str(part)?;
    }
    Ok(text)
}

/// Whether the text of these parts comes to this.
pub(crate) fn parts_come_to(alloc: Global, parts: &[&str], want: Outcome) -> bool {
    match joined(alloc, parts) {
        Ok(text) => comes_to(alloc, text.as_str(), want),
        Err(_) => false,
    }
}

/// Checks that each text comes to this, where these parts stand around it.
pub(crate) fn all_come_to(
    rt: &impl Abort,
    alloc: Global,
    around: (&str, &str),
    texts: &[&str],
    want: Outcome,
) {
    for text in texts {
        let is_so = parts_come_to(alloc, &[around.0, text, around.1], want);
        holds(rt, text, is_so);
    }
}
