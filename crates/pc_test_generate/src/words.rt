//! Words, and the numbers that they say.

use crate::support::holds;
use pc_generate::count_of;
use std::test::*;

static WORDS: [(&str, Option<u32>); 9] = [
    ("1", Some(1)),
    ("10000", Some(10_000)),
    ("0", None),
    ("01", None),
    ("+1", None),
    ("10001", None),
    ("4294967297", None),
    ("", None),
    ("3x", None),
];

/// A number from 1 to 10000 has one word.
#[test]
fn words_say_numbers(rt: HostRuntime) {
    for word in WORDS.iter() {
        holds(&rt, word.0, count_of(word.0) == word.1);
    }
}
