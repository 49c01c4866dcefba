//! The options of canonical functions: a word, or an array of a word and a number.

ghost use Rattle.std.specs.Prelude.{◌≡◌, option_map, map};
ghost use Rattle.pc_entity.specs.Lists.{value_of};
ghost use Rattle.pc_input.specs.Canon.{option_words, option_kinds, option_from, canon_option};
ghost use Rattle.pc_input_values.specs.Reads.{Reads};

use crate::entry::ReadEntry;
use pc_input_tokens::{Tree, headed};
use pc_input_values::{DecodeError, Form, ReadForm};
use pc_parsed::CanonOption;
use std::alloc::Global;

/// An option that is a word.
#[tactic(auto, unfolding(crate::specs::Canon::option_words))]
fn option_word(word: &str) -> Option<CanonOption>
    ensures { result ≡ value_of word.now option_words }
{
    match word {
        "utf8" => Some(CanonOption::Utf8),
        "utf16" => Some(CanonOption::Utf16),
        "compact-utf16" => Some(CanonOption::CompactUtf16),
        "async" => Some(CanonOption::Async),
        "gc" => Some(CanonOption::Gc),
        _ => None,
    }
}

/// An option of a number.
#[tactic(auto, unfolding(crate::specs::Canon::option_kinds))]
fn numbered_option(kind: &str, n: u32) -> Option<CanonOption>
    ensures { result ≡ option_map (λ make. make n) (value_of kind.now option_kinds) }
{
    match kind {
        "memory" => Some(CanonOption::Memory(n)),
        "realloc" => Some(CanonOption::Realloc(n)),
        "post-return" => Some(CanonOption::PostReturn(n)),
        "callback" => Some(CanonOption::Callback(n)),
        "core-type" => Some(CanonOption::CoreType(n)),
        _ => None,
    }
}

/// An option of what follows its name.
fn option_from<F: Form, V: Tree>(
    form: &F,
    alloc: Global,
    kind: &str,
    parts: &[V],
) -> Result<CanonOption, DecodeError>
    ensures { Reads result (option_from kind.now (map V.means parts.now)) }
{
    match parts {
        [n] => {
            let n = u32::read(form, alloc, n)?;
            numbered_option(kind, n).ok_or(DecodeError::BadForm)
        }
        _ => Err(DecodeError::BadForm),
    }
}

impl ReadEntry for CanonOption {
    ghost shape = { λ _. canon_option };

    #[tactic(auto, unfolding(crate::specs::Canon::canon_option))]
    fn read<F: Form, V: Tree>(
        form: &F,
        alloc: Global,
        value: &V,
    ) -> Result<CanonOption, DecodeError> {
        if let Some(word) = value.as_str() {
            return option_word(word).ok_or(DecodeError::BadForm);
        }
        match headed(value) {
            Some((kind, parts)) => option_from(form, alloc, kind, parts),
            None => Err(DecodeError::BadForm),
        }
    }
}
