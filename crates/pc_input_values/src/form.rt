//! Readers of the shapes that every part of an input is made of.
//!
//! A trait carries the shape of each type, so that one loop reads every list.

ghost use Rattle.std.specs.Prelude.{◌≡◌, ◌∷◌, [], ℕ, List, Option, option_map, map, option_and_then};
ghost use Rattle.serde_json.specs.Data.{Data};
ghost use Rattle.serde_json.specs.Find.{as_bool, get};
ghost use Rattle.pc_entity.specs.Lists.{map_all, value_of};
ghost use Rattle.pc_input_values.specs.Rules.{Rules, plain, tabled};
ghost use Rattle.pc_input_values.specs.Reads.{Reads};
ghost use Rattle.pc_input_values.specs.Tree.{whole, word, or_null, list_of, each, two, pair, three, triple, field};

use crate::DecodeError;
use pc_entity::{Seq, Text};
use pc_input_tokens::Tree;
use std::alloc::Global;

/// What two input forms may differ in.
pub trait Form {
    ghost rules: { Self → Rules };

    /// The text of a value that stands where a name is due.
    fn name<V: Tree>(&self, alloc: Global, value: &V) -> Result<Text, DecodeError>
        ensures { Reads result ((rules self.now).name (V.means value.now)) };

    /// Whether the value of a section's key is a list of entries. Else it is one entry.
    fn has_lists(&self) -> bool
        ensures { result ≡ (rules self.now).listed };
}

/// Form 1: a name is a text, and a section has a list of entries.
pub struct Plain;

impl Form for Plain {
    ghost rules = { λ _. plain };

    fn name<V: Tree>(&self, alloc: Global, value: &V) -> Result<Text, DecodeError> {
        let Some(text) = value.as_str() else {
            return Err(DecodeError::BadForm);
        };
        Ok(Text::copy_of(alloc, text)?)
    }

    fn has_lists(&self) -> bool {
        true
    }
}

/// A whole number of 32 bits.
fn whole<V: Tree>(value: &V) -> Result<u32, DecodeError>
    ensures { Reads result (whole (V.means value.now)) }
{
    let Some(n) = value.as_u64() else {
        return Err(DecodeError::BadForm);
    };
    if n < 4294967296 {
        Ok(n as u32)
    } else {
        Err(DecodeError::BadForm)
    }
}

/// Form 2: a name is the number of a text in a table, and a section has one entry.
#[derive(Drop)]
pub struct Tabled {
    /// The table, whose texts all names share. A text may stand there twice, or have no use.
    pub names: Seq<Text>,
}

impl Form for Tabled {
    ghost rules = { λ form. tabled form.names };

    fn name<V: Tree>(&self, _alloc: Global, value: &V) -> Result<Text, DecodeError> {
        let n = whole(value)?;
        match self.names.as_slice().get(n as usize) {
            Some(name) => Ok(name.share()?),
            None => Err(DecodeError::BadForm),
        }
    }

    fn has_lists(&self) -> bool {
        false
    }
}

/// A type that a value of the input is read as.
pub trait ReadForm {
    ghost shape: { Rules → Data → Option Self };

    /// A value, read as this type.
    fn read<F: Form, V: Tree>(form: &F, alloc: Global, value: &V) -> Result<Self, DecodeError>
        ensures { Reads result (shape (F.rules form.now) (V.means value.now)) };
}

/// A type whose values are words. A word is the same in every form.
pub trait Word {
    ghost words: { List (List ℕ × Self) };

    /// What a word stands for, if it is one of these.
    fn of(word: &str) -> Option<Self>
        ensures { result ≡ value_of word.now words };
}

impl<W: Word> ReadForm for W {
    ghost shape = { λ _. word W.words };

    fn read<F: Form, V: Tree>(_form: &F, _alloc: Global, value: &V) -> Result<W, DecodeError> {
        let Some(word) = value.as_str() else {
            return Err(DecodeError::BadForm);
        };
        W::of(word).ok_or(DecodeError::BadForm)
    }
}

impl ReadForm for u32 {
    ghost shape = { λ _. whole };

    fn read<F: Form, V: Tree>(_form: &F, _alloc: Global, value: &V) -> Result<u32, DecodeError> {
        whole(value)
    }
}

impl ReadForm for bool {
    ghost shape = { λ _. as_bool };

    fn read<F: Form, V: Tree>(_form: &F, _alloc: Global, value: &V) -> Result<bool, DecodeError> {
        value.as_bool().ok_or(DecodeError::BadForm)
    }
}

impl ReadForm for Text {
    ghost shape = { λ rules. rules.name };

    fn read<F: Form, V: Tree>(form: &F, alloc: Global, value: &V) -> Result<Text, DecodeError> {
        form.name(alloc, value)
    }
}

impl<T: ReadForm> ReadForm for Option<T> {
    ghost shape = { λ rules. or_null (T.shape rules) };

    fn read<F: Form, V: Tree>(
        form: &F,
        alloc: Global,
        value: &V,
    ) -> Result<Option<T>, DecodeError> {
        if value.is_null() {
            Ok(None)
        } else {
            Ok(Some(T::read(form, alloc, value)?))
        }
    }
}

/// Two values, each read.
fn two<A: ReadForm + Drop, B: ReadForm, F: Form, V: Tree>(
    form: &F,
    alloc: Global,
    a: &V,
    b: &V,
) -> Result<(A, B), DecodeError>
    ensures { Reads result (two (A.shape (F.rules form.now)) (B.shape (F.rules form.now))
        (V.means a.now ∷ V.means b.now ∷ [])) }
{
    let first = A::read(form, alloc, a)?;
    let second = B::read(form, alloc, b)?;
    Ok((first, second))
}

impl<A: ReadForm + Drop, B: ReadForm> ReadForm for (A, B) {
    ghost shape = { λ rules. pair (A.shape rules) (B.shape rules) };

    fn read<F: Form, V: Tree>(form: &F, alloc: Global, value: &V) -> Result<(A, B), DecodeError> {
        match value.list() {
            Some([a, b]) => two(form, alloc, a, b),
            _ => Err(DecodeError::BadForm),
        }
    }
}

/// Three values, each read.
fn three<A: ReadForm + Drop, B: ReadForm + Drop, C: ReadForm, F: Form, V: Tree>(
    form: &F,
    alloc: Global,
    a: &V,
    b: &V,
    c: &V,
) -> Result<(A, B, C), DecodeError>
    ensures { Reads result (three (A.shape (F.rules form.now)) (B.shape (F.rules form.now))
        (C.shape (F.rules form.now)) (V.means a.now ∷ V.means b.now ∷ V.means c.now ∷ [])) }
{
    let (first, second) = two(form, alloc, a, b)?;
    let third = C::read(form, alloc, c)?;
    Ok((first, second, third))
}

impl<A: ReadForm + Drop, B: ReadForm + Drop, C: ReadForm> ReadForm for (A, B, C) {
    ghost shape = { λ rules. triple (A.shape rules) (B.shape rules) (C.shape rules) };

    fn read<F: Form, V: Tree>(
        form: &F,
        alloc: Global,
        value: &V,
    ) -> Result<(A, B, C), DecodeError> {
        match value.list() {
            Some([a, b, c]) => three(form, alloc, a, b, c),
            _ => Err(DecodeError::BadForm),
        }
    }
}

impl<T: ReadForm + Drop> ReadForm for Seq<T> {
    ghost shape = { λ rules. each (T.shape rules) };

    fn read<F: Form, V: Tree>(form: &F, alloc: Global, value: &V) -> Result<Seq<T>, DecodeError> {
        match value.list() {
            Some(values) => all(form, alloc, values),
            None => Err(DecodeError::BadForm),
        }
    }
}

/// Each value, read.
fn all<T: ReadForm + Drop, F: Form, V: Tree>(
    form: &F,
    alloc: Global,
    values: &[V],
) -> Result<Seq<T>, DecodeError>
    ensures { Reads result (map_all (T.shape (F.rules form.now)) (map V.means values.now)) }
{
    let mut found = Seq::with_capacity(alloc, values.len())?;
    for value in values {
        found.push(T::read(form, alloc, value)?)?;
    }
    Ok(found)
}

/// The member under a key, read.
pub fn field<T: ReadForm, F: Form, V: Tree>(
    form: &F,
    alloc: Global,
    value: &V,
    key: &str,
) -> Result<T, DecodeError>
    ensures { Reads result (field key.now (T.shape (F.rules form.now)) (V.means value.now)) }
{
    match value.get(key) {
        Some(member) => T::read(form, alloc, member),
        None => Err(DecodeError::BadForm),
    }
}

/// A value, read as the type that the caller wants.
pub fn read<T: ReadForm, F: Form, V: Tree>(
    form: &F,
    alloc: Global,
    value: &V,
) -> Result<T, DecodeError>
    ensures { Reads result (T.shape (F.rules form.now) (V.means value.now)) }
{
    T::read(form, alloc, value)
}
