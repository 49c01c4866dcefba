//! Takes the parts of an input off a reader of tokens. Only one entry of a list at a time is held as a tree.
//!
//! Each function takes one whole value, or all up to the end of an array, also where the form is bad. So what follows
//! is still read: it alone tells whether the text is JSON at all.

ghost use Rattle.std.specs.Prelude.{◌≡◌};
ghost use Rattle.pc_input.specs.Takes.{Takes, TakesItems, passed_as};
ghost use Rattle.pc_input_values.specs.Rules.{section, single};
ghost use Rattle.pc_input_values.specs.Tree.{each, making};

use crate::entry::{ReadEntry, single};
use json::Reader;
use pc_entity::Seq;
use pc_input_tokens::{Refusal, Start, begin, pass_members};
use pc_input_values::{DecodeError, Form};
use std::alloc::Global;

/// The refusal of a value of another form, from how it was passed over.
pub(crate) fn passed_as(passed: Result<(), Refusal>) -> DecodeError
    ensures { result ≡ passed_as passed }
{
    match passed {
        Ok(()) => DecodeError::BadForm,
        Err(Refusal::NotJson) => DecodeError::NotJson,
        Err(Refusal::NoMemory) => DecodeError::NoMemory,
    }
}

/// The items of an array whose bracket was taken, each read by itself.
fn take_entries<T: ReadEntry + Drop, F: Form>(
    form: &F,
    alloc: Global,
    reader: &mut Reader<'_>,
    depth: usize,
) -> Result<Seq<T>, DecodeError>
    ensures { TakesItems (T.shape (F.rules form.now)) depth reader.old result reader.new }
{
    let mut found = Seq::new(alloc);
    let mut bad = false;
    'items: while !reader.take_end_array() {
        match T::take(form, alloc, reader, depth) {
            Ok(entry) => {
                if found.push(entry).is_err() {
                    return Err(DecodeError::NoMemory);
                }
            }
            Err(DecodeError::BadForm) => {
                bad = true;
            }
            Err(DecodeError::NotJson) => return Err(DecodeError::NotJson),
            Err(DecodeError::NoMemory) => return Err(DecodeError::NoMemory),
        }
    }
    if bad {
        Err(DecodeError::BadForm)
    } else {
        Ok(found)
    }
}

/// The next value, read as a list of entries.
pub(crate) fn take_list<T: ReadEntry + Drop, F: Form>(
    form: &F,
    alloc: Global,
    reader: &mut Reader<'_>,
    depth: usize,
) -> Result<Seq<T>, DecodeError>
    ensures { Takes (each (T.shape (F.rules form.now))) depth reader.old result reader.new }
{
    match begin(reader) {
        Some(Start::Array) => {
            if depth == 0 {
                Err(DecodeError::NotJson)
            } else {
                take_entries(form, alloc, reader, depth - 1)
            }
        }
        Some(Start::Object) => {
            if depth == 0 {
                Err(DecodeError::NotJson)
            } else {
                Err(passed_as(pass_members(alloc, reader, depth - 1)))
            }
        }
        Some(Start::Scalar) => Err(DecodeError::BadForm),
        None => Err(DecodeError::NotJson),
    }
}

/// The next value, read as a list of one entry.
fn take_single<T: ReadEntry + Drop, F: Form>(
    form: &F,
    alloc: Global,
    reader: &mut Reader<'_>,
    depth: usize,
) -> Result<Seq<T>, DecodeError>
    ensures { Takes (making single (T.shape (F.rules form.now))) depth reader.old result reader.new }
{
    match T::take(form, alloc, reader, depth) {
        Ok(entry) => match single(alloc, entry) {
            Ok(list) => Ok(list),
            Err(_) => Err(DecodeError::NoMemory),
        },
        Err(e) => Err(e),
    }
}

/// The next value, read as the entries of a section.
pub(crate) fn take_section<T: ReadEntry + Drop, F: Form>(
    form: &F,
    alloc: Global,
    reader: &mut Reader<'_>,
    depth: usize,
) -> Result<Seq<T>, DecodeError>
    ensures { Takes (section (F.rules form.now) (T.shape (F.rules form.now))) depth reader.old result reader.new }
{
    if form.has_lists() {
        take_list(form, alloc, reader, depth)
    } else {
        take_single(form, alloc, reader, depth)
    }
}
