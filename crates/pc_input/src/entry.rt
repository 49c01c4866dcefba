//! Lists of what payloads are made of: entries of sections, options, and the payloads themselves.
//!
//! Their types are those of `pc_parsed`, and only `pc_input_values` could give them its trait `ReadForm`. So entries
//! have a trait of this crate, and one loop of their own.

ghost use Rattle.std.specs.Prelude.{◌≡◌, Option, map, IfOk};
ghost use Rattle.serde_json.specs.Data.{Data};
ghost use Rattle.pc_entity.specs.Lists.{map_all};
ghost use Rattle.pc_input_values.specs.Rules.{Rules, section, single};
ghost use Rattle.pc_input_values.specs.Reads.{Reads};
ghost use Rattle.pc_input.specs.Takes.{Takes};
ghost use Rattle.pc_input_values.specs.Tree.{each};

use json::Reader;
use pc_entity::{NoMemory, Seq};
use pc_input_tokens::{Refusal, Tree, take_tree};
use pc_input_values::{DecodeError, Form};
use std::alloc::Global;

/// A type that an entry of a list is read as.
pub trait ReadEntry {
    ghost shape: { Rules → Data → Option Self };

    /// An entry, read as this type.
    fn read<F: Form, V: Tree>(form: &F, alloc: Global, value: &V) -> Result<Self, DecodeError>
        ensures { Reads result (shape (F.rules form.now) (V.means value.now)) };

    /// The next value, read as this type.
    fn take<F: Form>(
        form: &F,
        alloc: Global,
        reader: &mut Reader<'_>,
        depth: usize,
    ) -> Result<Self, DecodeError>
        ensures { Takes (shape (F.rules form.now)) depth reader.old result reader.new }
    {
        match take_tree(alloc, reader, depth) {
            Ok(value) => Self::read(form, alloc, &value),
            Err(Refusal::NotJson) => Err(DecodeError::NotJson),
            Err(Refusal::NoMemory) => Err(DecodeError::NoMemory),
        }
    }
}

/// Each value, read.
fn all<T: ReadEntry + Drop, F: Form, V: Tree>(
    form: &F,
    alloc: Global,
    values: &[V],
) -> Result<Seq<T>, DecodeError>
    ensures { Reads result (map_all (T.shape (F.rules form.now)) (map V.means values.now)) }
{
    let mut found = Seq::with_capacity(alloc, values.len())?;
    for value in values {
        found.push(T::read(form, alloc, value)?)?;
    }
    Ok(found)
}

/// The elements of an array, each read.
pub(crate) fn entries<T: ReadEntry + Drop, F: Form, V: Tree>(
    form: &F,
    alloc: Global,
    value: &V,
) -> Result<Seq<T>, DecodeError>
    ensures { Reads result (each (T.shape (F.rules form.now)) (V.means value.now)) }
{
    match value.list() {
        Some(values) => all(form, alloc, values),
        None => Err(DecodeError::BadForm),
    }
}

/// A list of one entry.
pub(crate) fn single<T: Drop>(alloc: Global, entry: T) -> Result<Seq<T>, NoMemory>
    ensures { IfOk result (λ list. list ≡ single entry) }
{
    let mut list = Seq::with_capacity(alloc, 1)?;
    list.push(entry)?;
    Ok(list)
}

/// The entries of a section, each read.
pub(crate) fn section<T: ReadEntry + Drop, F: Form, V: Tree>(
    form: &F,
    alloc: Global,
    value: &V,
) -> Result<Seq<T>, DecodeError>
    ensures { Reads result (section (F.rules form.now) (T.shape (F.rules form.now)) (V.means value.now)) }
{
    if form.has_lists() {
        entries(form, alloc, value)
    } else {
        Ok(single(alloc, T::read(form, alloc, value)?)?)
    }
}
