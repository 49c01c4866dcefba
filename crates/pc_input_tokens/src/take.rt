//! Takes values off a reader of JSON, one at a time: no tree of a whole text is made, only one of a small part.
//!
//! Each function takes one whole value, or all up to the end of an array or object, whatever their shape. So what
//! follows a part of a bad form is still read: it alone tells whether the text is JSON at all.

ghost use Rattle.pc_input_tokens.specs.Takes.{items_at, members_at, TakesTree, Passes};

use crate::refusal::Refusal;
use crate::values::has_values;
use json::{Error, Reader, Value};
use std::alloc::Global;

/// The tree of the next value.
pub fn take_tree<'a>(
    alloc: Global,
    reader: &mut Reader<'a>,
    depth: usize,
) -> Result<Value<'a>, Refusal>
    ensures { TakesTree depth reader.old result reader.new }
{
    match Value::read(alloc, reader, depth) {
        Ok(value) => {
            if has_values(&value) {
                Ok(value)
            } else {
                Err(Refusal::NotJson)
            }
        }
        Err(Error::OutOfMemory) => Err(Refusal::NoMemory),
        Err(_) => Err(Refusal::NotJson),
    }
}

/// Passes over the items of an array whose bracket was taken, and over its end.
pub fn pass_items(alloc: Global, reader: &mut Reader<'_>, depth: usize) -> Result<(), Refusal>
    ensures { Passes (items_at depth reader.old) result reader.new }
{
    'items: while !reader.take_end_array() {
        match take_tree(alloc, reader, depth) {
            Ok(item) => drop(item),
            Err(Refusal::NotJson) => return Err(Refusal::NotJson),
            Err(Refusal::NoMemory) => return Err(Refusal::NoMemory),
        }
    }
    Ok(())
}

/// Passes over the members of an object whose brace was taken, and over its end.
pub fn pass_members(alloc: Global, reader: &mut Reader<'_>, depth: usize) -> Result<(), Refusal>
    ensures { Passes (members_at depth reader.old) result reader.new }
{
    'members: loop {
        match reader.next_key() {
            Ok(Some(_)) => match take_tree(alloc, reader, depth) {
                Ok(member) => drop(member),
                Err(Refusal::NotJson) => return Err(Refusal::NotJson),
                Err(Refusal::NoMemory) => return Err(Refusal::NoMemory),
            },
            Ok(None) => return Ok(()),
            Err(_) => return Err(Refusal::NotJson),
        }
    }
}
