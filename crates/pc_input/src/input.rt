//! The whole input.

ghost use Rattle.std.specs.Prelude.{◌≡◌, Some, IfOk, IfErr};
ghost use Rattle.pc_input.specs.Input.{input_of, input_from, input_in, HasCause};
ghost use Rattle.pc_input.specs.Root.{first_of, OfTokens};
ghost use Rattle.pc_input.specs.Takes.{IsOver, OfText};

use crate::root::{First, read_kept, read_members, take_object};
use json::{Reader, Scratch, Value};
use pc_entity::{Seq, Text};
use pc_input_values::{DecodeError, Form, Plain, Tabled};
use pc_parsed::{Payload, Tunables};
use pc_types::TypeTable;
use std::alloc::Global;

/// What a translation is asked for.
#[derive(Drop)]
pub struct Input {
    /// The limit of component instances.
    pub tunables: Tunables,
    /// The import name under which the root finds the unsafe intrinsics, if it may have them.
    pub intrinsics: Option<Text>,
    /// The core signatures and types that the payloads name by number.
    pub table: TypeTable,
    /// The payloads in written order, those of nested components among them.
    pub payloads: Seq<Payload>,
}

/// Whether no token is left.
fn is_over(reader: &mut Reader<'_>) -> bool
    ensures { IsOver result reader.old }
{
    match reader.next() {
        Some(_) => false,
        None => true,
    }
}

/// The members of the object that a whole text is, with null for the payloads, and these.
fn object_of<'a, F: Form>(
    form: &F,
    alloc: Global,
    reader: &mut Reader<'a>,
) -> Result<(Vec<(&'a str, Value<'a>)>, Option<Seq<Payload>>), DecodeError>
    ensures { OfTokens (F.rules form.now) reader.old result }
{
    match take_object(form, alloc, reader) {
        Ok(kept) => {
            if is_over(reader) {
                Ok(kept)
            } else {
                Err(DecodeError::NotJson)
            }
        }
        Err(DecodeError::BadForm) => {
            if is_over(reader) {
                Err(DecodeError::BadForm)
            } else {
                Err(DecodeError::NotJson)
            }
        }
        Err(DecodeError::NotJson) => Err(DecodeError::NotJson),
        Err(DecodeError::NoMemory) => Err(DecodeError::NoMemory),
    }
}

/// What the object of a text says by itself.
fn first_pass(alloc: Global, text: &str) -> Result<First, DecodeError>
    ensures { OfText first_of text.now result }
{
    let mut scratch = Scratch::new(alloc);
    let Ok(mut reader) = Reader::new(text, &mut scratch) else {
        return Err(DecodeError::NoMemory);
    };
    match object_of(&Plain, alloc, &mut reader) {
        Ok((kept, payloads)) => read_kept(alloc, kept, payloads),
        Err(e) => Err(e),
    }
}

/// The input of a text, where the names of form 2 are known.
fn second_pass<F: Form>(form: &F, alloc: Global, text: &str) -> Result<Input, DecodeError>
    ensures { OfText (input_from (F.rules form.now)) text.now result }
{
    let mut scratch = Scratch::new(alloc);
    let Ok(mut reader) = Reader::new(text, &mut scratch) else {
        return Err(DecodeError::NoMemory);
    };
    match object_of(form, alloc, &mut reader) {
        Ok((kept, payloads)) => read_members(form, alloc, kept, payloads),
        Err(e) => Err(e),
    }
}

/// The input that a text stands for.
fn input_of_text(alloc: Global, text: &str) -> Result<Input, DecodeError>
    ensures { OfText input_of text.now result }
{
    match first_pass(alloc, text) {
        Ok(First::Input(input)) => Ok(input),
        Ok(First::Names(names)) => second_pass(&Tabled { names }, alloc, text),
        Err(e) => Err(e),
    }
}

/// The input that bytes stand for. No tree of the whole text is made.
pub fn decode_input(alloc: Global, bytes: &[u8]) -> Result<Input, DecodeError>
    ensures ok { IfOk result (λ input. input_in bytes.now ≡ Some input) }
    ensures err { IfErr result (HasCause bytes.now) }
{
    match simdutf8::compat::from_utf8(bytes) {
        Ok(text) => input_of_text(alloc, text),
        Err(_) => Err(DecodeError::NotJson),
    }
}
