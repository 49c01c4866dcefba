//! The outermost object of an input.
//!
//! Its payloads are nearly all of an input. So they are read as they come, and the object that is kept has null in
//! their place. The other members are read of that object when it is over: only then it is
//! known which of two members of one key counts, and how many keys there are.
//!
//! A key `form` may stand behind the payloads. So a text is first read as one of form 1, and only where that key was
//! met it is read once more, with the names at hand that the object has.

ghost use Rattle.serde_json.specs.Data.{Members, object};
ghost use Rattle.pc_input.specs.Input.{input_from, names_of};
ghost use Rattle.pc_input.specs.Root.{input_with, one_with, first_of, first_with, Stands};
ghost use Rattle.pc_input.specs.Root.{TakesMember, TakesRoot, TakesObject};
ghost use Rattle.pc_input_values.specs.Rules.{plain};
ghost use Rattle.pc_input_values.specs.Reads.{Reads};

use crate::input::Input;
use crate::take::{passed_as, take_list};
use json::{Reader, Value};
use pc_entity::{Seq, Text};
use pc_input_tokens::{Refusal, Start, Tree, begin, pass_items, take_tree};
use pc_input_values::{DecodeError, Form, Plain, field};
use pc_parsed::{Payload, Tunables};
use std::alloc::Global;

/// How deep arrays and objects may nest.
const MAX_DEPTH: usize = 127;

/// What an object says by itself.
#[derive(Drop)]
pub(crate) enum First {
    /// The input of form 1.
    Input(Input),
    /// The names of form 2.
    Names(Seq<Text>),
}

/// The names of form 2.
pub(crate) fn names_of<V: Tree>(alloc: Global, value: &V) -> Result<Seq<Text>, DecodeError>
    ensures { Reads result (names_of (V.means value.now)) }
{
    if !value.has_members(6) {
        return Err(DecodeError::BadForm);
    }
    let form: u32 = field(&Plain, alloc, value, "form")?;
    let names = field(&Plain, alloc, value, "names")?;
    if form == 2 {
        Ok(names)
    } else {
        Err(DecodeError::BadForm)
    }
}

/// What the members say that an input has in each form, with payloads that were read.
pub(crate) fn members<F: Form, V: Tree>(
    form: &F,
    alloc: Global,
    value: &V,
    payloads: Option<Seq<Payload>>,
) -> Result<Input, DecodeError>
    ensures { Reads result (input_with (F.rules form.now) (V.means value.now) payloads) }
{
    let max_component_instances = field(form, alloc, value, "limit")?;
    let intrinsics = field(form, alloc, value, "intrinsics")?;
    let table = field(form, alloc, value, "types")?;
    match payloads {
        Some(payloads) => Ok(Input {
            tunables: Tunables {
                max_component_instances,
            },
            intrinsics,
            table,
            payloads,
        }),
        None => Err(DecodeError::BadForm),
    }
}

/// The input of an object of form 1, with payloads that were read.
fn one<V: Tree>(
    alloc: Global,
    value: &V,
    payloads: Option<Seq<Payload>>,
) -> Result<Input, DecodeError>
    ensures { Reads result (one_with (V.means value.now) payloads) }
{
    if value.has_members(4) {
        members(&Plain, alloc, value, payloads)
    } else {
        Err(DecodeError::BadForm)
    }
}

/// What an object says by itself, with payloads that were read.
fn read_object<V: Tree>(
    alloc: Global,
    value: &V,
    payloads: Option<Seq<Payload>>,
) -> Result<First, DecodeError>
    ensures { Reads result (first_with (V.means value.now) payloads) }
{
    if value.get("form").is_some() {
        Ok(First::Names(names_of(alloc, value)?))
    } else {
        Ok(First::Input(one(alloc, value, payloads)?))
    }
}

/// What an object says by itself, of which these members were kept.
pub(crate) fn read_kept<'a>(
    alloc: Global,
    kept: Vec<(&'a str, Value<'a>)>,
    payloads: Option<Seq<Payload>>,
) -> Result<First, DecodeError>
    ensures { (ms : Members) → Stands plain kept.entry.items payloads ms → Reads result (first_of (object ms)) }
{
    read_object(alloc, &Value::Object(kept), payloads)
}

/// What the members say that an input has in each form, of which these were kept.
pub(crate) fn read_members<'a, F: Form>(
    form: &F,
    alloc: Global,
    kept: Vec<(&'a str, Value<'a>)>,
    payloads: Option<Seq<Payload>>,
) -> Result<Input, DecodeError>
    ensures { (ms : Members) → Stands (F.rules form.now) kept.entry.items payloads ms
        → Reads result (input_from (F.rules form.now) (object ms)) }
{
    members(form, alloc, &Value::Object(kept), payloads)
}

/// The value of a key: payloads are read, and null stands for them, and of another value the tree is made.
fn take_member<'a, F: Form>(
    form: &F,
    alloc: Global,
    reader: &mut Reader<'a>,
    depth: usize,
    key: &str,
    payloads: &mut Option<Seq<Payload>>,
) -> Result<Value<'a>, Refusal>
    ensures { TakesMember (F.rules form.now) depth key.now reader.old payloads.old result reader.new payloads.new }
{
    if key == "payloads" {
        match take_list(form, alloc, reader, depth) {
            Ok(list) => {
                *payloads = Some(list);
                Ok(Value::Null)
            }
            Err(DecodeError::BadForm) => {
                *payloads = None;
                Ok(Value::Null)
            }
            Err(DecodeError::NotJson) => Err(Refusal::NotJson),
            Err(DecodeError::NoMemory) => Err(Refusal::NoMemory),
        }
    } else {
        take_tree(alloc, reader, depth)
    }
}

/// The members of an object whose brace was taken, with null for the payloads, and these.
fn take_members<'a, F: Form>(
    form: &F,
    alloc: Global,
    reader: &mut Reader<'a>,
    depth: usize,
) -> Result<(Vec<(&'a str, Value<'a>)>, Option<Seq<Payload>>), Refusal>
    ensures { TakesRoot (F.rules form.now) depth reader.old result reader.new }
{
    let mut found = Vec::new(alloc);
    let mut payloads = None;
    'members: loop {
        match reader.next_key() {
            Ok(Some(key)) => match take_member(form, alloc, reader, depth, key, &mut payloads) {
                Ok(member) => {
                    if found.push((key, member)).is_err() {
                        return Err(Refusal::NoMemory);
                    }
                }
                Err(Refusal::NotJson) => return Err(Refusal::NotJson),
                Err(Refusal::NoMemory) => return Err(Refusal::NoMemory),
            },
            Ok(None) => return Ok((found, payloads)),
            Err(_) => return Err(Refusal::NotJson),
        }
    }
}

/// The members of the object that is the next value, with null for the payloads, and these.
pub(crate) fn take_object<'a, F: Form>(
    form: &F,
    alloc: Global,
    reader: &mut Reader<'a>,
) -> Result<(Vec<(&'a str, Value<'a>)>, Option<Seq<Payload>>), DecodeError>
    ensures { TakesObject (F.rules form.now) reader.old result reader.new }
{
    match begin(reader) {
        Some(Start::Object) => match take_members(form, alloc, reader, MAX_DEPTH - 1) {
            Ok(kept) => Ok(kept),
            Err(Refusal::NotJson) => Err(DecodeError::NotJson),
            Err(Refusal::NoMemory) => Err(DecodeError::NoMemory),
        },
        Some(Start::Array) => Err(passed_as(pass_items(alloc, reader, MAX_DEPTH - 1))),
        Some(Start::Scalar) => Err(DecodeError::BadForm),
        None => Err(DecodeError::NotJson),
    }
}
