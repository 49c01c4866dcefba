//! The input of a tree that was read before.

ghost use Rattle.std.specs.Prelude.{codes};
ghost use Rattle.serde_json.specs.View.{view};
ghost use Rattle.pc_input.specs.Payload.{payload_of};
ghost use Rattle.pc_input.specs.Input.{input_from, input_one, input_two, input_of};
ghost use Rattle.pc_input_values.specs.Reads.{Reads};
ghost use Rattle.pc_input_values.specs.Rules.{plain};
ghost use Rattle.pc_input_values.specs.Tree.{each, field};

use crate::entry::entries;
use crate::input::Input;
use crate::root::{members, names_of};
use pc_entity::Seq;
use pc_input_tokens::Tree;
use pc_input_values::{DecodeError, Form, Plain, Tabled};
use pc_parsed::Payload;
use serde_json::Value;
use std::alloc::Global;

/// The payloads of an object.
fn payloads<F: Form, V: Tree>(
    form: &F,
    alloc: Global,
    value: &V,
) -> Result<Seq<Payload>, DecodeError>
    ensures { Reads result (field (codes "payloads") (each (payload_of (F.rules form.now))) (V.means value.now)) }
{
    match value.get("payloads") {
        Some(list) => entries(form, alloc, list),
        None => Err(DecodeError::BadForm),
    }
}

/// What the members say that an input has in each form.
fn input_from<F: Form, V: Tree>(form: &F, alloc: Global, value: &V) -> Result<Input, DecodeError>
    ensures { Reads result (input_from (F.rules form.now) (V.means value.now)) }
{
    match payloads(form, alloc, value) {
        Ok(list) => members(form, alloc, value, Some(list)),
        Err(e) => Err(e),
    }
}

/// The input of form 1.
fn input_one<V: Tree>(alloc: Global, value: &V) -> Result<Input, DecodeError>
    ensures { Reads result (input_one (V.means value.now)) }
{
    if value.has_members(4) {
        input_from(&Plain, alloc, value)
    } else {
        Err(DecodeError::BadForm)
    }
}

/// The input of form 2.
fn input_two<V: Tree>(alloc: Global, value: &V) -> Result<Input, DecodeError>
    ensures { Reads result (input_two (V.means value.now)) }
{
    let names = names_of(alloc, value)?;
    input_from(&Tabled { names }, alloc, value)
}

/// The input that a tree stands for. A text of which it is the tree stands for the same.
pub fn decode_tree(alloc: Global, tree: &Value) -> Result<Input, DecodeError>
    ensures { Reads result (input_of (view tree.now)) }
{
    if tree.get("form").is_some() {
        input_two(alloc, tree)
    } else {
        input_one(alloc, tree)
    }
}
