//! Which types are the same in each component instance: those in which no resource, stream, future or error context
//! stands. An entry is asked when its parts are done, so each question is one look-up for each part.

ghost use Rattle.std.specs.Prelude.{◌≡◌};
ghost use Rattle.std.specs.List.{list_all};
ghost use Rattle.pc_types_convert.specs.Plain.{is_plain_case, is_plain_entity, is_plain_entry, is_plain_extern};
ghost use Rattle.pc_types_convert.specs.Plain.{is_plain_field, is_plain_maybe, is_plain_val};

use crate::done::Done;
use crate::value::plain_type;
use pc_entity::Text;
use pc_types::{DeclType, Entity, ValType};

/// Whether the type of an entry whose parts are done is the same in each component instance.
pub fn is_plain(done: &Done, entry: &DeclType) -> bool
    ensures { result ≡ is_plain_entry done.now.plain entry.now }
{
    match entry {
        DeclType::Func {
            params,
            result,
            async_: _,
        } => are_plain_fields(done, params.as_slice()) && is_plain_maybe(done, *result),
        DeclType::Val(v) | DeclType::List(v) | DeclType::Option(v) => is_plain_val(done, *v),
        DeclType::Record(fields) => are_plain_fields(done, fields.as_slice()),
        DeclType::Variant(cases) => are_plain_cases(done, cases.as_slice()),
        DeclType::Tuple(vs) => are_plain_vals(done, vs.as_slice()),
        DeclType::Result { ok, err } => is_plain_maybe(done, *ok) && is_plain_maybe(done, *err),
        DeclType::Instance { exports } => are_plain_externs(done, exports.as_slice()),
        DeclType::Component { imports, exports } => {
            are_plain_externs(done, imports.as_slice())
                && are_plain_externs(done, exports.as_slice())
        }
        DeclType::Flags(_) | DeclType::Enum(_) | DeclType::Module { .. } => true,
        DeclType::Resource
        | DeclType::Own(_)
        | DeclType::Borrow(_)
        | DeclType::Stream(_)
        | DeclType::Future(_) => false,
    }
}

/// Whether the fields or parameters are.
fn are_plain_fields(done: &Done, fields: &[(Text, ValType)]) -> bool
    ensures { result ≡ list_all (is_plain_field done.now.plain) fields.now }
{
    fields.iter().all(|f| is_plain_val(done, f.1))
}

/// Whether the cases are.
fn are_plain_cases(done: &Done, cases: &[(Text, Option<ValType>)]) -> bool
    ensures { result ≡ list_all (is_plain_case done.now.plain) cases.now }
{
    cases.iter().all(|c| is_plain_maybe(done, c.1))
}

/// Whether the types of a tuple are.
fn are_plain_vals(done: &Done, vs: &[ValType]) -> bool
    ensures { result ≡ list_all (is_plain_val done.now.plain) vs.now }
{
    vs.iter().all(|v| is_plain_val(done, *v))
}

/// Whether the imports or exports are.
fn are_plain_externs(done: &Done, externs: &[(Text, Entity)]) -> bool
    ensures { result ≡ list_all (is_plain_extern done.now.plain) externs.now }
{
    externs.iter().all(|e| is_plain_entity(done, e.1))
}

/// Whether a value type is, if there is one.
fn is_plain_maybe(done: &Done, v: Option<ValType>) -> bool
    ensures { result ≡ is_plain_maybe done.now.plain v }
{
    match v {
        Some(v) => is_plain_val(done, v),
        None => true,
    }
}

/// Whether a value type is.
fn is_plain_val(done: &Done, v: ValType) -> bool
    ensures { result ≡ is_plain_val done.now.plain v }
{
    match v {
        ValType::Prim(p) => plain_type(p).is_some(),
        ValType::Type_(n) => done.is_plain_at(n),
    }
}

/// Whether an entity is.
fn is_plain_entity(done: &Done, e: Entity) -> bool
    ensures { result ≡ is_plain_entity done.now.plain e }
{
    match e {
        Entity::Func(n)
        | Entity::Instance(n)
        | Entity::Component(n)
        | Entity::Module(n)
        | Entity::Type_(n) => done.is_plain_at(n),
        Entity::Value => true,
    }
}
