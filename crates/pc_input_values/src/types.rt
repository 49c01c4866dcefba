//! The entries of the type table.

ghost use Rattle.std.specs.Prelude.{◌≡◌, option_map, map};
ghost use Rattle.pc_entity.specs.Lists.{value_of};
ghost use Rattle.pc_input_values.specs.Types.{core_sig, val_type, entity, entity_from, entity_kinds, core_entity};
ghost use Rattle.pc_input_values.specs.Types.{core_entity_from, core_entity_of};
ghost use Rattle.pc_input_values.specs.Types.{bare_core_entities, func_members, func_type, value_keys, entry_keys};
ghost use Rattle.pc_input_values.specs.Types.{handle_keys, named_keys};
ghost use Rattle.pc_input_values.specs.Types.{decl_type, type_table};
ghost use Rattle.pc_input_values.specs.Tree.{by_row};
ghost use Rattle.pc_input_values.specs.Reads.{Reads};

use crate::DecodeError;
use crate::form::{Form, ReadForm, field, read};
use pc_entity::{Seq, Text};
use pc_input_tokens::{Tree, headed};
use pc_types::{
    CoreEntity, CoreFuncSig, DeclType, Entity, PrimType, TypeTable, ValType, WasmValType,
};
use std::alloc::Global;

/// `[[params],[results]]`.
impl ReadForm for CoreFuncSig {
    ghost shape = { λ _. core_sig };

    #[tactic(auto, unfolding(crate::specs::Types::core_sig))]
    fn read<F: Form, V: Tree>(
        form: &F,
        alloc: Global,
        value: &V,
    ) -> Result<CoreFuncSig, DecodeError> {
        let (params, results) = <(Seq<WasmValType>, Seq<WasmValType>)>::read(form, alloc, value)?;
        Ok(CoreFuncSig { params, results })
    }
}

/// The number of a table entry, or a primitive.
impl ReadForm for ValType {
    ghost shape = { λ _. val_type };

    #[tactic(auto, unfolding(crate::specs::Types::val_type))]
    fn read<F: Form, V: Tree>(form: &F, alloc: Global, value: &V) -> Result<ValType, DecodeError> {
        if value.is_number() {
            Ok(ValType::Type_(u32::read(form, alloc, value)?))
        } else {
            Ok(ValType::Prim(PrimType::read(form, alloc, value)?))
        }
    }
}

/// An entity of a kind and a number.
#[tactic(auto, unfolding(crate::specs::Types::entity_kinds))]
fn numbered_entity(kind: &str, n: u32) -> Option<Entity>
    ensures { result ≡ option_map (λ make. make n) (value_of kind.now entity_kinds) }
{
    match kind {
        "func" => Some(Entity::Func(n)),
        "instance" => Some(Entity::Instance(n)),
        "component" => Some(Entity::Component(n)),
        "module" => Some(Entity::Module(n)),
        "type" => Some(Entity::Type_(n)),
        _ => None,
    }
}

/// An entity of what follows the word of its kind.
fn entity_from<F: Form, V: Tree>(
    form: &F,
    alloc: Global,
    kind: &str,
    parts: &[V],
) -> Result<Entity, DecodeError>
    ensures { Reads result (entity_from kind.now (map V.means parts.now)) }
{
    match parts {
        [] => {
            if kind == "value" {
                Ok(Entity::Value)
            } else {
                Err(DecodeError::BadForm)
            }
        }
        [n] => {
            let n = u32::read(form, alloc, n)?;
            numbered_entity(kind, n).ok_or(DecodeError::BadForm)
        }
        _ => Err(DecodeError::BadForm),
    }
}

/// `["func",n]` and its kin, or `["value"]`.
impl ReadForm for Entity {
    ghost shape = { λ _. entity };

    #[tactic(auto, unfolding(crate::specs::Types::entity))]
    fn read<F: Form, V: Tree>(form: &F, alloc: Global, value: &V) -> Result<Entity, DecodeError> {
        match headed(value) {
            Some((kind, parts)) => entity_from(form, alloc, kind, parts),
            None => Err(DecodeError::BadForm),
        }
    }
}

/// A core entity that its kind alone says.
#[tactic(auto, unfolding(crate::specs::Types::bare_core_entities))]
fn bare_core_entity(kind: &str) -> Option<CoreEntity>
    ensures { result ≡ value_of kind.now bare_core_entities }
{
    match kind {
        "table" => Some(CoreEntity::Table),
        "global" => Some(CoreEntity::Global),
        "tag" => Some(CoreEntity::Tag),
        _ => None,
    }
}

/// A core entity of the word of its kind and one part.
fn core_entity_of<F: Form, V: Tree>(
    form: &F,
    alloc: Global,
    kind: &str,
    part: &V,
) -> Result<CoreEntity, DecodeError>
    ensures { Reads result (core_entity_of kind.now (V.means part.now)) }
{
    match kind {
        "func" => Ok(CoreEntity::Func(u32::read(form, alloc, part)?)),
        "memory" => Ok(CoreEntity::Memory {
            memory64: bool::read(form, alloc, part)?,
        }),
        _ => Err(DecodeError::BadForm),
    }
}

/// A core entity of what follows the word of its kind.
fn core_entity_from<F: Form, V: Tree>(
    form: &F,
    alloc: Global,
    kind: &str,
    parts: &[V],
) -> Result<CoreEntity, DecodeError>
    ensures { Reads result (core_entity_from kind.now (map V.means parts.now)) }
{
    match parts {
        [] => bare_core_entity(kind).ok_or(DecodeError::BadForm),
        [part] => core_entity_of(form, alloc, kind, part),
        _ => Err(DecodeError::BadForm),
    }
}

/// `["func",s]`, `["memory",b]` with `b` true for 64-bit, `["table"]`, `["global"]` or `["tag"]`.
impl ReadForm for CoreEntity {
    ghost shape = { λ _. core_entity };

    #[tactic(auto, unfolding(crate::specs::Types::core_entity))]
    fn read<F: Form, V: Tree>(
        form: &F,
        alloc: Global,
        value: &V,
    ) -> Result<CoreEntity, DecodeError> {
        match headed(value) {
            Some((kind, parts)) => core_entity_from(form, alloc, kind, parts),
            None => Err(DecodeError::BadForm),
        }
    }
}

/// A function type, by its members.
#[tactic(auto, unfolding(crate::specs::Types::func_members))]
fn func_members<F: Form, V: Tree>(
    form: &F,
    alloc: Global,
    value: &V,
) -> Result<DeclType, DecodeError>
    ensures { Reads result (func_members (F.rules form.now) (V.means value.now)) }
{
    let params = field(form, alloc, value, "params")?;
    let result = field(form, alloc, value, "result")?;
    let async_ = field(form, alloc, value, "async")?;
    Ok(DeclType::Func {
        params,
        result,
        async_,
    })
}

/// `{"params":[["name",V],...],"result":V?,"async":bool}`.
#[tactic(auto, unfolding(crate::specs::Types::func_type))]
fn func_type<F: Form, V: Tree>(form: &F, alloc: Global, value: &V) -> Result<DeclType, DecodeError>
    ensures { Reads result (func_type (F.rules form.now) (V.means value.now)) }
{
    if value.has_members(3) {
        func_members(form, alloc, value)
    } else {
        Err(DecodeError::BadForm)
    }
}

/// An entry over resources, streams or futures, by its key.
fn handle_entry<F: Form, V: Tree>(
    form: &F,
    alloc: Global,
    key: &str,
    value: &V,
) -> Result<DeclType, DecodeError>
    ensures { Reads result (by_row handle_keys key.now (V.means value.now)) }
{
    match key {
        "own" => Ok(DeclType::Own(read(form, alloc, value)?)),
        "borrow" => Ok(DeclType::Borrow(read(form, alloc, value)?)),
        "stream" => Ok(DeclType::Stream(read(form, alloc, value)?)),
        "future" => Ok(DeclType::Future(read(form, alloc, value)?)),
        _ => Err(DecodeError::BadForm),
    }
}

/// An entry over value types, resources, streams or futures, by its key.
#[tactic(auto, unfolding(crate::specs::Types::value_keys))]
fn value_entry<F: Form, V: Tree>(
    form: &F,
    alloc: Global,
    key: &str,
    value: &V,
) -> Result<DeclType, DecodeError>
    ensures { Reads result (by_row value_keys key.now (V.means value.now)) }
{
    match key {
        "val" => Ok(DeclType::Val(read(form, alloc, value)?)),
        "list" => Ok(DeclType::List(read(form, alloc, value)?)),
        "option" => Ok(DeclType::Option(read(form, alloc, value)?)),
        "tuple" => Ok(DeclType::Tuple(read(form, alloc, value)?)),
        "result" => {
            let (ok, err) = read(form, alloc, value)?;
            Ok(DeclType::Result { ok, err })
        }
        _ => handle_entry(form, alloc, key, value),
    }
}

/// An entry whose parts have names, or one over value types, by its key.
fn named_entry<F: Form, V: Tree>(
    form: &F,
    alloc: Global,
    key: &str,
    value: &V,
) -> Result<DeclType, DecodeError>
    ensures { Reads result (by_row (named_keys (F.rules form.now)) key.now (V.means value.now)) }
{
    match key {
        "record" => Ok(DeclType::Record(read(form, alloc, value)?)),
        "variant" => Ok(DeclType::Variant(read(form, alloc, value)?)),
        "flags" => Ok(DeclType::Flags(read(form, alloc, value)?)),
        "enum" => Ok(DeclType::Enum(read(form, alloc, value)?)),
        _ => value_entry(form, alloc, key, value),
    }
}

/// An entry that is an object, by its key.
#[tactic(auto, unfolding(crate::specs::Types::entry_keys))]
fn entry<F: Form, V: Tree>(
    form: &F,
    alloc: Global,
    key: &str,
    value: &V,
) -> Result<DeclType, DecodeError>
    ensures { Reads result (by_row (entry_keys (F.rules form.now)) key.now (V.means value.now)) }
{
    match key {
        "func" => func_type(form, alloc, value),
        "instance" => Ok(DeclType::Instance {
            exports: read(form, alloc, value)?,
        }),
        "component" => {
            let (imports, exports) = read(form, alloc, value)?;
            Ok(DeclType::Component { imports, exports })
        }
        "module" => {
            let (imports, exports) = read(form, alloc, value)?;
            Ok(DeclType::Module { imports, exports })
        }
        _ => named_entry(form, alloc, key, value),
    }
}

/// `"resource"`, or an object of one member.
impl ReadForm for DeclType {
    ghost shape = { decl_type };

    #[tactic(auto, unfolding(crate::specs::Types::decl_type))]
    fn read<F: Form, V: Tree>(form: &F, alloc: Global, value: &V) -> Result<DeclType, DecodeError> {
        if let Some(word) = value.as_str() {
            return if word == "resource" {
                Ok(DeclType::Resource)
            } else {
                Err(DecodeError::BadForm)
            };
        }
        match value.tagged() {
            Some((key, body)) => entry(form, alloc, key, body),
            None => Err(DecodeError::BadForm),
        }
    }
}

/// `{"core":[..],"types":[..]}`.
impl ReadForm for TypeTable {
    ghost shape = { type_table };

    #[tactic(auto, unfolding(crate::specs::Types::type_table))]
    fn read<F: Form, V: Tree>(
        form: &F,
        alloc: Global,
        value: &V,
    ) -> Result<TypeTable, DecodeError> {
        if !value.has_members(2) {
            return Err(DecodeError::BadForm);
        }
        Ok(TypeTable {
            core_funcs: field(form, alloc, value, "core")?,
            types: field(form, alloc, value, "types")?,
        })
    }
}
