//! Whether a type table is sound: each entry names earlier entries of the kind that the place wants.

ghost use Rattle.std.specs.Prelude.{◌≡◌, ◌<◌, ◌⊎◌, ◌&&◌, None, Some, [], length, map, IfOk, IfErr, OnOk, slice_get};
ghost use Rattle.std.specs.Option.{option_map};
ghost use Rattle.std.specs.List.{list_all, list_any};
ghost use Rattle.pc_entity.specs.Lists.{names_of};
ghost use Rattle.pc_types.specs.Names.{are_distinct, distinct_names, same_pair};
ghost use Rattle.pc_types.specs.Table.{is_sound_val, is_none_or, is_some_and, is_resource, is_func, is_instance};
ghost use Rattle.pc_types.specs.Table.{is_component, is_module, is_defined_type, is_value, are_sound_fields};
ghost use Rattle.pc_types.specs.Table.{are_sound_cases, are_sound_externs, is_sound_entity, is_sound_entry};
ghost use Rattle.pc_types.specs.Table.{holds_value, table_fault, table_error};
ghost use Rattle.pc_types.specs.declared.parsed.DeclType.TheVariants as entry;
ghost use Rattle.pc_types.specs.Record.{is_typed};

use crate::distinct::{distinct_keys, distinct_pairs, distinct_texts};
use crate::{CoreEntity, DeclType, Entity, Error, Place, TypeTable, Unsupported, ValType};
use pc_entity::{NoMemory, Seed, Text};
use std::alloc::Global;

/// Looks at the entries in order, and refuses the first that is faulty.
///
/// `BadTable` comes where a number in an entry isn't that of an earlier entry of the right kind, where a core signature
/// is missing, or where a list of names has one twice. `Unsupported` comes where an entry imports or exports a
/// component value and is otherwise sound.
pub fn check_table(alloc: Global, seed: Seed, table: &TypeTable) -> Result<(), Error>
    requires numbered { length table.now.types < 4294967295 }
    ensures ok { OnOk result (table_fault table.now ≡ None) }
    ensures err { IfErr result (λ e. (e ≡ Error.NoMemory) ⊎ (option_map table_error (table_fault table.now) ≡ Some e)) }
{
    let types = table.types.as_slice();
    for (n, entry) in types.iter().enumerate() {
        if !is_sound_entry(alloc, seed, table, &types[..n], entry)? {
            return Err(Error::BadTable(Place::Table(n as u32)));
        }
        if holds_value(entry) {
            return Err(Error::Unsupported(Unsupported::ComponentValue, Place::Table(n as u32)));
        }
    }
    Ok(())
}

/// Whether an entry after these earlier ones names what it may.
fn is_sound_entry(
    alloc: Global,
    seed: Seed,
    table: &TypeTable,
    earlier: &[DeclType],
    entry: &DeclType,
) -> Result<bool, NoMemory>
    ensures { IfOk result (λ sound. sound ≡ is_sound_entry table.now earlier.now entry.now) }
{
    match entry {
        DeclType::Resource => Ok(true),
        DeclType::Func {
            params,
            result,
            async_: _,
        } => is_sound_func(alloc, seed, earlier, params.as_slice(), *result),
        DeclType::Val(v) | DeclType::List(v) | DeclType::Option(v) => Ok(is_sound_val(earlier, *v)),
        DeclType::Record(fields) => are_sound_fields(alloc, seed, earlier, fields.as_slice()),
        DeclType::Variant(cases) => are_sound_cases(alloc, seed, earlier, cases.as_slice()),
        DeclType::Tuple(vs) => Ok(are_sound_vals(earlier, vs.as_slice())),
        DeclType::Flags(names) | DeclType::Enum(names) => distinct_texts(
            alloc,
            seed,
            names.as_slice(),
        ),
        DeclType::Result { ok, err } => {
            Ok(is_sound_maybe(earlier, *ok) && is_sound_maybe(earlier, *err))
        }
        DeclType::Own(n) | DeclType::Borrow(n) => Ok(names_resource(earlier, *n)),
        DeclType::Stream(v) | DeclType::Future(v) => Ok(is_sound_maybe(earlier, *v)),
        DeclType::Instance { exports } => are_sound_externs(
            alloc,
            seed,
            earlier,
            exports.as_slice(),
        ),
        DeclType::Component { imports, exports } => {
            is_sound_component(alloc, seed, earlier, imports.as_slice(), exports.as_slice())
        }
        DeclType::Module { imports, exports } => {
            is_sound_module(alloc, seed, table, imports.as_slice(), exports.as_slice())
        }
    }
}

/// Whether a function type after these earlier entries names what it may.
fn is_sound_func(
    alloc: Global,
    seed: Seed,
    earlier: &[DeclType],
    params: &[(Text, ValType)],
    returns: Option<ValType>,
) -> Result<bool, NoMemory>
    ensures { IfOk result (λ sound. sound
        ≡ (are_sound_fields earlier.now params.now && is_none_or (is_sound_val earlier.now) returns)) }
{
    let are_sound = are_sound_fields(alloc, seed, earlier, params)?;
    Ok(are_sound && is_sound_maybe(earlier, returns))
}

/// Whether a component type after these earlier entries names what it may.
fn is_sound_component(
    alloc: Global,
    seed: Seed,
    earlier: &[DeclType],
    imports: &[(Text, Entity)],
    exports: &[(Text, Entity)],
) -> Result<bool, NoMemory>
    ensures { IfOk result (λ sound. sound
        ≡ (are_sound_externs earlier.now imports.now && are_sound_externs earlier.now exports.now)) }
{
    let are_sound = are_sound_externs(alloc, seed, earlier, imports)?;
    let exports_are_sound = are_sound_externs(alloc, seed, earlier, exports)?;
    Ok(are_sound && exports_are_sound)
}

/// Whether a module type names signatures of the table, and no name stands twice in it.
fn is_sound_module(
    alloc: Global,
    seed: Seed,
    table: &TypeTable,
    imports: &[(Text, Text, CoreEntity)],
    exports: &[(Text, CoreEntity)],
) -> Result<bool, NoMemory>
    ensures { IfOk result (λ sound. sound ≡ is_sound_entry table.now [] (entry.Module imports.now exports.now)) }
{
    let imports_are_distinct = distinct_pairs(alloc, seed, imports)?;
    let exports_are_distinct = distinct_keys(alloc, seed, exports)?;
    Ok(
        table.imports_are_typed(imports)
            && exports_are_typed(table, exports)
            && imports_are_distinct
            && exports_are_distinct,
    )
}

/// Whether each exported function has a signature of the table.
fn exports_are_typed(table: &TypeTable, exports: &[(Text, CoreEntity)]) -> bool
    ensures { result ≡ list_all (λ e. is_typed table.now e.1) exports.now }
{
    exports.iter().all(|e| table.is_typed(e.1))
}

/// Whether each field names what it may, and no name stands twice.
fn are_sound_fields(
    alloc: Global,
    seed: Seed,
    earlier: &[DeclType],
    fields: &[(Text, ValType)],
) -> Result<bool, NoMemory>
    ensures { IfOk result (λ sound. sound ≡ are_sound_fields earlier.now fields.now) }
{
    let are_distinct = distinct_keys(alloc, seed, fields)?;
    Ok(fields_are_typed(earlier, fields) && are_distinct)
}

/// Whether each field names what it may.
fn fields_are_typed(earlier: &[DeclType], fields: &[(Text, ValType)]) -> bool
    ensures { result ≡ list_all (λ f. is_sound_val earlier.now f.1) fields.now }
{
    fields.iter().all(|f| is_sound_val(earlier, f.1))
}

/// Whether each case names what it may, and no name stands twice.
fn are_sound_cases(
    alloc: Global,
    seed: Seed,
    earlier: &[DeclType],
    cases: &[(Text, Option<ValType>)],
) -> Result<bool, NoMemory>
    ensures { IfOk result (λ sound. sound ≡ are_sound_cases earlier.now cases.now) }
{
    let are_distinct = distinct_keys(alloc, seed, cases)?;
    Ok(cases_are_typed(earlier, cases) && are_distinct)
}

/// Whether each case names what it may.
fn cases_are_typed(earlier: &[DeclType], cases: &[(Text, Option<ValType>)]) -> bool
    ensures { result ≡ list_all (λ c. is_none_or (is_sound_val earlier.now) c.1) cases.now }
{
    cases.iter().all(|c| is_sound_maybe(earlier, c.1))
}

/// Whether each import or export names what it may, and no name stands twice.
fn are_sound_externs(
    alloc: Global,
    seed: Seed,
    earlier: &[DeclType],
    externs: &[(Text, Entity)],
) -> Result<bool, NoMemory>
    ensures { IfOk result (λ sound. sound ≡ are_sound_externs earlier.now externs.now) }
{
    let are_distinct = distinct_keys(alloc, seed, externs)?;
    Ok(externs_are_sound(earlier, externs) && are_distinct)
}

/// Whether each import or export names what it may.
fn externs_are_sound(earlier: &[DeclType], externs: &[(Text, Entity)]) -> bool
    ensures { result ≡ list_all (λ e. is_sound_entity earlier.now e.1) externs.now }
{
    externs.iter().all(|e| e.1.is_sound(earlier))
}

/// Whether each value type names what it may.
fn are_sound_vals(earlier: &[DeclType], vs: &[ValType]) -> bool
    ensures { result ≡ list_all (is_sound_val earlier.now) vs.now }
{
    vs.iter().all(|v| is_sound_val(earlier, *v))
}

/// Whether a value type, if there is one, names what it may.
fn is_sound_maybe(earlier: &[DeclType], v: Option<ValType>) -> bool
    ensures { result ≡ is_none_or (is_sound_val earlier.now) v }
{
    match v {
        Some(v) => is_sound_val(earlier, v),
        None => true,
    }
}

/// A type number is that of a defined type among the earlier entries.
fn is_sound_val(earlier: &[DeclType], v: ValType) -> bool
    ensures { result ≡ is_sound_val earlier.now v }
{
    match v {
        ValType::Prim(_) => true,
        ValType::Type_(n) => earlier
            .get(n as usize)
            .is_some_and(|entry| entry.is_defined_type()),
    }
}

/// Whether a number is that of a resource among the earlier entries.
fn names_resource(earlier: &[DeclType], n: u32) -> bool
    ensures { result ≡ is_some_and is_resource (slice_get earlier.now n) }
{
    earlier
        .get(n as usize)
        .is_some_and(|entry| entry.is_resource())
}

impl Entity {
    /// Whether the entity's number is that of one of these entries, and of one of its kind. A type may be an entry of
    /// any kind, and a component value has no number.
    pub fn is_sound(self, earlier: &[DeclType]) -> bool
        ensures { result ≡ is_sound_entity earlier.now self }
    {
        match self {
            Entity::Func(n) => earlier.get(n as usize).is_some_and(|entry| entry.is_func()),
            Entity::Instance(n) => earlier
                .get(n as usize)
                .is_some_and(|entry| entry.is_instance()),
            Entity::Component(n) => earlier
                .get(n as usize)
                .is_some_and(|entry| entry.is_component()),
            Entity::Module(n) => earlier
                .get(n as usize)
                .is_some_and(|entry| entry.is_module()),
            Entity::Type_(n) => (n as usize) < earlier.len(),
            Entity::Value => true,
        }
    }
}

/// Whether an entry imports or exports a component value.
fn holds_value(entry: &DeclType) -> bool
    ensures { result ≡ holds_value entry.now }
{
    match entry {
        DeclType::Instance { exports } => has_value(exports.as_slice()),
        DeclType::Component { imports, exports } => {
            has_value(imports.as_slice()) || has_value(exports.as_slice())
        }
        _ => false,
    }
}

/// Whether a component value is among these.
fn has_value(externs: &[(Text, Entity)]) -> bool
    ensures { result ≡ list_any (λ e. is_value e.1) externs.now }
{
    externs.iter().any(|e| matches!(e.1, Entity::Value))
}
