//! A table with an entry of each kind, converted and read.

ghost use Rattle.std.specs.Prelude.{◌≡◌, None};
ghost use Rattle.pc_types.specs.Table.{table_fault};

use crate::builder::converts;
use crate::builder::entries::Shape;
use crate::builder::readers::reads_each;
use crate::support::{holds, is_sound};
use pc_entity::ModuleInternedTypeIndex;
use pc_types::{
    Entity, InterfaceType, TypeComponentIndex, TypeComponentInstanceIndex, TypeDef, TypeFuncIndex,
    TypeKind, TypeModuleIndex, TypeResultIndex, TypeTable, ValType,
};
use pc_types_builder::{ComponentTypesBuilder, Converted};
use std::alloc::Global;
use std::process::Abort;
use std::test::*;

#[test]
fn a_table_of_each_kind_is_converted(rt: HostRuntime) {
    converts(&rt, rt.alloc(), Shape::EachKind);
}

/// Converts the entries of a table of each kind, and reads their types.
pub fn converts_each(
    rt: &impl Abort,
    alloc: Global,
    types: &mut ComponentTypesBuilder,
    table: &TypeTable,
) {
    holds(rt, "sound", is_sound(alloc, table));
    holds_of_each(rt, types, 0, 0);
    converts_last(rt, types, table);
    converts_externs(rt, types, table);
    converts_parts(rt, types, table);
    holds(rt, "function", converts_again(alloc, types, table));
    holds_of_each(rt, types, 3, 1);
    reads_each(rt, types);
}

/// The component is of the other entries, so that each of them is converted with it.
fn converts_last(rt: &impl Abort, types: &mut ComponentTypesBuilder, table: &TypeTable)
    requires sound { table_fault table.now ≡ None }
{
    let found = types.convert_type(table, 17);
    holds(
        rt,
        "component",
        found == Ok(TypeDef::Component(TypeComponentIndex(0))),
    );
}

/// The function, the instance and the module.
fn converts_externs(rt: &impl Abort, types: &mut ComponentTypesBuilder, table: &TypeTable)
    requires sound { table_fault table.now ≡ None }
{
    let func = types.convert_func(table, 14);
    holds(rt, "function", func == Ok(TypeFuncIndex(0)));
    let instance = types.convert_instance(table, 15);
    holds(
        rt,
        "instance",
        instance == Ok(TypeComponentInstanceIndex(0)),
    );
    let module = types.convert_module(table, 16);
    holds(rt, "module", module == Ok(TypeModuleIndex(0)));
}

/// Entry 11 is another name of entry 10.
fn converts_parts(rt: &impl Abort, types: &mut ComponentTypesBuilder, table: &TypeTable)
    requires sound { table_fault table.now ≡ None }
{
    let value = types.convert_val(table, &ValType::Type_(11));
    holds(
        rt,
        "value",
        value == Ok(InterfaceType::Result(TypeResultIndex(0))),
    );
    let entity = types.convert_entity(table, &Entity::Func(14));
    holds(
        rt,
        "entity",
        entity == Ok(TypeDef::ComponentFunc(TypeFuncIndex(0))),
    );
    let signature = types.core_sig(table, 0);
    holds(rt, "signature", signature == Ok(ModuleInternedTypeIndex(0)));
}

/// Whether the function has its number for a caller that keeps what was converted.
fn converts_again(alloc: Global, types: &mut ComponentTypesBuilder, table: &TypeTable) -> bool
    requires sound { table_fault table.now ≡ None }
{
    let mut converted = Converted::new(alloc, table);
    types.convert_func_with(table, 14, &mut converted) == Ok(TypeFuncIndex(0))
}

static KINDS: [TypeKind; 17] = [
    TypeKind::Func,
    TypeKind::Tuple,
    TypeKind::Record,
    TypeKind::Variant,
    TypeKind::List,
    TypeKind::Option,
    TypeKind::Result,
    TypeKind::Flags,
    TypeKind::Enum,
    TypeKind::ResourceTable,
    TypeKind::FutureTable,
    TypeKind::StreamTable,
    TypeKind::ErrorContextTable,
    TypeKind::Instance,
    TypeKind::Component,
    TypeKind::Module,
    TypeKind::Signature,
];

/// That so many tuples are held, and so many types of each other kind.
fn holds_of_each(rt: &impl Abort, types: &ComponentTypesBuilder, tuples: usize, others: usize) {
    for kind in KINDS.iter() {
        let want = wanted(*kind, tuples, others);
        holds(rt, "types of a kind", types.held(*kind) == want);
    }
}

/// How many types of a kind are held.
fn wanted(kind: TypeKind, tuples: usize, others: usize) -> usize {
    match kind {
        TypeKind::Tuple => tuples,
        _ => others,
    }
}
