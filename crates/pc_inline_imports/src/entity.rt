//! What an entity names in the type table, and what the host gives for it.

ghost use Rattle.std.specs.Prelude.{◌≡◌, ◌<◌, None, true, IfErr, IfOk};
ghost use Rattle.pc_types.specs.Table.{is_component, is_defined_type, table_fault};
ghost use Rattle.pc_types_lists.specs.Adds.{most_types};
ghost use Rattle.pc_types_builder.specs.Converted.{AreConverted};
ghost use Rattle.pc_spec_reading.specs.Nodes.{extern_data};
ghost use Rattle.pc_spec_reading.specs.Types.{has_entry, is_defined_entity, names_entry};
ghost use Rattle.pc_inline_state.specs.Adds.{Adds};
ghost use Rattle.pc_inline_state.specs.Prepares.{Converts};
ghost use Rattle.pc_inline_state.specs.Refused.{LacksRoom};
ghost use Rattle.pc_inline_state.specs.Tables.{tables_of};
ghost use Rattle.pc_inline_imports.specs.Given.{IsEntityType, host_definition, import_of, is_any};
ghost use Rattle.pc_inline_imports.specs.Given.{is_component_entity};

use pc_entity::{NoMemory, Text, TryClone};
use pc_inline_paths::PathId;
use pc_inline_state::{
    Context, Definition, ItemError, State, is_func_type, is_instance_type, is_module_type,
};
use pc_parsed::ExternName;
use pc_types::{ComponentExtern, ComponentExternData, Entity, TypeDef, TypeTable};
use pc_types_builder::Converted;
use std::alloc::Global;

/// Whether an entity names an entry of its kind.
pub(crate) fn names_entry(table: &TypeTable, entity: Entity) -> bool
    ensures { result ≡ names_entry table.now entity }
{
    match entity {
        Entity::Func(n) => is_func_type(table, n),
        Entity::Instance(n) => is_instance_type(table, n),
        Entity::Component(n) => is_component_type(table, n),
        Entity::Module(n) => is_module_type(table, n),
        Entity::Type_(n) => is_entry(table, n),
        Entity::Value => false,
    }
}

/// Whether a number is of a component type.
fn is_component_type(table: &TypeTable, ty: u32) -> bool
    ensures { result ≡ has_entry table.now is_component ty }
{
    match table.entry(ty) {
        Some(entry) => entry.is_component(),
        None => false,
    }
}

/// Whether a number is one of the table.
fn is_entry(table: &TypeTable, ty: u32) -> bool
    ensures { result ≡ has_entry table.now is_any ty }
{
    table.entry(ty).is_some()
}

/// Whether a number is of a defined type.
fn is_defined(table: &TypeTable, ty: u32) -> bool
    ensures { result ≡ has_entry table.now is_defined_type ty }
{
    match table.entry(ty) {
        Some(entry) => entry.is_defined_type(),
        None => false,
    }
}

/// Whether an entity is a defined type, for which the host gives nothing.
pub(crate) fn is_defined_entity(table: &TypeTable, entity: Entity) -> bool
    ensures { result ≡ is_defined_entity table.now entity }
{
    match entity {
        Entity::Type_(n) => is_defined(table, n),
        _ => false,
    }
}

/// The builder's type of an entity, for a component instance that has begun and has converted these.
pub(crate) fn entity_type(
    context: &Context<'_>,
    state: &mut State<'_>,
    converted: &mut Converted,
    entity: Entity,
) -> Result<TypeDef, ItemError>
    requires sound { table_fault context.now.table.now ≡ None }
    requires converted { AreConverted state.old.types context.now.table.now converted.old }
    requires begun { state.old.types.resources.current.0 < state.old.graph.num_runtime_component_instances }
    requires named { names_entry context.now.table.now entity ≡ true }
    ensures converts { Converts context.now.table.now state.old converted.old state.new converted.new }
    ensures adds { Adds context.now.table.now (most_types context.now.table.now)
        (tables_of state.old) (tables_of state.new) }
    ensures is { IfOk result (IsEntityType state.new.types context.now.table.now entity) }
    ensures err { IfErr result (LacksRoom state.new) }
{
    match entity {
        Entity::Func(n) => Ok(TypeDef::ComponentFunc(context.func_type(state, converted, n)?)),
        Entity::Instance(n) => {
            let ty = context.instance_type(state, converted, n)?;
            Ok(TypeDef::ComponentInstance(ty))
        }
        Entity::Module(n) => Ok(TypeDef::Module(context.module_type(state, converted, n)?)),
        Entity::Component(n) => context.entry_type(state, converted, n),
        Entity::Type_(n) => context.entry_type(state, converted, n),
        Entity::Value => unreachable!(),
    }
}

/// Whether an entity is a component.
pub(crate) fn is_component(entity: Entity) -> bool
    ensures { result ≡ is_component_entity entity }
{
    matches!(entity, Entity::Component(_))
}

/// What the host gives for an import, by its path.
pub(crate) fn host_definition(path: PathId, entity: Entity, ty: TypeDef) -> Definition
    ensures { result ≡ host_definition path entity ty }
{
    match (entity, ty) {
        (Entity::Func(_), TypeDef::ComponentFunc(ty)) => Definition::HostFunc { path, ty },
        (Entity::Instance(entry), TypeDef::ComponentInstance(ty)) => {
            Definition::HostInstance { path, ty, entry }
        }
        (Entity::Module(entry), TypeDef::Module(ty)) => Definition::HostModule { path, ty, entry },
        (_, ty) => Definition::Type_(ty),
    }
}

/// What a name says of itself.
fn extern_data(alloc: Global, name: &ExternName) -> Result<ComponentExternData, NoMemory>
    ensures { IfOk result (λ data_. data_ ≡ extern_data name.now) }
{
    let implements = name.implements.try_clone(alloc)?;
    let external_id = name.external_id.try_clone(alloc)?;
    Ok(ComponentExternData {
        implements,
        external_id,
    })
}

/// An import of this type, under its name.
pub(crate) fn import_of(
    alloc: Global,
    name: &ExternName,
    ty: TypeDef,
) -> Result<(Text, ComponentExtern), NoMemory>
    ensures { IfOk result (λ import. import ≡ import_of name.now ty) }
{
    let data_ = extern_data(alloc, name)?;
    Ok((name.name.try_clone(alloc)?, ComponentExtern { ty, data_ }))
}
