//! The types of the handed-in modules that a graph exports. They are the only types that the graph has by numbers of
//! the table. Many exports may have one wide type, so each entry of the table is converted once.

ghost use Rattle.std.specs.Prelude.{◌≡◌, None, Some, Err, All, Contains, IfOk, OnOk, IsSome};
ghost use Rattle.pc_types.specs.declared.type_index.TypeModuleIndex.{TypeModuleIndex};
ghost use Rattle.pc_types.specs.declared.types.TypeDef.TheVariants as def;
ghost use Rattle.pc_types.specs.Table.{table_fault};
ghost use Rattle.pc_types_builder.specs.Types.{Grows, IsTooFullFor, Types};
ghost use Rattle.pc_types_builder.specs.Trees.{IsEntry};
ghost use Rattle.pc_dfg.specs.declared.export.Export.{Export};
ghost use Rattle.pc_dfg_linearize.specs.declared.error.FinishError.TheVariants as refusal;
ghost use Rattle.pc_dfg_finish.specs.ModuleTypes.{IsTyped, static_type, type_at};
ghost use Rattle.pc_translate.specs.ModuleTypes.{AddsModules, AreModuleTypes, HasModuleType, HoldsModules, HasNoPlace};
ghost use Rattle.pc_translate.specs.ModuleTypes.{IsExported, IsModuleType, LacksPlace, StayTyped};

use pc_dfg::Export;
use pc_dfg_finish::{FinishError, ModuleTypes};
use pc_entity::NoMemory;
use pc_types::{TypeError, TypeModuleIndex, TypeTable};
use pc_types_builder::ComponentTypesBuilder;
use std::alloc::Global;

/// The types of a table of which none was converted yet.
fn none_converted(alloc: Global, table: &TypeTable) -> Result<ModuleTypes, NoMemory>
    ensures { IfOk result (λ m. (b : Types) → AreModuleTypes b table.now m) }
{
    ModuleTypes::new(alloc, table.types.len())
}

/// The type of a module type of the table.
#[tactic(auto, using(crate::proofs::AddsModulesLemmas::adds_module))]
fn converted(
    types: &mut ComponentTypesBuilder,
    table: &TypeTable,
    ty: u32,
) -> Result<TypeModuleIndex, FinishError>
    requires sound { table_fault table.now ≡ None }
    requires is_module { IsModuleType table.now ty }
    ensures tree { IfOk result (λ i. IsEntry types.new table.now ty (def.Module i)) }
    ensures grows { Grows types.old types.new }
    ensures adds { AddsModules table.now (λ n. n ≡ ty) types.old types.new }
    ensures full { result ≡ Err refusal.TooMany
        → IsTooFullFor types.new (λ b. (i : TypeModuleIndex) × IsEntry b table.now ty (def.Module i)) }
{
    match types.convert_module(table, ty) {
        Ok(index) => Ok(index),
        Err(TypeError::BadNumber) => unreachable!(),
        Err(TypeError::TooMany) => Err(FinishError::TooMany),
        Err(TypeError::NoMemory) => Err(FinishError::NoMemory),
    }
}

/// Converts a module type of the table, unless that was done.
#[tactic(auto, using(crate::proofs::AddsModulesLemmas::adds_none))]
fn convert(
    types: &mut ComponentTypesBuilder,
    table: &TypeTable,
    done: &mut ModuleTypes,
    ty: u32,
) -> Result<(), FinishError>
    requires sound { table_fault table.now ≡ None }
    requires is_module { IsModuleType table.now ty }
    requires done { AreModuleTypes types.old table.now done.old }
    ensures grows { Grows types.old types.new }
    ensures adds { AddsModules table.now (λ n. n ≡ ty) types.old types.new }
    ensures done { OnOk result (AreModuleTypes types.new table.now done.new) }
    ensures keeps { OnOk result (StayTyped done.old done.new) }
    ensures here { OnOk result (IsSome (type_at done.new ty)) }
    ensures full { result ≡ Err refusal.TooMany
        → IsTooFullFor types.new (λ b. (i : TypeModuleIndex) × IsEntry b table.now ty (def.Module i)) }
{
    if done.get(ty).is_none() {
        let index = converted(types, table, ty)?;
        done.put(ty, index);
    }
    Ok(())
}

/// The number in the table that the type of a handed-in module has, where such a one is exported.
fn static_type(item: &Export) -> Option<u32>
    ensures { result ≡ static_type item.now }
{
    match item {
        Export::ModuleStatic { ty, .. } => Some(*ty),
        _ => None,
    }
}

/// Converts the type of a handed-in module, where such a one is exported.
fn convert_item(
    types: &mut ComponentTypesBuilder,
    table: &TypeTable,
    done: &mut ModuleTypes,
    item: &Export,
) -> Result<(), FinishError>
    requires sound { table_fault table.now ≡ None }
    requires is_module { HasModuleType table.now item.now }
    requires done { AreModuleTypes types.old table.now done.old }
    ensures grows { Grows types.old types.new }
    ensures adds { AddsModules table.now (λ n. static_type item.now ≡ Some n) types.old types.new }
    ensures done { OnOk result (AreModuleTypes types.new table.now done.new) }
    ensures keeps { OnOk result (StayTyped done.old done.new) }
    ensures here { OnOk result (IsTyped done.new item.now) }
    ensures full { result ≡ Err refusal.TooMany → HasNoPlace types.new table.now item.now }
{
    match static_type(item) {
        Some(ty) => convert(types, table, done, ty),
        None => Ok(()),
    }
}

/// Converts the types of the handed-in modules among these exports, one after another.
fn convert_items(
    alloc: Global,
    types: &mut ComponentTypesBuilder,
    table: &TypeTable,
    items: &[Export],
) -> Result<ModuleTypes, FinishError>
    requires sound { table_fault table.now ≡ None }
    requires are_modules { All (HasModuleType table.now) items.now }
    ensures grows { Grows types.old types.new }
    ensures adds { AddsModules table.now (IsExported items.now) types.old types.new }
    ensures types { IfOk result (λ m. AreModuleTypes types.new table.now m) }
    ensures typed { IfOk result (λ m. All (IsTyped m) items.now) }
    ensures full { result ≡ Err refusal.TooMany
        → (e : Export) × Contains items.now e × HasNoPlace types.new table.now e }
{
    let mut done = none_converted(alloc, table)?;
    for item in items {
        convert_item(types, table, &mut done, item)?;
    }
    Ok(done)
}

/// Converts the types of the handed-in modules among these exports.
pub(crate) fn module_types(
    alloc: Global,
    types: &mut ComponentTypesBuilder,
    table: &TypeTable,
    items: &[Export],
) -> Result<ModuleTypes, FinishError>
    requires sound { table_fault table.now ≡ None }
    requires are_modules { All (HasModuleType table.now) items.now }
    ensures grows { Grows types.old types.new }
    ensures adds { AddsModules table.now (IsExported items.now) types.old types.new }
    ensures types { IfOk result (λ m. AreModuleTypes types.new table.now m) }
    ensures typed { IfOk result (λ m. All (IsTyped m) items.now) }
    ensures full { result ≡ Err refusal.TooMany → LacksPlace table.now items.now types.old types.new }
    ensures unchanged { HoldsModules types.old table.now items.now → types.new ≡ types.old }
{
    let converted = convert_items(alloc, types, table, items);
    // No two types are equal, so no more were added than the table has entries and signatures, and none that was held.
    types.types_are_distinct();
    converted
}
