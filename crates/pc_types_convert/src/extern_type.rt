//! Entries of a table that are instances, components, core modules and resources, converted.

ghost use Rattle.std.specs.Prelude.{◌≡◌, ◌<◌, ◌∷◌, [], ℕ, List, length, map, true, None, Some, Err};
ghost use Rattle.std.specs.Prelude.{IfOk, IfSome, OnErr, slice_get};
ghost use Rattle.std.specs.List.{All, AllZip};
ghost use Rattle.pc_types.specs.declared.parsed.CoreEntity.{CoreEntity};
ghost use Rattle.pc_types.specs.declared.parsed.CoreEntity.TheVariants as core_entity;
ghost use Rattle.pc_types.specs.declared.parsed.CoreFuncSig.{CoreFuncSig};
ghost use Rattle.pc_types.specs.declared.types.TypeDef.{TypeDef};
ghost use Rattle.pc_types.specs.Record.{is_typed};
ghost use Rattle.pc_types_lists.specs.Types.{Grows, HasNumber, IsTooFullFor};
ghost use Rattle.pc_types_convert.specs.Adds.{AddsModule, AddsSignatures, AddsType};
ghost use Rattle.pc_types_lists.specs.Interned.{IsPut};
ghost use Rattle.pc_types_convert.specs.Parts.{EntityIs, ExternIs, IsThere};
ghost use Rattle.pc_types_convert.specs.Entries.{CoreIs, ComponentIs, ExportIs, ImportIs, InstanceIs, ModuleIs, ResourceIs};
ghost use Rattle.pc_types_convert.specs.Entries.{handles_of};
ghost use Rattle.pc_types_convert.specs.Labels.{IsLike};
ghost use Rattle.pc_types.specs.declared.parsed.DeclType.TheVariants as entry;

use crate::done::Earlier;
use crate::like::{component_number, instance_number};
use pc_entity::{ModuleInternedTypeIndex, NoMemory, Seq, Text, TryClone};
use pc_types::{
    CoreEntity, CoreFuncSig, Entity, TypeComponent, TypeComponentInstance, TypeDef, TypeModule,
    TypeResourceTable, TypeResourceTableIndex, TypeTable,
};
use pc_types_lists::{InternedTypes, NoPlace};
use std::alloc::Global;

/// The type of an entry that is a resource: the handles of it.
pub(crate) fn resource_entry(interned: &mut InternedTypes, n: u32) -> Result<TypeDef, NoPlace>
    ensures is { IfOk result (λ d. ResourceIs interned.new n d) }
    ensures grows { Grows interned.old interned.new }
    ensures adds { AddsType ⊥ (ResourceIs interned.new n) interned.old interned.new }
    ensures full { result ≡ Err NoPlace.TooMany → IsTooFullFor interned.new (λ b. (d : TypeDef) × ResourceIs b n d) }
{
    Ok(TypeDef::Resource(handles(interned, n)?))
}

/// The handles of the resource of a table number.
fn handles(interned: &mut InternedTypes, n: u32) -> Result<TypeResourceTableIndex, NoPlace>
    ensures is { IfOk result
        (λ i. slice_get interned.new.resource_tables i.0 ≡ Some (handles_of interned.new.resources n)) }
    ensures grows { Grows interned.old interned.new }
    ensures adds { AddsType ⊥ (ResourceIs interned.new n) interned.old interned.new }
    ensures full { result ≡ Err NoPlace.TooMany → IsTooFullFor interned.new
        (λ b. HasNumber b.resource_tables (handles_of b.resources n)) }
{
    let instance = interned.resources().current_instance();
    match interned.resources().lookup(n) {
        Some(ty) => interned.put_resource_table(TypeResourceTable::Concrete { ty, instance }),
        None => interned.put_resource_table(TypeResourceTable::Abstract(n)),
    }
}

/// The type of an entry that is an instance type.
pub(crate) fn instance_entry(
    interned: &mut InternedTypes,
    done: &Earlier<'_>,
    exports: &[(Text, Entity)],
    like: Option<TypeDef>,
) -> Result<TypeDef, NoPlace>
    requires ready { All (λ e. IsThere done.now e.1) exports.now }
    requires like { IfSome like (IsLike interned.old (entry.Instance exports.now)) }
    ensures is { IfOk result (λ d. InstanceIs interned.new done.now exports.now d) }
    ensures grows { Grows interned.old interned.new }
    ensures adds { AddsType ⊥ (InstanceIs interned.new done.now exports.now) interned.old interned.new }
    ensures full { result ≡ Err NoPlace.TooMany → IsTooFullFor interned.new
        (λ b. (d : TypeDef) × InstanceIs b done.now exports.now d) }
{
    let exports = externs(interned.alloc(), done, exports)?;
    let number = interned.put_instance(TypeComponentInstance { exports }, instance_number(like))?;
    Ok(TypeDef::ComponentInstance(number))
}

/// The type of an entry that is a component type.
pub(crate) fn component_entry(
    interned: &mut InternedTypes,
    done: &Earlier<'_>,
    imports: &[(Text, Entity)],
    exports: &[(Text, Entity)],
    like: Option<TypeDef>,
) -> Result<TypeDef, NoPlace>
    requires imports_ready { All (λ e. IsThere done.now e.1) imports.now }
    requires exports_ready { All (λ e. IsThere done.now e.1) exports.now }
    requires like { IfSome like (IsLike interned.old (entry.Component imports.now exports.now)) }
    ensures is { IfOk result (λ d. ComponentIs interned.new done.now imports.now exports.now d) }
    ensures grows { Grows interned.old interned.new }
    ensures adds { AddsType ⊥ (ComponentIs interned.new done.now imports.now exports.now) interned.old interned.new }
    ensures full { result ≡ Err NoPlace.TooMany → IsTooFullFor interned.new
        (λ b. (d : TypeDef) × ComponentIs b done.now imports.now exports.now d) }
{
    let imports = externs(interned.alloc(), done, imports)?;
    let exports = externs(interned.alloc(), done, exports)?;
    let number = interned.put_component(
        TypeComponent { imports, exports },
        component_number(like),
    )?;
    Ok(TypeDef::Component(number))
}

/// The type of an entry that is a module type.
pub(crate) fn module_entry(
    interned: &mut InternedTypes,
    table: &TypeTable,
    imports: &[(Text, Text, CoreEntity)],
    exports: &[(Text, CoreEntity)],
) -> Result<TypeDef, NoPlace>
    requires imports_typed { All (λ i. is_typed table.now i.2 ≡ true) imports.now }
    requires exports_typed { All (λ e. is_typed table.now e.1 ≡ true) exports.now }
    ensures is { IfOk result (λ d. ModuleIs interned.new table.now imports.now exports.now d) }
    ensures grows { Grows interned.old interned.new }
    ensures adds { AddsModule table.now imports.now exports.now interned.old interned.new }
    ensures full { result ≡ Err NoPlace.TooMany → IsTooFullFor interned.new
        (λ b. (d : TypeDef) × ModuleIs b table.now imports.now exports.now d) }
{
    let imports = module_imports(interned, table, imports)?;
    let exports = module_exports(interned, table, exports)?;
    Ok(TypeDef::Module(interned.put_module(TypeModule { imports, exports })?))
}

/// The imports of a module type, with signatures of the builder.
fn module_imports(
    interned: &mut InternedTypes,
    table: &TypeTable,
    imports: &[(Text, Text, CoreEntity)],
) -> Result<Seq<(Text, Text, CoreEntity)>, NoPlace>
    requires typed { All (λ i. is_typed table.now i.2 ≡ true) imports.now }
    ensures are { IfOk result (λ is. AllZip (ImportIs interned.new table.now) imports.now is) }
    ensures grows { Grows interned.old interned.new }
    ensures signatures { AddsSignatures table.now (map (λ i. i.2) imports.now) interned.old interned.new }
    ensures full { result ≡ Err NoPlace.TooMany → IsTooFullFor interned.new
        (λ b. (is : List (List ℕ × List ℕ × CoreEntity)) × AllZip (ImportIs b table.now) imports.now is) }
{
    let mut types = Seq::new(interned.alloc());
    for import in imports {
        types.push(module_import(interned, table, import)?)?;
    }
    Ok(types)
}

/// An import of a module type, with a signature of the builder.
fn module_import(
    interned: &mut InternedTypes,
    table: &TypeTable,
    import: &(Text, Text, CoreEntity),
) -> Result<(Text, Text, CoreEntity), NoPlace>
    requires typed { is_typed table.now import.now.2 ≡ true }
    ensures is { IfOk result (λ i. ImportIs interned.new table.now import.now i) }
    ensures grows { Grows interned.old interned.new }
    ensures signatures { AddsSignatures table.now (import.now.2 ∷ []) interned.old interned.new }
    ensures full { result ≡ Err NoPlace.TooMany → IsTooFullFor interned.new
        (λ b. (i : List ℕ × List ℕ × CoreEntity) × ImportIs b table.now import.now i) }
{
    let entity = core_entity(interned, table, import.2)?;
    let module = import.0.try_clone(interned.alloc())?;
    let name = import.1.try_clone(interned.alloc())?;
    Ok((module, name, entity))
}

/// The exports of a module type, with signatures of the builder.
fn module_exports(
    interned: &mut InternedTypes,
    table: &TypeTable,
    exports: &[(Text, CoreEntity)],
) -> Result<Seq<(Text, CoreEntity)>, NoPlace>
    requires typed { All (λ e. is_typed table.now e.1 ≡ true) exports.now }
    ensures are { IfOk result (λ es. AllZip (ExportIs interned.new table.now) exports.now es) }
    ensures grows { Grows interned.old interned.new }
    ensures signatures { AddsSignatures table.now (map (λ e. e.1) exports.now) interned.old interned.new }
    ensures full { result ≡ Err NoPlace.TooMany → IsTooFullFor interned.new
        (λ b. (es : List (List ℕ × CoreEntity)) × AllZip (ExportIs b table.now) exports.now es) }
{
    let mut types = Seq::new(interned.alloc());
    for export in exports {
        let name = export.0.try_clone(interned.alloc())?;
        types.push((name, core_entity(interned, table, export.1)?))?;
    }
    Ok(types)
}

/// An entity of a core module, with the builder's number of its signature.
fn core_entity(
    interned: &mut InternedTypes,
    table: &TypeTable,
    e: CoreEntity,
) -> Result<CoreEntity, NoPlace>
    requires typed { is_typed table.now e ≡ true }
    ensures is { IfOk result (λ f. CoreIs interned.new table.now e f) }
    ensures grows { Grows interned.old interned.new }
    ensures signatures { AddsSignatures table.now (e ∷ []) interned.old interned.new }
    ensures full { result ≡ Err NoPlace.TooMany → IsTooFullFor interned.new
        (λ b. (f : CoreEntity) × CoreIs b table.now e f) }
{
    match e {
        CoreEntity::Func(s) => Ok(CoreEntity::Func(signature_at(interned, table, s)?.0)),
        _ => Ok(e),
    }
}

/// The number of core signature `n`, which is there.
pub fn signature_at(
    interned: &mut InternedTypes,
    table: &TypeTable,
    n: u32,
) -> Result<ModuleInternedTypeIndex, NoPlace>
    requires there { n < length table.now.core_funcs }
    ensures ok { IfOk result
        (λ i. (s : CoreFuncSig) × (slice_get table.now.core_funcs n ≡ Some s)
        × (slice_get interned.new.signatures i.0 ≡ Some s)) }
    ensures grows { Grows interned.old interned.new }
    ensures signatures { AddsSignatures table.now (core_entity.Func n ∷ []) interned.old interned.new }
    ensures err { OnErr result (interned.new ≡ interned.old) }
    ensures put { (s : CoreFuncSig) → slice_get table.now.core_funcs n ≡ Some s
        → IsPut interned.old.signatures interned.new.signatures s }
    ensures full { result ≡ Err NoPlace.TooMany → IsTooFullFor interned.new
        (λ b. (s : CoreFuncSig) × (slice_get table.now.core_funcs n ≡ Some s) × HasNumber b.signatures s) }
{
    let signature = core_func_at(table, n).try_clone(interned.alloc())?;
    interned.put_signature(signature)
}

/// Core signature `n` of the table, which is there.
fn core_func_at(table: &TypeTable, n: u32) -> &CoreFuncSig
    requires { n < length table.now.core_funcs }
    ensures { slice_get table.now.core_funcs n ≡ Some result.now }
{
    &table.core_funcs.as_slice()[n as usize]
}

/// The named types of a list, in order.
fn externs(
    alloc: Global,
    done: &Earlier<'_>,
    items: &[(Text, Entity)],
) -> Result<Seq<(Text, TypeDef)>, NoMemory>
    requires ready { All (λ e. IsThere done.now e.1) items.now }
    ensures are { IfOk result (λ es. AllZip (ExternIs done.now) items.now es) }
{
    let mut types = Seq::with_capacity(alloc, items.len())?;
    for item in items {
        let name = item.0.try_clone(alloc)?;
        types.push((name, entity_at(done, item.1)))?;
    }
    Ok(types)
}

/// The type of a done entity.
fn entity_at(done: &Earlier<'_>, e: Entity) -> TypeDef
    requires { IsThere done.now e }
    ensures { EntityIs done.now e result }
{
    match e {
        Entity::Func(n) => done.type_at(n),
        Entity::Instance(n) => done.type_at(n),
        Entity::Component(n) => done.type_at(n),
        Entity::Module(n) => done.type_at(n),
        Entity::Type_(n) => done.type_at(n),
        Entity::Value => unreachable!(),
    }
}
