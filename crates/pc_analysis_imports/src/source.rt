//! What an argument of a core instance is, as far as it can be followed.

ghost use Rattle.std.specs.Prelude.{◌≡◌, IfOk, map, slice_get};
ghost use Rattle.std.specs.Option.{option_copied};
ghost use Rattle.pc_analysis_imports.specs.Followed.{defined_source, entity_source, item_source, item_in, source_of};
ghost use Rattle.pc_analysis_imports.specs.Followed.{seen_through};

use crate::index::ImportIndex;
use pc_entity::{
    EntityIndex, NoMemory, RuntimeComponentInstanceIndex, Seq, StaticModuleIndex, TrampolineIndex,
};
use pc_info::{CoreDef, CoreExport, ExportItem};
use pc_types::{CoreKind, UnsafeIntrinsic, entity_number};
use std::alloc::Global;

/// What an argument is.
#[derive(Clone, Copy)]
pub(crate) enum Source {
    /// An entity that a module of the plan defines, by its number among what the module defines of that kind.
    Defined(StaticModuleIndex, CoreKind, u32),
    /// The flags of a component instance.
    Flags(RuntimeComponentInstanceIndex),
    /// A trampoline of the plan.
    Trampoline(TrampolineIndex),
    /// An unsafe intrinsic.
    Intrinsic(UnsafeIntrinsic),
    /// Something else, such as an item of a host module, or a trampoline that a module exports again.
    Unknown,
}

/// A core instance that the plan made before.
#[derive(Drop)]
pub(crate) enum Instance {
    /// Of a module of the plan, with what it is given for each of its imports.
    Static(StaticModuleIndex, Seq<Source>),
    /// Of a module of the host, whose items can't be seen through.
    Host,
}

/// What an import that a module exports again is, from what it is given.
fn through(given: Option<&Source>) -> Source
    ensures { result ≡ seen_through (option_copied given.entry) }
{
    match given {
        Some(Source::Defined(module, kind, number)) => Source::Defined(*module, *kind, *number),
        _ => Source::Unknown,
    }
}

/// What an entity is that a module doesn't import.
fn defined(index: &ImportIndex<'_>, core_module: StaticModuleIndex, entity: EntityIndex) -> Source
    ensures { result ≡ defined_source core_module index.now entity }
{
    let kind = CoreKind::of(entity);
    let number = entity_number(entity) as usize;
    let imported = index.imported(kind);
    if number < imported {
        return Source::Unknown;
    }
    let place = number - imported;
    if place < index.defined(kind) {
        return Source::Defined(core_module, kind, place as u32);
    }
    Source::Unknown
}

/// What an entity of an instance is that is given these for its imports.
fn of_entity(
    index: &ImportIndex<'_>,
    core_module: StaticModuleIndex,
    given: &[Source],
    entity: EntityIndex,
) -> Source
    ensures { result ≡ entity_source core_module index.now given.now entity }
{
    match index.import_position(entity) {
        Some(place) => through(given.get(place)),
        None => defined(index, core_module, entity),
    }
}

/// What an entity of an instance of a module is, if its module is held.
fn of_module(
    records: &[ImportIndex<'_>],
    core_module: StaticModuleIndex,
    given: &[Source],
    item: &ExportItem<EntityIndex>,
) -> Source
    ensures { result ≡ item_in records.now core_module given.now item.now }
{
    match item {
        ExportItem::Index(entity) => match records.get(core_module.0 as usize) {
            Some(index) => of_entity(index, core_module, given, *entity),
            None => Source::Unknown,
        },
        ExportItem::Name(_) => Source::Unknown,
    }
}

/// What an item of a core instance is.
fn of_export(
    records: &[ImportIndex<'_>],
    instances: &[Instance],
    export: &CoreExport<EntityIndex>,
) -> Source
    ensures { result ≡ item_source records.now (slice_get instances.now export.now.instance.0) export.now.item }
{
    match instances.get(export.instance.0 as usize) {
        Some(Instance::Static(module, given)) => of_module(
            records,
            *module,
            given.as_slice(),
            &export.item,
        ),
        _ => Source::Unknown,
    }
}

/// What a definition is, by the instances that were made before it is used.
#[tactic(auto, unfolding(crate::specs::Followed::source_of))]
pub(crate) fn of_def(records: &[ImportIndex<'_>], instances: &[Instance], def: &CoreDef) -> Source
    ensures { result ≡ source_of records.now instances.now def.now }
{
    match def {
        CoreDef::Export(export) => of_export(records, instances, export),
        CoreDef::InstanceFlags(instance) => Source::Flags(*instance),
        CoreDef::Trampoline(trampoline) => Source::Trampoline(*trampoline),
        CoreDef::UnsafeIntrinsic(intrinsic) => Source::Intrinsic(*intrinsic),
    }
}

/// What each of these definitions is.
pub(crate) fn of_defs(
    alloc: Global,
    records: &[ImportIndex<'_>],
    instances: &[Instance],
    defs: &[CoreDef],
) -> Result<Seq<Source>, NoMemory>
    ensures { IfOk result (λ found. found ≡ map (source_of records.now instances.now) defs.now) }
{
    let mut found = Seq::with_capacity(alloc, defs.len())?;
    for def in defs {
        found.push(of_def(records, instances, def))?;
    }
    Ok(found)
}
