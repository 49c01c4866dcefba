//! Whose context each argument of each core instance takes.
//!
//! An item of an instance may be one that its module imports. What that instance is given for it was looked at before,
//! since an instance is given items of earlier ones alone: so one look-up finds whose context the item takes, however
//! often it was exported again. The modules of adapters come last, since they name all others, and an adapter is
//! defined by its module.

ghost use Rattle.std.specs.Prelude.{◌≡◌, length, map, slice_get, List, Some, IfOk};
ghost use Rattle.pc_info.specs.Definitions.{item_view};
ghost use Rattle.pc_types.specs.declared.module_record.ModuleRecord.{ModuleRecord as Records};
ghost use Rattle.pc_dfg.specs.Ordered.{IsOrdered};
ghost use Rattle.pc_analysis_contexts.specs.Homes.{AreAllMade, AreMade};
ghost use Rattle.pc_analysis_contexts.specs.Indexed.{AreIndexes};
ghost use Rattle.pc_analysis_contexts.specs.Keys.{adapter_key, def_key, entity_key, item_key, key_at, made_for};
ghost use Rattle.pc_analysis_contexts.specs.Keys.{made_key, made_of};
ghost use Rattle.pc_analysis_contexts.specs.Recorded.{AreDefined};

use crate::import_index::ImportIndex;
use pc_dfg::{
    AdapterId, AdapterModuleId, ComponentDfg, CoreDef, CoreExport, ExportItem, Instance, InstanceId,
};
use pc_entity::{EntityIndex, NoMemory, Seq, StaticModuleIndex};
use pc_partition::VmctxKey;
use std::alloc::Global;

/// Whose context a function takes.
pub(crate) type Key = VmctxKey<InstanceId, AdapterModuleId>;

/// A core instance.
#[derive(Drop)]
pub(crate) enum Made {
    /// One of a module that is held, with whose context each of its arguments takes.
    Module(StaticModuleIndex, Seq<Option<Key>>),
    /// One that can't be seen through.
    Host,
}

/// Whose context the argument at a place takes.
pub(crate) fn key_at(keys: &[Option<Key>], place: usize) -> Option<Key>
    ensures { result ≡ key_at keys.now place }
{
    match keys.get(place) {
        Some(key) => *key,
        None => None,
    }
}

/// Whose context an entity of an instance takes: that of the argument that it is, or its own.
fn entity_key(
    index: &ImportIndex,
    keys: &[Option<Key>],
    instance: InstanceId,
    entity: EntityIndex,
) -> Option<Key>
    ensures { result ≡ entity_key index.now keys.now instance entity }
{
    match index.position(entity) {
        Some(place) => key_at(keys, place),
        None => {
            if index.defines(entity) {
                Some(VmctxKey::CoreInstance(instance))
            } else {
                None
            }
        }
    }
}

/// Whose context an entity of an instance takes, where the instance was looked at.
fn made_key(
    indexes: &[ImportIndex],
    made: &Made,
    instance: InstanceId,
    entity: EntityIndex,
) -> Option<Key>
    ensures { result ≡ made_key indexes.now (Some made.now) instance entity }
{
    match made {
        Made::Module(number, keys) => match indexes.get(number.0 as usize) {
            Some(index) => entity_key(index, keys.as_slice(), instance, entity),
            None => None,
        },
        Made::Host => None,
    }
}

/// Whose context an item of an instance takes.
fn item_key(
    indexes: &[ImportIndex],
    known: &[Made],
    export: &CoreExport<EntityIndex>,
) -> Option<Key>
    ensures { result ≡ item_key indexes.now known.now export.now.instance (item_view export.now.item) }
{
    match &export.item {
        ExportItem::Index(entity) => match known.get(export.instance.0 as usize) {
            Some(made) => made_key(indexes, made, export.instance, *entity),
            None => None,
        },
        ExportItem::Name(_) => None,
    }
}

/// Whose context an adapter takes.
fn adapter_key(graph: &ComponentDfg, adapter: AdapterId) -> Option<Key>
    ensures { result ≡ adapter_key (slice_get graph.now.adapter_partitionings adapter.0) }
{
    match graph.adapter_partitionings.get(adapter) {
        Some(place) => Some(VmctxKey::AdapterModule(place.0)),
        None => None,
    }
}

/// Whose context a definition takes.
fn def_key(
    graph: &ComponentDfg,
    indexes: &[ImportIndex],
    known: &[Made],
    def: &CoreDef,
) -> Option<Key>
    ensures { result ≡ def_key indexes.now known.now graph.now def.now }
{
    match def {
        CoreDef::Export(export) => item_key(indexes, known, export),
        CoreDef::InstanceFlags(_) => None,
        CoreDef::Trampoline(_) => Some(VmctxKey::Component),
        CoreDef::UnsafeIntrinsic(_, _) => Some(VmctxKey::Component),
        CoreDef::Adapter(adapter) => adapter_key(graph, *adapter),
    }
}

/// Whose context each of these definitions takes.
fn def_keys(
    alloc: Global,
    graph: &ComponentDfg,
    indexes: &[ImportIndex],
    known: &[Made],
    defs: &[CoreDef],
) -> Result<Seq<Option<Key>>, NoMemory>
    ensures { IfOk result (λ keys. keys ≡ map (def_key indexes.now known.now graph.now) defs.now) }
{
    let mut keys = Seq::with_capacity(alloc, defs.len())?;
    for def in defs {
        keys.push(def_key(graph, indexes, known, def))?;
    }
    Ok(keys)
}

/// A core instance of a module with these arguments.
fn made_of(
    alloc: Global,
    graph: &ComponentDfg,
    indexes: &[ImportIndex],
    known: &[Made],
    number: StaticModuleIndex,
    args: &[CoreDef],
) -> Result<Made, NoMemory>
    ensures { IfOk result (λ made. made ≡ made_of indexes.now known.now graph.now number args.now) }
{
    match indexes.get(number.0 as usize) {
        Some(_) => Ok(Made::Module(number, def_keys(alloc, graph, indexes, known, args)?)),
        None => Ok(Made::Host),
    }
}

/// A core instance of the graph.
fn made_for(
    alloc: Global,
    graph: &ComponentDfg,
    indexes: &[ImportIndex],
    known: &[Made],
    instance: &Instance,
) -> Result<Made, NoMemory>
    ensures { IfOk result (λ made. made ≡ made_for indexes.now known.now graph.now instance.now) }
{
    match instance {
        Instance::Static(number, args) => made_of(
            alloc,
            graph,
            indexes,
            known,
            *number,
            args.as_slice(),
        ),
        Instance::Import(_, _) => Ok(Made::Host),
    }
}

/// The core instances of the graph.
fn instances(
    alloc: Global,
    graph: &ComponentDfg,
    indexes: &[ImportIndex],
) -> Result<Vec<Made>, NoMemory>
    requires ordered { IsOrdered graph.now }
    ensures size { IfOk result (λ known. length known.items ≡ length graph.now.instances) }
    ensures made { IfOk result (λ known. (records : List Records) → AreIndexes records indexes.now
        → AreDefined graph.now records → AreMade graph.now records known.items) }
{
    let mut known = Vec::with_capacity(alloc, graph.instances.len())?;
    for instance in graph.instances.as_slice() {
        let made = made_for(alloc, graph, indexes, known.as_slice(), instance)?;
        known.push(made)?;
    }
    Ok(known)
}

/// The core instances of the graph, and then those of the modules of adapters.
pub(crate) fn all_made(
    alloc: Global,
    graph: &ComponentDfg,
    indexes: &[ImportIndex],
) -> Result<Vec<Made>, NoMemory>
    requires ordered { IsOrdered graph.now }
    ensures { IfOk result (λ known. (records : List Records) → AreIndexes records indexes.now
        → AreDefined graph.now records → AreAllMade graph.now records known.items) }
{
    let mut known = instances(alloc, graph, indexes)?;
    for adapters in graph.adapter_modules.as_slice() {
        let made = made_of(
            alloc,
            graph,
            indexes,
            known.as_slice(),
            adapters.0,
            adapters.1.as_slice(),
        )?;
        known.push(made)?;
    }
    Ok(known)
}
