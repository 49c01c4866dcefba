//! The partition of the function imports of each core module.

ghost use Rattle.std.specs.Prelude.{◌≡◌, ◌<◌, length, map, replicate, IfOk, OnOk};
ghost use Rattle.pc_partition.specs.declared.partition.SameVmctxPartition.TheVariants as variant;
ghost use Rattle.pc_dfg.specs.Ordered.{IsOrdered};
ghost use Rattle.pc_analysis_contexts.specs.Cores.{graph_cores};
ghost use Rattle.pc_analysis_contexts.specs.Keys.{key_at};
ghost use Rattle.pc_analysis_contexts.specs.Recorded.{AreDefined, HaveFewImports, records_of};
ghost use Rattle.pc_analysis_contexts.specs.Shared.{ArePartitionsTo, AreStart, HaveFew, IsRefined, Refines, RefinesAt};
ghost use Rattle.pc_analysis_contexts.specs.Shared.{function_keys, parted};

use crate::import_index::{ImportIndex, indexes};
use crate::made::{Key, Made, all_made, key_at};
use pc_dfg::{ComponentDfg, Export};
use pc_entity::{NoMemory, PrimaryMap, StaticModuleIndex};
use pc_info::ModuleTranslation;
use pc_partition::SameVmctxPartition;
use std::alloc::Global;

/// The keys at these places.
fn keys_at(
    alloc: Global,
    keys: &[Option<Key>],
    places: &[u32],
) -> Result<Vec<Option<Key>>, NoMemory>
    ensures { IfOk result (λ found. found.items ≡ map (key_at keys.now) places.now) }
{
    let mut found = Vec::with_capacity(alloc, places.len())?;
    for place in places {
        found.push(key_at(keys, *place as usize))?;
    }
    Ok(found)
}

/// A partition with what keys say.
fn refined(
    alloc: Global,
    partition: &SameVmctxPartition,
    keys: &[Option<Key>],
) -> Result<SameVmctxPartition, NoMemory>
    requires few { length keys.now < 4294967295 }
    ensures { IfOk result (IsRefined partition.now keys.now) }
{
    let given = SameVmctxPartition::from_keys(alloc, keys)?;
    SameVmctxPartition::meet(alloc, partition, &given)
}

/// Refines the partition of a module by an instance of it.
fn refine_at(
    alloc: Global,
    index: &ImportIndex,
    keys: &[Option<Key>],
    partitions: &mut Vec<SameVmctxPartition>,
    place: usize,
) -> Result<(), NoMemory>
    requires held { place < length partitions.old.items }
    requires few { length (function_keys index.now keys.now) < 4294967295 }
    ensures { OnOk result (RefinesAt place (function_keys index.now keys.now) partitions.old.items
        partitions.new.items) }
{
    let found = keys_at(alloc, keys, index.functions())?;
    let partition = refined(alloc, &partitions[place], found.as_slice())?;
    partitions[place] = partition;
    Ok(())
}

/// Refines the partition of the module of a core instance.
fn refine(
    alloc: Global,
    indexes: &[ImportIndex],
    made: &Made,
    partitions: &mut Vec<SameVmctxPartition>,
) -> Result<(), NoMemory>
    requires few { HaveFew indexes.now }
    requires all { length partitions.old.items ≡ length indexes.now }
    ensures { OnOk result (Refines indexes.now made.now partitions.old.items partitions.new.items) }
{
    match made {
        Made::Module(number, keys) => {
            let place = number.0 as usize;
            match indexes.get(place) {
                Some(index) => refine_at(alloc, index, keys.as_slice(), partitions, place),
                None => Ok(()),
            }
        }
        Made::Host => Ok(()),
    }
}

/// So many partitions, of which nothing is said yet.
fn tops(alloc: Global, count: usize) -> Result<Vec<SameVmctxPartition>, NoMemory>
    ensures { IfOk result (λ partitions. partitions.items ≡ replicate count variant.Top) }
{
    let mut partitions = Vec::with_capacity(alloc, count)?;
    for _place in 0..count {
        partitions.push(SameVmctxPartition::Top)?;
    }
    Ok(partitions)
}

/// Keeps apart all imports of a module that is exported: the host may instantiate it with anything.
fn part(alloc: Global, export: &Export, partitions: &mut Vec<SameVmctxPartition>)
    ensures { partitions.new.items ≡ parted export.now partitions.old.items }
{
    if let Export::ModuleStatic { ty: _, index } = export {
        let place = index.0 as usize;
        if place < partitions.len() {
            partitions[place] = SameVmctxPartition::bottom(alloc);
        }
    }
}

/// What is known of each module before any core instance is looked at.
fn start(
    alloc: Global,
    graph: &ComponentDfg,
    count: usize,
) -> Result<Vec<SameVmctxPartition>, NoMemory>
    ensures { IfOk result (λ partitions. AreStart graph.now count partitions.items) }
{
    let mut partitions = tops(alloc, count)?;
    for export in graph.export_items.as_slice() {
        part(alloc, export, &mut partitions);
    }
    Ok(partitions)
}

/// The partition of the function imports of each module: what all its core instances say together.
pub(crate) fn partitions(
    alloc: Global,
    graph: &ComponentDfg,
    modules: &PrimaryMap<StaticModuleIndex, ModuleTranslation>,
) -> Result<Vec<SameVmctxPartition>, NoMemory>
    requires ordered { IsOrdered graph.now }
    requires defined { AreDefined graph.now (records_of modules.now) }
    requires few { HaveFewImports (records_of modules.now) }
    ensures { IfOk result (λ partitions. ArePartitionsTo graph.now (records_of modules.now)
        (length (graph_cores graph.now (records_of modules.now))) partitions.items) }
{
    let indexes = indexes(alloc, modules)?;
    let known = all_made(alloc, graph, indexes.as_slice())?;
    let mut partitions = start(alloc, graph, modules.len())?;
    for made in known.as_slice() {
        refine(alloc, indexes.as_slice(), made, &mut partitions)?;
    }
    Ok(partitions)
}
