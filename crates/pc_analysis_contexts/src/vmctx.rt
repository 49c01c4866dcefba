//! The representatives of function imports that always take one context.

ghost use Rattle.std.specs.Prelude.{◌≡◌, ◌<◌, ◌≤◌, length, IfOk, OnOk, OnErr};
ghost use Rattle.pc_types.specs.declared.parsed.CoreKind.TheVariants as kind;
ghost use Rattle.pc_types.specs.Record.{imported};
ghost use Rattle.pc_spec_facts.specs.Recorded.{representative_in};
ghost use Rattle.pc_spec_wiring.specs.Sharing.{AreRecorded};
ghost use Rattle.pc_partition.specs.Partition.{representative};
ghost use Rattle.pc_dfg.specs.Ordered.{IsOrdered};
ghost use Rattle.pc_analysis_contexts.specs.Cores.{graph_cores};
ghost use Rattle.pc_analysis_contexts.specs.Recorded.{AreAllRecorded, AreDefined, AreKept, HaveFewImports, IsKept};
ghost use Rattle.pc_analysis_contexts.specs.Recorded.{MayBeRecorded, records_of};
ghost use Rattle.pc_analysis_contexts.specs.Shared.{ArePartitionsTo, RecordsAt, recorded_in};

use crate::partitions::partitions;
use pc_dfg::ComponentDfg;
use pc_entity::{FuncIndex, NoMemory, PackedOption, PrimaryMap, SecondaryMap, StaticModuleIndex};
use pc_info::ModuleTranslation;
use pc_partition::SameVmctxPartition;
use std::alloc::Global;

/// The representative of each of so many function imports that isn't its own.
fn representatives(
    alloc: Global,
    partition: &SameVmctxPartition,
    count: usize,
) -> Result<SecondaryMap<FuncIndex, PackedOption<FuncIndex>>, NoMemory>
    requires few { count < 4294967295 }
    ensures { IfOk result (λ facts. AreRecorded count (representative partition.now) (recorded_in facts)) }
{
    let mut facts = SecondaryMap::new(alloc, PackedOption::None);
    for place in 0..count {
        let import = FuncIndex(place as u32);
        let representative = partition.representative(import);
        if representative.0 != import.0 {
            facts.set(import, PackedOption::Some(representative))?;
        }
    }
    Ok(facts)
}

/// Records the representatives of the function imports of a module.
fn write_facts(
    alloc: Global,
    partition: &SameVmctxPartition,
    translation: &mut ModuleTranslation,
) -> Result<(), NoMemory>
    requires few { imported translation.old.«module» kind.Func < 4294967295 }
    ensures recorded { OnOk result (AreRecorded (imported translation.old.«module» kind.Func)
        (representative partition.now) (representative_in translation.new)) }
    ensures kept { OnOk result (IsKept translation.old translation.new) }
    ensures err { OnErr result (translation.new ≡ translation.old) }
{
    let count = translation.module.get().num_imported_funcs();
    let facts = representatives(alloc, partition, count)?;
    translation.imported_func_vmctx_representative = facts;
    Ok(())
}

/// The same of the module of a number.
fn write_facts_at(
    alloc: Global,
    partition: &SameVmctxPartition,
    modules: &mut PrimaryMap<StaticModuleIndex, ModuleTranslation>,
    number: StaticModuleIndex,
) -> Result<(), NoMemory>
    requires held { number.0 < length modules.old }
    requires few { HaveFewImports (records_of modules.old) }
    ensures ok { OnOk result (RecordsAt (representative partition.now) number.0 modules.old modules.new) }
    ensures err { OnErr result (modules.new ≡ modules.old) }
{
    match modules.get_mut(number) {
        Some(translation) => write_facts(alloc, partition, translation),
        None => Ok(()),
    }
}

/// Records for each function import of each module the first import that always takes the same context, where that is
/// another one. What was recorded before is replaced.
pub fn analyze_same_vmctx_imports(
    alloc: Global,
    dfg: &ComponentDfg,
    modules: &mut PrimaryMap<StaticModuleIndex, ModuleTranslation>,
) -> Result<(), NoMemory>
    requires ordered { IsOrdered dfg.now }
    requires defined { AreDefined dfg.now (records_of modules.old) }
    requires numbered { length modules.old ≤ 4294967295 }
    requires few { HaveFewImports (records_of modules.old) }
    ensures recorded { OnOk result (AreAllRecorded dfg.now modules.old modules.new) }
    ensures kept { AreKept modules.old modules.new }
    ensures refused { OnErr result (MayBeRecorded dfg.now modules.old modules.new) }
{
    let partitions = partitions(alloc, dfg, modules)?;
    for place in 0..modules.len() {
        let number = StaticModuleIndex(place as u32);
        write_facts_at(alloc, &partitions[place], modules, number)?;
    }
    Ok(())
}
