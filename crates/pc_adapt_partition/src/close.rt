//! A module of adapters, once all of them are gathered.

ghost use Rattle.std.specs.Prelude.{◌≡◌, ◌++◌, ◌∷◌, ◌+◌, ◌≤◌, ◌↔◌, [], All, Err, IfOk, OnErr, OnOk, count_by, length};
ghost use Rattle.pc_types.specs.declared.parsed.CoreKind.TheVariants as kind;
ghost use Rattle.pc_types.specs.Record.{imports_kind};
ghost use Rattle.pc_dfg.specs.Grows.{Grows};
ghost use Rattle.pc_dfg.specs.Ordered.{IsOrdered};
ghost use Rattle.pc_adapt_partition.specs.Gathered.{Closes, ClosesFew};
ghost use Rattle.pc_adapt_partition.specs.Made.{IsPast};
ghost use Rattle.pc_adapt_partition.specs.Parts.{functions_from, with_functions};

use crate::group::Group;
use pc_adapt_modules::ModuleNames;
use pc_adapt_modules::module::{record_of, without_room};
use pc_dfg::{AdapterModuleId, ComponentDfg, PushError};
use pc_entity::{EntityIndex, EntityRef, FuncIndex, NoMemory, PrimaryMap, Seq, StaticModuleIndex};
use pc_info::{AdapterRecord, ModuleTranslation};
use std::alloc::Global;

/// The most entries of one list.
const MAX_ENTRIES: usize = 4294967295;

/// What is said of adapters that are functions of a module from this one on.
fn with_their_functions(
    alloc: Global,
    records: Seq<AdapterRecord>,
    function: u32,
) -> Result<Seq<AdapterRecord>, NoMemory>
    requires numbers { function + length records ≤ 4294967295 }
    ensures { IfOk result (λ rs. rs ≡ with_functions function records) }
{
    let mut numbered: Seq<AdapterRecord> = Seq::with_capacity(alloc, records.len())?;
    for place in 0..records.len() {
        let func = FuncIndex::from_u32(function + place as u32);
        let record_ = records.as_slice()[place];
        numbered.push(AdapterRecord { func, ..record_ })?;
    }
    Ok(numbered)
}

/// Adds a module.
fn push_module(
    modules: &mut PrimaryMap<StaticModuleIndex, ModuleTranslation>,
    core_module: ModuleTranslation,
) -> Result<StaticModuleIndex, PushError>
    ensures key { IfOk result (λ key. key.0 ≡ length modules.old) }
    ensures ok { OnOk result (modules.new ≡ modules.old ++ core_module ∷ []) }
    ensures full { (result ≡ Err PushError.TooMany) ↔ (4294967295 ≤ length modules.old) }
    ensures err { OnErr result (modules.new ≡ modules.old) }
{
    if modules.len() < MAX_ENTRIES {
        Ok(modules.push(core_module)?)
    } else {
        Err(PushError::TooMany)
    }
}

/// Says of as many adapters that they are functions of a module, from this one on.
fn place_adapters(
    graph: &mut ComponentDfg,
    adapter_module: AdapterModuleId,
    function: u32,
    many: u32,
) -> Result<(), PushError>
    requires numbers { function + many ≤ 4294967295 }
    requires there { adapter_module.0 + 1 ≤ length graph.old.adapter_modules }
    ensures placed { OnOk result (graph.new ≡ record graph.old {
      adapter_partitionings = graph.old.adapter_partitionings ++ functions_from adapter_module.0 function many;
    }) }
    ensures grows { OnOk result (Grows graph.old graph.new) }
    ensures ordered { OnOk result (IsOrdered graph.old → IsOrdered graph.new) }
    ensures rest { graph.new ≡ record graph.old { adapter_partitionings = graph.new.adapter_partitionings } }
    ensures few { length graph.new.adapter_partitionings ≤ length graph.old.adapter_partitionings + many }
    ensures full { result ≡ Err PushError.TooMany → 4294967295 ≤ length graph.new.adapter_partitionings }
{
    for place in 0..many {
        let func = FuncIndex::from_u32(function + place);
        graph.push_partitioning(adapter_module, EntityIndex::Function(func))?;
    }
    Ok(())
}

/// Adds the module of what was gathered, of as many adapters from this number on.
pub(crate) fn close(
    alloc: Global,
    graph: &mut ComponentDfg,
    modules: &mut PrimaryMap<StaticModuleIndex, ModuleTranslation>,
    names: &mut ModuleNames,
    group: Group,
    first: u32,
    many: u32,
) -> Result<(), PushError>
    requires numbers { first + many ≤ 4294967295 }
    requires functions { count_by (imports_kind kind.Func) group.parts.imports + many ≤ 4294967295 }
    requires all { length group.records ≡ many }
    ensures closes { OnOk result (Closes graph.old graph.new modules.old modules.new first many group) }
    ensures few { ClosesFew many graph.old graph.new modules.old modules.new }
    ensures full { result ≡ Err PushError.TooMany → IsPast graph.new modules.new }
{
    let Group {
        parts,
        records,
        args,
    } = group;
    let record_ = record_of(alloc, names, parts, first, many)?;
    let function = record_.get().num_imported_funcs() as u32;
    let adapters = with_their_functions(alloc, records, function)?;
    let core_module = push_module(modules, ModuleTranslation::new(alloc, record_, adapters))?;
    let adapter_module = graph.push_adapter_module(core_module, without_room(args))?;
    place_adapters(graph, adapter_module, function, many)
}
