//! The modules of all adapters of a graph.

ghost use Rattle.std.specs.Prelude.{◌≡◌, ◌+◌, ◌*◌, ◌<◌, ◌≤◌, ◌⊎◌, ◌↔◌, [], ℕ, true, length, Err, OnOk};
ghost use Rattle.pc_numbers.specs.declared.runtime.ResourceIndex.{ResourceIndex};
ghost use Rattle.pc_types.specs.TypeTree.{Identity, TypeTree};
ghost use Rattle.pc_spec_plan.specs.CoreValue.{CoreValue};
ghost use Rattle.pc_trampoline.specs.declared.part.Mark.{Mark};
ghost use Rattle.pc_dfg.specs.declared.core_def.CoreDef.{CoreDef};
ghost use Rattle.pc_dfg.specs.Ordered.{IsOrdered};
ghost use Rattle.pc_dfg.specs.declared.ids.AdapterId.{AdapterId as Adapters};
ghost use Rattle.pc_dfg.specs.Told.{IsTold, Unsaid};
ghost use Rattle.pc_dfg_linearize.specs.Grouped.{IsGrouped};
ghost use Rattle.pc_dfg_linearize.specs.Wired.{IsWired, Occurs};
ghost use Rattle.pc_spec_adapt.specs.Asked.{FunctionFacts};
ghost use Rattle.pc_adapt_define.specs.Define.{is_taken};
ghost use Rattle.pc_adapt.specs.Asked.{AreTyped, HoldTypes, LacksFirst};
ghost use Rattle.pc_adapt_partition.specs.Adapted.{AreAdapted};
ghost use Rattle.pc_adapt_partition.specs.Facts.{AreFacts, AreKnown, HaveTrees};
ghost use Rattle.pc_adapt_partition.specs.Made.{AddsAtMost, AddsFew, AddsShort, AreModulesApart, IsPast};
ghost use Rattle.pc_adapt_partition.specs.Made.{Keeps};
ghost use Rattle.pc_adapt_partition.specs.Partitions.{HasFullSlots, HasTooMany, Partitions, facts_by};
ghost use Rattle.pc_adapt_partition.specs.Wired.{AreHandedIn, HaveValues, LiftFunctions};

use crate::make::make_modules;
use pc_adapt::{AdaptError, first_lacking};
use pc_adapt_groups::adapter_groups;
use pc_dfg::{ComponentDfg, PushError};
use pc_entity::{PrimaryMap, StaticModuleIndex};
use pc_info::ModuleTranslation;
use pc_types_builder::ComponentTypesBuilder;
use std::alloc::Global;

/// The most entries of a list that is added to.
const MAX_ENTRIES: usize = 4294967294;

/// Whether a list of slots or trampolines has more entries than it may have.
fn has_full_slots(graph: &ComponentDfg) -> bool
    ensures { (result ≡ true) ↔ HasFullSlots graph.now }
{
    graph.memories.len() > MAX_ENTRIES
        || graph.callbacks.len() > MAX_ENTRIES
        || graph.post_returns.len() > MAX_ENTRIES
        || graph.trampolines.len() > MAX_ENTRIES
}

/// Whether a list that was added to has more entries than it may have.
fn is_past(graph: &ComponentDfg, modules: &PrimaryMap<StaticModuleIndex, ModuleTranslation>) -> bool
    ensures { (result ≡ true) ↔ IsPast graph.now modules.now }
{
    has_full_slots(graph)
        || graph.adapter_modules.len() > MAX_ENTRIES
        || graph.adapter_partitionings.len() > MAX_ENTRIES
        || modules.len() > MAX_ENTRIES
}

/// The adapters of a graph have numbers.
fn adapters_are_numbered(graph: &ComponentDfg)
    ensures { length graph.now.adapters ≤ 4294967295 }
{
    let _many = graph.adapters.len();
}

/// Makes the modules of all adapters, none of which lacks an option.
fn make(
    alloc: Global,
    graph: &mut ComponentDfg,
    types: &ComponentTypesBuilder,
    modules: &mut PrimaryMap<StaticModuleIndex, ModuleTranslation>,
) -> Result<(), PushError>
    requires ordered { IsOrdered graph.old }
    requires known { AreKnown types.now graph.old.adapters }
    ensures partitions { OnOk result ((lift lower : ℕ → FunctionFacts)
        → AreFacts types.now graph.old.adapters lift lower
        → Partitions lift lower graph.old graph.new modules.old modules.new) }
    ensures most { AddsAtMost (length graph.old.adapters) (length graph.old.adapters) graph.old graph.new modules.old
        modules.new }
    ensures room { OnOk result (¬ (IsPast graph.new modules.new)) }
    ensures full { result ≡ Err PushError.TooMany → (lift lower : ℕ → FunctionFacts)
        → AreFacts types.now graph.old.adapters lift lower
        → HasTooMany lift lower graph.old graph.new modules.new }
{
    adapters_are_numbered(graph);
    let groups = adapter_groups(alloc, graph)?;
    make_modules(alloc, graph, types, modules, &groups)?;
    if is_past(graph, modules) {
        return Err(PushError::TooMany);
    }
    Ok(())
}

/// Groups all adapters of a graph, in the order of their numbers, and appends a module for each group to modules and
/// graph. A refused call may leave some of these modules behind: both lists are of no use then.
pub fn partition_adapter_modules(
    alloc: Global,
    dfg: &mut ComponentDfg,
    types: &ComponentTypesBuilder,
    modules: &mut PrimaryMap<StaticModuleIndex, ModuleTranslation>,
) -> Result<(), AdaptError>
    requires ordered { IsOrdered dfg.old }
    requires no_modules { dfg.old.adapter_modules ≡ [] }
    requires ungrouped { dfg.old.adapter_partitionings ≡ [] }
    requires held { HoldTypes types.now dfg.old }
    requires typed { HaveTrees types.now dfg.old }
    ensures bad { (who : ResourceIndex → Identity) (lift lower : ℕ → TypeTree)
        → AreTyped types.now who dfg.old lift lower
        → (a : Adapters) → (result ≡ Err (AdaptError.BadOptions a)) ↔ LacksFirst dfg.old lift lower a.0 }
    ensures partitions { OnOk result ((who : ResourceIndex → Identity) (lift lower : ℕ → TypeTree)
        → AreTyped types.now who dfg.old lift lower
        → Partitions (facts_by lift) (facts_by lower) dfg.old dfg.new modules.old modules.new) }
    ensures adapted { OnOk result ((who : ResourceIndex → Identity) (lift lower : ℕ → TypeTree)
        (values : ℕ → CoreValue Mark)
        → AreTyped types.now who dfg.old lift lower → HaveValues dfg.old values
        → AreAdapted (facts_by lift) (facts_by lower) values dfg.old dfg.new modules.old modules.new) }
    ensures keeps { OnOk result (Keeps (length dfg.old.adapters) dfg.old dfg.new) }
    ensures ordered { OnOk result (IsOrdered dfg.new) }
    ensures grouped { OnOk result (IsGrouped dfg.new) }
    ensures told { OnOk result ((u : Unsaid) → IsTold u dfg.old → IsTold u dfg.new) }
    ensures distinct { OnOk result (AreModulesApart dfg.new) }
    ensures wired { OnOk result ((who : ResourceIndex → Identity) (lift lower : ℕ → TypeTree)
        (values : ℕ → CoreValue Mark) → AreTyped types.now who dfg.old lift lower → AreHandedIn modules.old
        → HaveValues dfg.old values → LiftFunctions dfg.old → IsWired dfg.old modules.old
        → IsWired dfg.new modules.new) }
    ensures occurs { OnOk result ((d : CoreDef) → is_taken d ≡ true → Occurs dfg.new d → Occurs dfg.old d) }
    ensures few { OnOk result (AddsFew (length dfg.old.adapters) modules.old modules.new dfg.new) }
    ensures short { OnOk result (AddsShort modules.old modules.new) }
    ensures room { OnOk result (¬ (IsPast dfg.new modules.new)) }
    // However it ends, that is the most that was added.
    ensures most { AddsAtMost (length dfg.old.adapters) (length dfg.old.adapters) dfg.old dfg.new modules.old
        modules.new }
    ensures full { result ≡ Err AdaptError.TooMany → (who : ResourceIndex → Identity) (lift lower : ℕ → TypeTree)
        → AreTyped types.now who dfg.old lift lower
        → HasTooMany (facts_by lift) (facts_by lower) dfg.old dfg.new modules.new }
{
    if let Some(id) = first_lacking(dfg, types) {
        return Err(AdaptError::BadOptions(id));
    }
    make(alloc, dfg, types, modules)?;
    Ok(())
}
