//! The greatest adapter that each adapter needs.

ghost use Rattle.std.specs.Prelude.{◌≡◌, ◌≤◌, ◌++◌, ℕ, length, slice_get, Some, IfOk, OnOk};
ghost use Rattle.pc_dfg.specs.Ordered.{IsOrdered};
ghost use Rattle.pc_adapt_groups.specs.Needed.{IsNeeded, noted};
ghost use Rattle.pc_adapt_groups.specs.Needs.{Needs};
ghost use Rattle.pc_adapt_groups.specs.Reaches.{AreReaches, AreUses, IsTop};

use crate::effects::{of_adapter, of_effect};
use crate::reach::Reach;
use crate::trampolines::reaches;
use pc_dfg::{ComponentDfg, SideEffect};
use pc_entity::NoMemory;
use std::alloc::Global;

/// Notes, where a core instance is made, the greatest adapter that is used up to there.
fn note(uses: &mut Vec<u64>, effect: SideEffect, used: u64) -> Result<(), NoMemory>
    ensures { OnOk result (uses.new.items ≡ uses.old.items ++ noted effect used) }
{
    match effect {
        SideEffect::Instance(_, _) => {
            uses.push(used)?;
            Ok(())
        }
        SideEffect::Resource(_) => Ok(()),
    }
}

/// For each core instance, one more than the greatest adapter that a side effect names up to its making, or 0.
fn uses(alloc: Global, graph: &ComponentDfg, reaches: &[Reach]) -> Result<Vec<u64>, NoMemory>
    requires ordered { IsOrdered graph.now }
    requires known { AreReaches graph.now reaches.now }
    requires all { length reaches.now ≡ length graph.now.trampolines }
    ensures known { IfOk result (λ us. AreUses graph.now us.items) }
    ensures all { IfOk result (λ us. length us.items ≡ length graph.now.instances) }
{
    let mut uses: Vec<u64> = Vec::new(alloc);
    let mut used: u64 = 0;
    for effect in graph.side_effects.as_slice() {
        used = used.max(of_effect(graph, reaches, *effect).adapters);
        note(&mut uses, *effect, used)?;
    }
    Ok(uses)
}

/// One more than the greatest adapter that is needed where this is named.
fn needed_for(reach: Reach, uses: &[u64]) -> u64
    requires there { reach.instances ≤ length uses.now }
    ensures { IsNeeded reach uses.now result }
{
    if reach.instances == 0 {
        return reach.adapters;
    }
    reach.adapters.max(uses[(reach.instances - 1) as usize])
}

/// For each adapter, one more than the greatest that it needs, or 0.
pub(crate) fn needed(alloc: Global, graph: &ComponentDfg) -> Result<Vec<u64>, NoMemory>
    requires ordered { IsOrdered graph.now }
    ensures tops { IfOk result (λ ns. (a m : ℕ) → slice_get ns.items a ≡ Some m → IsTop (Needs graph.now a) m) }
    ensures all { IfOk result (λ ns. length ns.items ≡ length graph.now.adapters) }
{
    let reaches = reaches(alloc, graph)?;
    let uses = uses(alloc, graph, &reaches)?;
    let mut needed: Vec<u64> = Vec::new(alloc);
    for adapter in graph.adapters.as_slice() {
        let reach = of_adapter(&reaches, adapter);
        needed.push(needed_for(reach, &uses))?;
    }
    Ok(needed)
}
