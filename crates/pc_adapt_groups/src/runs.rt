//! The fewest runs of adapters of which none needs one of the same run.

ghost use Rattle.std.specs.Prelude.{IfOk, length};
ghost use Rattle.pc_dfg.specs.Ordered.{IsOrdered};
ghost use Rattle.pc_spec_adapt.specs.Split.{IsFewest};
ghost use Rattle.pc_adapt_groups.specs.Lengths.{AreLower, Reaches, runs_from};
ghost use Rattle.pc_adapt_groups.specs.Needs.{Needs};

use crate::needed::needed;
use pc_dfg::ComponentDfg;
use pc_entity::NoMemory;
use std::alloc::Global;

/// The lengths of the fewest runs. `needed` has for each number one more than the greatest that it needs, or 0.
fn fewest_runs(alloc: Global, needed: &[u64]) -> Result<Vec<usize>, NoMemory>
    requires lower { AreLower needed.now }
    ensures { IfOk result (λ lengths.
        IsFewest (Reaches needed.now) (length needed.now) (runs_from 0 lengths.items)) }
{
    let mut lengths: Vec<usize> = Vec::new(alloc);
    let mut start = 0;
    for a in 0..needed.len() {
        if needed[a] as usize > start {
            lengths.push(a - start)?;
            start = a;
        }
    }
    if start < needed.len() {
        lengths.push(needed.len() - start)?;
    }
    Ok(lengths)
}

/// The lengths of the fewest runs of adapters, in the order of their numbers, of which none needs one of the same run.
pub fn adapter_groups(alloc: Global, graph: &ComponentDfg) -> Result<Vec<usize>, NoMemory>
    requires ordered { IsOrdered graph.now }
    ensures fewest { IfOk result (λ lengths.
        IsFewest (Needs graph.now) (length graph.now.adapters) (runs_from 0 lengths.items)) }
{
    let needed = needed(alloc, graph)?;
    let lengths = fewest_runs(alloc, &needed)?;
    Ok(lengths)
}
