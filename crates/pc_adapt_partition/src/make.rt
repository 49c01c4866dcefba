//! The modules of groups of adapters.

ghost use Rattle.std.specs.Prelude.{◌≡◌, ◌+◌, ◌<◌, ◌≤◌, ◌⊎◌, ℕ, length, Err, OnOk};
ghost use Rattle.pc_dfg.specs.Ordered.{IsOrdered};
ghost use Rattle.pc_spec_adapt.specs.Asked.{FunctionFacts};
ghost use Rattle.pc_adapt.specs.Imports.{is_transparent};
ghost use Rattle.pc_adapt_partition.specs.Facts.{AreFacts, AreKnown};
ghost use Rattle.pc_adapt_partition.specs.Made.{AddsAtMost, AddsModule, HasLong, IsPast, Makes, cut, sum_of};
ghost use Rattle.pc_adapt_partition.specs.Parts.{parts_of, slice, total_imports};

use crate::close::close;
use crate::gather::gather;
use pc_adapt_modules::ModuleNames;
use pc_dfg::{ComponentDfg, PushError};
use pc_entity::{PrimaryMap, StaticModuleIndex};
use pc_info::ModuleTranslation;
use pc_types_builder::ComponentTypesBuilder;
use std::alloc::Global;

/// Adds the module of as many adapters from this number on.
fn make_module(
    alloc: Global,
    graph: &mut ComponentDfg,
    types: &ComponentTypesBuilder,
    modules: &mut PrimaryMap<StaticModuleIndex, ModuleTranslation>,
    names: &mut ModuleNames,
    first: u32,
    many: u32,
) -> Result<(), PushError>
    requires ordered { IsOrdered graph.old }
    requires known { AreKnown types.now graph.old.adapters }
    requires range { first + many ≤ length graph.old.adapters }
    requires numbers { first + many ≤ 4294967295 }
    ensures adds { OnOk result ((lift lower : ℕ → FunctionFacts) → AreFacts types.now graph.old.adapters lift lower
        → AddsModule lift lower (is_transparent graph.old) graph.old graph.new modules.old modules.new first
        (slice first many graph.old.adapters)) }
    ensures few { AddsAtMost many 1 graph.old graph.new modules.old modules.new }
    ensures full { result ≡ Err PushError.TooMany → IsPast graph.new modules.new
        ⊎ ((lift lower : ℕ → FunctionFacts) → AreFacts types.now graph.old.adapters lift lower
        → 4294967294 < total_imports
        (parts_of lift lower (is_transparent graph.old) first (slice first many graph.old.adapters))) }
{
    let group = gather(alloc, graph, types, names, first, many)?;
    close(alloc, graph, modules, names, group, first, many)
}

/// Adds the modules of groups of these lengths, which are all adapters in order.
pub(crate) fn make_modules(
    alloc: Global,
    graph: &mut ComponentDfg,
    types: &ComponentTypesBuilder,
    modules: &mut PrimaryMap<StaticModuleIndex, ModuleTranslation>,
    lengths: &[usize],
) -> Result<(), PushError>
    requires ordered { IsOrdered graph.old }
    requires known { AreKnown types.now graph.old.adapters }
    requires all { sum_of lengths.now ≡ length graph.old.adapters }
    requires numbers { length graph.old.adapters ≤ 4294967295 }
    ensures makes { OnOk result ((lift lower : ℕ → FunctionFacts) → AreFacts types.now graph.old.adapters lift lower
        → Makes lift lower (is_transparent graph.old) graph.old graph.new modules.old modules.new lengths.now) }
    ensures few { AddsAtMost (length graph.old.adapters) (length lengths.now) graph.old graph.new modules.old
        modules.new }
    ensures full { result ≡ Err PushError.TooMany → IsPast graph.new modules.new
        ⊎ ((lift lower : ℕ → FunctionFacts) → AreFacts types.now graph.old.adapters lift lower
        → HasLong lift lower (is_transparent graph.old) 0 (cut lengths.now 0 graph.old.adapters)) }
{
    let mut names = ModuleNames::new(alloc);
    let mut first: u32 = 0;
    for place in 0..lengths.len() {
        let many = lengths[place] as u32;
        make_module(alloc, graph, types, modules, &mut names, first, many)?;
        first += many;
    }
    Ok(())
}
