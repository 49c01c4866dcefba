//! The modules of whole graphs.

ghost use Rattle.std.specs.Prelude.{◌≡◌};
ghost use Rattle.pc_dfg.specs.Ordered.{IsOrdered};
ghost use Rattle.pc_test_adapt_graph.specs.Two.{HaveTwo};

use crate::graphs::{Shape, fill};
use crate::plans::two_types;
use crate::support::holds;
use crate::typed::{are_of_two, has_two};
use pc_adapt::AdaptError;
use pc_adapt_partition::partition_adapter_modules;
use pc_dfg::laws::empty_is_ordered;
use pc_dfg::{AdapterId, AdapterModuleId, ComponentDfg};
use pc_entity::{EntityIndex, FuncIndex, PrimaryMap, Seed, StaticModuleIndex};
use pc_info::ModuleTranslation;
use pc_types_builder::ComponentTypesBuilder;
use std::alloc::Global;
use std::test::*;

/// Groups the adapters of a graph that has no modules of adapters and no other types than two.
fn partition(
    alloc: Global,
    graph: &mut ComponentDfg,
    types: &ComponentTypesBuilder,
    modules: &mut PrimaryMap<StaticModuleIndex, ModuleTranslation>,
) -> Result<(), AdaptError>
    requires ordered { IsOrdered graph.old }
    requires two { HaveTwo types.now }
{
    let is_new = graph.adapter_modules.is_empty() && graph.adapter_partitionings.is_empty();
    if !is_new {
        return Err(AdaptError::TooMany);
    }
    if !are_of_two(graph) {
        return Err(AdaptError::TooMany);
    }
    partition_adapter_modules(alloc, graph, types, modules)
}

/// What a partition made: how many modules, how many imports and arguments of the first, and where the last adapter is.
type Made = ([usize; 3], Option<(AdapterModuleId, EntityIndex)>);

/// What is made of a graph.
fn made_of(
    graph: &ComponentDfg,
    modules: &PrimaryMap<StaticModuleIndex, ModuleTranslation>,
) -> Made {
    let imports = match modules.get(StaticModuleIndex(0)) {
        Some(first) => first.module.get().imports.len(),
        None => 0,
    };
    let args = match graph.adapter_modules.get(AdapterModuleId(0)) {
        Some(first) => first.1.len(),
        None => 0,
    };
    let place = graph.adapter_partitionings.as_slice().last().copied();
    ([modules.len(), imports, args], place)
}

/// What is made of the graph of a shape.
fn parts_of(alloc: Global, shape: Shape) -> Result<Made, AdaptError> {
    empty_is_ordered();
    let mut types = ComponentTypesBuilder::new(alloc, Seed::fixed());
    let table = two_types(alloc)?;
    if !has_two(alloc, &mut types, &table) {
        return Err(AdaptError::TooMany);
    }
    let mut graph = ComponentDfg::new(alloc, Seed::fixed());
    fill(alloc, &mut graph, shape)?;
    let mut modules = PrimaryMap::new(alloc);
    partition(alloc, &mut graph, &types, &mut modules)?;
    Ok(made_of(&graph, &modules))
}

/// A function of a module.
fn function(adapter_module: u32, func: u32) -> Option<(AdapterModuleId, EntityIndex)> {
    Some((
        AdapterModuleId(adapter_module),
        EntityIndex::Function(FuncIndex(func)),
    ))
}

/// The adapter of strings has eleven imports, the async one eight, of which five are functions.
#[test]
fn two_adapters_get_modules(rt: HostRuntime) {
    let parts = parts_of(rt.alloc(), Shape::Pair);
    holds(&rt, "parts", parts == Ok(([2, 11, 11], function(1, 5))));
}

#[test]
fn an_adapter_that_lacks_an_option_is_told(rt: HostRuntime) {
    let parts = parts_of(rt.alloc(), Shape::Small);
    holds(
        &rt,
        "refusal",
        parts == Err(AdaptError::BadOptions(AdapterId(2))),
    );
}

/// Each adapter has six imports, of which four are functions.
#[test]
fn a_chain_gets_many_modules(rt: HostRuntime) {
    let parts = parts_of(rt.alloc(), Shape::Chain);
    holds(
        &rt,
        "parts",
        parts == Ok(([100_000, 6, 6], function(99_999, 4))),
    );
}

#[test]
fn adapters_share_a_module(rt: HostRuntime) {
    let parts = parts_of(rt.alloc(), Shape::Wide);
    holds(
        &rt,
        "parts",
        parts == Ok(([1, 600_000, 600_000], function(0, 499_999))),
    );
}
