//! How a component instance begins.

ghost use Rattle.std.specs.Prelude.{◌<◌};
ghost use Rattle.pc_dfg.specs.Grows.{Grows};
ghost use Rattle.pc_inline_stack.specs.Begins.{Begins};

use pc_dfg::ComponentDfg;
use pc_entity::RuntimeComponentInstanceIndex;
use pc_types::Error;

/// The number that a total may not reach.
const FULL: u64 = pc_weights::FULL as u64;

/// A component instance begins, whose body has this weight, cut where a total is full. It counts one and its weight in
/// the total.
///
/// It is refused with `TooManyInstances` where as many as the limit have begun, and else with `TooMany` where the total
/// would be full. Nothing else counts component instances.
pub fn begin_instance(
    graph: &mut ComponentDfg,
    limit: u32,
    total: &mut u32,
    weight: u32,
) -> Result<RuntimeComponentInstanceIndex, Error>
    requires below { total.old < 4294967295 }
    ensures begins { Begins limit weight graph.old graph.new total.old total.new result }
    ensures grows { Grows graph.old graph.new }
{
    if graph.num_runtime_component_instances >= limit {
        return Err(Error::TooManyInstances);
    }
    let grown = u64::from(*total) + 1 + u64::from(weight);
    if grown >= FULL {
        return Err(Error::TooMany);
    }
    // Fewer than the limit have begun, so that there is a number left.
    let instance = RuntimeComponentInstanceIndex(graph.num_runtime_component_instances);
    graph.num_runtime_component_instances += 1;
    *total = grown as u32;
    Ok(instance)
}
