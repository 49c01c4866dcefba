//! The plan, put together when all is made.

ghost use Rattle.std.specs.Prelude.{◌≡◌, ◌<◌, ◌+◌, length, Err, IfOk};
ghost use Rattle.pc_dfg_linearize.specs.declared.error.FinishError.TheVariants as refusal;
ghost use Rattle.pc_dfg_finish.specs.Whole.{component_of, translation_of};

use crate::exports::Exported;
use pc_dfg::ComponentDfg;
use pc_dfg_linearize::{Finish, FinishError};
use pc_entity::{PrimaryMap, Seq};
use pc_info::{Component, ComponentTranslation};
use std::alloc::Global;
use std::mem;

/// The number of the imported and the declared resources together.
fn resource_count(imported: usize, declared: usize) -> Result<u32, FinishError>
    ensures sum { IfOk result (λ n. n ≡ imported + declared) }
    ensures full { result ≡ Err refusal.TooMany → 4294967295 < imported + declared }
{
    let limit = u32::MAX as usize;
    if imported <= limit && declared <= limit - imported {
        Ok((imported + declared) as u32)
    } else {
        Err(FinishError::TooMany)
    }
}

/// The component of a plan that was made, which takes the lists of the plan and of the graph.
fn component_of(
    alloc: Global,
    finish: &mut Finish,
    graph: &mut ComponentDfg,
    exported: Exported,
    num_resources: u32,
) -> Component
    requires sum { num_resources ≡ length graph.old.imported_resources + length finish.old.resources }
    ensures component { result ≡ component_of graph.old finish.old exported.names exported.items }
    ensures kept { finish.new.trampolines ≡ finish.old.trampolines }
{
    Component {
        import_types: mem::replace(&mut graph.import_types, PrimaryMap::new(alloc)),
        imports: mem::replace(&mut graph.imports, PrimaryMap::new(alloc)),
        exports: exported.names,
        export_items: exported.items,
        initializers: mem::replace(&mut finish.steps, Seq::new(alloc)),
        num_runtime_instances: finish.counts.instances,
        num_runtime_component_instances: graph.num_runtime_component_instances,
        num_lowerings: finish.counts.lowerings,
        num_runtime_memories: finish.counts.memories,
        num_runtime_tables: finish.counts.tables,
        num_runtime_reallocs: finish.counts.reallocs,
        num_runtime_callbacks: finish.counts.callbacks,
        num_runtime_post_returns: finish.counts.post_returns,
        num_resources,
        num_future_tables: graph.num_future_tables,
        num_stream_tables: graph.num_stream_tables,
        num_error_context_tables: graph.num_error_context_tables,
        trampolines: mem::replace(&mut finish.signatures, PrimaryMap::new(alloc)),
        unsafe_intrinsics: finish.intrinsics,
        imported_resources: mem::replace(&mut graph.imported_resources, PrimaryMap::new(alloc)),
        defined_resource_instances: mem::replace(&mut finish.resources, PrimaryMap::new(alloc)),
        options: mem::replace(&mut finish.options, PrimaryMap::new(alloc)),
    }
}

/// The plan that was made, put together with what the graph has of the host.
#[tactic(auto, unfolding(crate::specs::Whole::translation_of))]
pub(crate) fn into_translation(
    finish: Finish,
    alloc: Global,
    graph: ComponentDfg,
    exported: Exported,
) -> Result<ComponentTranslation, FinishError>
    ensures plan { IfOk result (λ t. t ≡ translation_of graph finish exported.names exported.items) }
    ensures full { result ≡ Err refusal.TooMany
        → 4294967295 < length graph.imported_resources + length finish.resources }
{
    let num_resources = resource_count(graph.imported_resources.len(), finish.resources.len())?;
    let mut finish = finish;
    let mut graph = graph;
    let component = component_of(alloc, &mut finish, &mut graph, exported, num_resources);
    Ok(ComponentTranslation {
        component,
        trampolines: mem::replace(&mut finish.trampolines, PrimaryMap::new(alloc)),
    })
}
