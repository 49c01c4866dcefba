//! A resource that a component instance declares.

ghost use Rattle.std.specs.Prelude.{◌≡◌, ◌<◌, ◌≤◌, ◌+◌, Some, true, false, length, slice_get, IfErr, IfOk, OnOk};
ghost use Rattle.pc_types.specs.Table.{is_resource};
ghost use Rattle.pc_spec_plan.specs.Machine.{chosen};
ghost use Rattle.pc_spec_reading.specs.Item.{resource_item};
ghost use Rattle.pc_spec_reading.specs.Scope.{Moment};
ghost use Rattle.pc_spec_reading.specs.Types.{has_entry};
ghost use Rattle.pc_dfg.specs.Held.{HeldResource};
ghost use Rattle.pc_dfg.specs.Ordered.{IsOrdered};
ghost use Rattle.pc_dfg.specs.Pushed.{with_resource};
ghost use Rattle.pc_inline_state.specs.Adds.{Adds};
ghost use Rattle.pc_inline_state.specs.AddsEach.{AddsEach, everywhere};
ghost use Rattle.pc_inline_state.specs.Points.{IsInput, IsPoint, PointStands, StepsItem};
ghost use Rattle.pc_inline_state.specs.Refused.{LacksRoom};
ghost use Rattle.pc_inline_state.specs.Tables.{Keeps, tables_of};
ghost use Rattle.pc_inline_state.specs.Trails.{Trails};
ghost use Rattle.pc_inline_resources.specs.Walked.{FindsDestructor};

use crate::known::register;
use pc_dfg::{ComponentDfg, CoreDef, Resource};
use pc_entity::{NoMemory, ResourceIndex, TryClone};
use pc_inline_state::{Context, CoreId, Frame, ItemError, ItemFault, State, at};
use pc_types::{TypeTable, WasmValType};

/// How many resources there may be, imported and declared together.
const MAX_RESOURCES: usize = 4294967295;

/// Whether a number is of a resource type.
fn is_resource_type(table: &TypeTable, id: u32) -> bool
    ensures { result ≡ has_entry table.now is_resource id }
{
    match table.entry(id) {
        Some(entry) => entry.is_resource(),
        None => false,
    }
}

/// The definition of a core item, once more.
fn definition(context: &Context<'_>, state: &State<'_>, id: CoreId) -> Result<CoreDef, NoMemory>
    requires there { id.0 < length state.now.cores }
    ensures { IfOk result (λ def. slice_get state.now.cores id.0 ≡ Some def) }
{
    state.cores[id].try_clone(context.alloc)
}

/// A destructor that may be left out: a core function of the component instance, by index.
fn destructor(
    context: &Context<'_>,
    state: &State<'_>,
    frame: &Frame,
    dtor: Option<u32>,
) -> Result<Option<CoreDef>, ItemError>
    requires here { IsPoint context.now.table.now context.now.modules state.now frame.now }
    ensures { (now : Moment) → PointStands context.now.table.now context.now.modules state.now frame.now now
        → FindsDestructor context.now.modules state.now.types state.now.graph
        (chosen now.scope.core_funcs dtor) result }
{
    let Some(index) = dtor else {
        return Ok(None);
    };
    match at(frame.core_funcs.as_slice(), index) {
        Some(id) => Ok(Some(definition(context, state, id)?)),
        None => Err(ItemError::Fault(ItemFault::Invalid)),
    }
}

/// Whether there is no number for one resource more.
fn is_full(graph: &ComponentDfg) -> bool
    ensures full { result ≡ true
        → 4294967295 ≤ length graph.now.imported_resources + length graph.now.resources }
    ensures room { result ≡ false
        → length graph.now.imported_resources + length graph.now.resources < 4294967295 }
{
    let imported = graph.imported_resources.len();
    imported >= MAX_RESOURCES || graph.resources.len() >= MAX_RESOURCES - imported
}

/// A resource is declared, and has the next number.
fn declare(state: &mut State<'_>, resource: Resource) -> Result<ResourceIndex, ItemError>
    ensures key { IfOk result
        (λ r. r.0 ≡ length state.old.graph.imported_resources + length state.old.graph.resources) }
    ensures ok { OnOk result (state.new ≡ record state.old { graph = with_resource state.old.graph resource }) }
    ensures keeps { Keeps (tables_of state.old) (tables_of state.new) }
    ensures adds { AddsEach everywhere 0 0 (tables_of state.old) (tables_of state.new) }
    ensures ordered { OnOk result (HeldResource state.old.graph resource → IsOrdered state.old.graph
        → IsOrdered state.new.graph) }
    ensures lacks { IfErr result (LacksRoom state.new) }
{
    if is_full(&state.graph) {
        return Err(ItemError::TooMany);
    }
    let defined = state.graph.push_resource(resource)?;
    Ok(state.graph.resource_index(defined))
}

/// A resource of the component instance, which its number stands for from now on.
pub fn step_resource(
    context: &Context<'_>,
    state: &mut State<'_>,
    frame: &mut Frame,
    id: u32,
    rep: WasmValType,
    dtor: Option<u32>,
) -> Result<(), ItemError>
    requires input { IsInput context.now.table.now context.now.modules }
    requires here { IsPoint context.now.table.now context.now.modules state.old frame.old }
    ensures keeps { Keeps (tables_of state.old) (tables_of state.new) }
    ensures adds { Adds context.now.table.now 4 (tables_of state.old) (tables_of state.new) }
    ensures trail { Trails frame.old.changes state.old.types.resources frame.new.changes state.new.types.resources }
    ensures same { frame.new.component_instance ≡ frame.old.component_instance }
    ensures steps { StepsItem context.now.table.now context.now.modules (resource_item id rep dtor)
        state.old frame.old state.new frame.new result }
{
    if !is_resource_type(context.table, id) {
        return Err(ItemError::Fault(ItemFault::BadType));
    }
    let dtor = destructor(context, state, frame, dtor)?;
    let instance = frame.component_instance;
    let r = declare(
        state,
        Resource {
            rep,
            dtor,
            instance,
        },
    )?;
    register(context, state, frame, id, r)
}
