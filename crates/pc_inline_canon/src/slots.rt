//! Core items in the slots of the graph, and options entries over them.

ghost use Rattle.std.specs.Prelude.{◌≡◌, ◌<◌, true, length, Some, option_map, slice_get, IfErr, IfOk};
ghost use Rattle.pc_types.specs.declared.parsed.CoreKind.{CoreKind};
ghost use Rattle.pc_types.specs.declared.parsed.CoreKind.TheVariants as core;
ghost use Rattle.pc_spec_plan.specs.CoreValue as value;
ghost use Rattle.pc_spec_plan.specs.CoreValue.{MaybeValue};
ghost use Rattle.pc_spec_plan.specs.PlanView as plan;
ghost use Rattle.pc_parsed.specs.Mark.{Mark};
ghost use Rattle.pc_dfg.specs.Held.{HeldModel, HeldSlot};
ghost use Rattle.pc_dfg.specs.Numbers.{memory_def, model_entry};
ghost use Rattle.pc_inline_state.specs.AddsEach.{AddsEach, in_options, in_slots};
ghost use Rattle.pc_inline_state.specs.Placed.{InSlot};
ghost use Rattle.pc_inline_state.specs.Points.{IsSoundState};
ghost use Rattle.pc_inline_state.specs.Prepares.{Prepares};
ghost use Rattle.pc_inline_state.specs.Refused.{LacksRoom};
ghost use Rattle.pc_inline_state.specs.Slots.{EntryStands, IsThere, MaybeThere, ModelThere, OptionsThere};
ghost use Rattle.pc_inline_state.specs.Slots.{SlotModelStands, SlotStands, is_memory};
ghost use Rattle.pc_inline_state.specs.Stands.{MaybeStands, ModelStands, OptionsStand};
ghost use Rattle.pc_inline_state.specs.Tables.{tables_of};

use pc_dfg::{
    CallbackId, CanonicalOptions, CanonicalOptionsDataModel, CoreDef, CoreExport, ExportItem,
    MemoryId, OptionsId, PostReturnId, ReallocId,
};
use pc_entity::{EntityIndex, MemoryIndex, NoMemory, TryClone};
use pc_inline_state::{Context, CoreId, DataModel, ItemError, Options, State};
use std::alloc::Global;

/// A definition of a memory, as a memory.
pub(crate) fn memory_of(alloc: Global, def: &CoreDef) -> Result<CoreExport<MemoryIndex>, NoMemory>
    requires memory { is_memory def.now ≡ true }
    ensures { IfOk result (λ memory. memory_def memory ≡ def.now) }
{
    match def {
        CoreDef::Export(export) => match &export.item {
            ExportItem::Index(EntityIndex::Memory(memory)) => Ok(CoreExport {
                instance: export.instance,
                item: ExportItem::Index(*memory),
            }),
            ExportItem::Name(name) => Ok(CoreExport {
                instance: export.instance,
                item: ExportItem::Name(name.try_clone(alloc)?),
            }),
            _ => unreachable!(),
        },
        _ => unreachable!(),
    }
}

/// The definition of a core item of the table, once more.
pub(crate) fn definition(
    context: &Context<'_>,
    state: &State<'_>,
    id: CoreId,
) -> Result<CoreDef, NoMemory>
    requires there { (k : CoreKind) × IsThere context.now.modules (tables_of state.now) k id }
    ensures { IfOk result (λ def. slice_get state.now.cores id.0 ≡ Some def) }
{
    state.cores[id].try_clone(context.alloc)
}

/// The slot of a memory. It gets one the first time.
fn memory_slot(
    context: &Context<'_>,
    state: &mut State<'_>,
    id: CoreId,
) -> Result<MemoryId, ItemError>
    requires sound { IsSoundState context.now.table.now context.now.modules state.old }
    requires there { IsThere context.now.modules (tables_of state.old) core.Memory id }
    ensures prepares { Prepares context.now.table.now context.now.modules state.old state.new }
    ensures adds { AddsEach (in_slots 1) 0 0 (tables_of state.old) (tables_of state.new) }
    ensures slot { IfOk result (λ slot. InSlot (tables_of state.new) plan.memory id.0 slot.0) }
    ensures err { IfErr result (LacksRoom state.new) }
{
    if let Some(slot) = state.places.memories.get(id) {
        return Ok(slot);
    }
    let memory = memory_of(context.alloc, &state.cores[id])?;
    let slot = state.graph.push_memory(memory)?;
    state.places.memories.set(id, Some(slot))?;
    Ok(slot)
}

/// The slot of a memory that may be left out.
fn maybe_memory_slot(
    context: &Context<'_>,
    state: &mut State<'_>,
    memory: Option<CoreId>,
) -> Result<Option<MemoryId>, ItemError>
    requires sound { IsSoundState context.now.table.now context.now.modules state.old }
    requires there { MaybeThere context.now.modules (tables_of state.old) core.Memory memory }
    ensures prepares { Prepares context.now.table.now context.now.modules state.old state.new }
    ensures adds { AddsEach (in_slots 1) 0 0 (tables_of state.old) (tables_of state.new) }
    ensures slot { IfOk result (λ slot. (v : MaybeValue Mark)
        → MaybeStands context.now.modules (tables_of state.old) core.Memory memory v
        → SlotStands (tables_of state.new) plan.memory (option_map (λ n. n.0) slot) v) }
    ensures held { IfOk result (λ slot. HeldSlot state.new.graph plan.memory (option_map (λ n. n.0) slot)) }
    ensures err { IfErr result (LacksRoom state.new) }
{
    match memory {
        Some(id) => Ok(Some(memory_slot(context, state, id)?)),
        None => Ok(None),
    }
}

/// The slot of a realloc. It gets one the first time.
fn realloc_slot(
    context: &Context<'_>,
    state: &mut State<'_>,
    id: CoreId,
) -> Result<ReallocId, ItemError>
    requires sound { IsSoundState context.now.table.now context.now.modules state.old }
    requires there { IsThere context.now.modules (tables_of state.old) core.Func id }
    ensures prepares { Prepares context.now.table.now context.now.modules state.old state.new }
    ensures adds { AddsEach (in_slots 1) 0 0 (tables_of state.old) (tables_of state.new) }
    ensures slot { IfOk result (λ slot. InSlot (tables_of state.new) plan.realloc id.0 slot.0) }
    ensures err { IfErr result (LacksRoom state.new) }
{
    if let Some(slot) = state.places.reallocs.get(id) {
        return Ok(slot);
    }
    let def = definition(context, state, id)?;
    let slot = state.graph.push_realloc(def)?;
    state.places.reallocs.set(id, Some(slot))?;
    Ok(slot)
}

/// The slot of a realloc that may be left out.
fn maybe_realloc_slot(
    context: &Context<'_>,
    state: &mut State<'_>,
    realloc: Option<CoreId>,
) -> Result<Option<ReallocId>, ItemError>
    requires sound { IsSoundState context.now.table.now context.now.modules state.old }
    requires there { MaybeThere context.now.modules (tables_of state.old) core.Func realloc }
    ensures prepares { Prepares context.now.table.now context.now.modules state.old state.new }
    ensures adds { AddsEach (in_slots 1) 0 0 (tables_of state.old) (tables_of state.new) }
    ensures slot { IfOk result (λ slot. (v : MaybeValue Mark)
        → MaybeStands context.now.modules (tables_of state.old) core.Func realloc v
        → SlotStands (tables_of state.new) plan.realloc (option_map (λ n. n.0) slot) v) }
    ensures held { IfOk result (λ slot. HeldSlot state.new.graph plan.realloc (option_map (λ n. n.0) slot)) }
    ensures err { IfErr result (LacksRoom state.new) }
{
    match realloc {
        Some(id) => Ok(Some(realloc_slot(context, state, id)?)),
        None => Ok(None),
    }
}

/// The slot of a callback. It gets one the first time.
fn callback_slot(
    context: &Context<'_>,
    state: &mut State<'_>,
    id: CoreId,
) -> Result<CallbackId, ItemError>
    requires sound { IsSoundState context.now.table.now context.now.modules state.old }
    requires there { IsThere context.now.modules (tables_of state.old) core.Func id }
    ensures prepares { Prepares context.now.table.now context.now.modules state.old state.new }
    ensures adds { AddsEach (in_slots 1) 0 0 (tables_of state.old) (tables_of state.new) }
    ensures slot { IfOk result (λ slot. InSlot (tables_of state.new) plan.callback id.0 slot.0) }
    ensures err { IfErr result (LacksRoom state.new) }
{
    if let Some(slot) = state.places.callbacks.get(id) {
        return Ok(slot);
    }
    let def = definition(context, state, id)?;
    let slot = state.graph.push_callback(def)?;
    state.places.callbacks.set(id, Some(slot))?;
    Ok(slot)
}

/// The slot of a callback that may be left out.
fn maybe_callback_slot(
    context: &Context<'_>,
    state: &mut State<'_>,
    callback: Option<CoreId>,
) -> Result<Option<CallbackId>, ItemError>
    requires sound { IsSoundState context.now.table.now context.now.modules state.old }
    requires there { MaybeThere context.now.modules (tables_of state.old) core.Func callback }
    ensures prepares { Prepares context.now.table.now context.now.modules state.old state.new }
    ensures adds { AddsEach (in_slots 1) 0 0 (tables_of state.old) (tables_of state.new) }
    ensures slot { IfOk result (λ slot. (v : MaybeValue Mark)
        → MaybeStands context.now.modules (tables_of state.old) core.Func callback v
        → SlotStands (tables_of state.new) plan.callback (option_map (λ n. n.0) slot) v) }
    ensures held { IfOk result (λ slot. HeldSlot state.new.graph plan.callback (option_map (λ n. n.0) slot)) }
    ensures err { IfErr result (LacksRoom state.new) }
{
    match callback {
        Some(id) => Ok(Some(callback_slot(context, state, id)?)),
        None => Ok(None),
    }
}

/// The slot of a post-return function. It gets one the first time.
fn post_return_slot(
    context: &Context<'_>,
    state: &mut State<'_>,
    id: CoreId,
) -> Result<PostReturnId, ItemError>
    requires sound { IsSoundState context.now.table.now context.now.modules state.old }
    requires there { IsThere context.now.modules (tables_of state.old) core.Func id }
    ensures prepares { Prepares context.now.table.now context.now.modules state.old state.new }
    ensures adds { AddsEach (in_slots 1) 0 0 (tables_of state.old) (tables_of state.new) }
    ensures slot { IfOk result (λ slot. InSlot (tables_of state.new) plan.post_return id.0 slot.0) }
    ensures err { IfErr result (LacksRoom state.new) }
{
    if let Some(slot) = state.places.post_returns.get(id) {
        return Ok(slot);
    }
    let def = definition(context, state, id)?;
    let slot = state.graph.push_post_return(def)?;
    state.places.post_returns.set(id, Some(slot))?;
    Ok(slot)
}

/// The slot of a post-return function that may be left out.
fn maybe_post_return_slot(
    context: &Context<'_>,
    state: &mut State<'_>,
    post_return: Option<CoreId>,
) -> Result<Option<PostReturnId>, ItemError>
    requires sound { IsSoundState context.now.table.now context.now.modules state.old }
    requires there { MaybeThere context.now.modules (tables_of state.old) core.Func post_return }
    ensures prepares { Prepares context.now.table.now context.now.modules state.old state.new }
    ensures adds { AddsEach (in_slots 1) 0 0 (tables_of state.old) (tables_of state.new) }
    ensures slot { IfOk result (λ slot. (v : MaybeValue Mark)
        → MaybeStands context.now.modules (tables_of state.old) core.Func post_return v
        → SlotStands (tables_of state.new) plan.post_return (option_map (λ n. n.0) slot) v) }
    ensures held { IfOk result (λ slot. HeldSlot state.new.graph plan.post_return (option_map (λ n. n.0) slot)) }
    ensures err { IfErr result (LacksRoom state.new) }
{
    match post_return {
        Some(id) => Ok(Some(post_return_slot(context, state, id)?)),
        None => Ok(None),
    }
}

/// Where values lie, over slots.
fn data_model(
    context: &Context<'_>,
    state: &mut State<'_>,
    model: DataModel,
) -> Result<CanonicalOptionsDataModel, ItemError>
    requires sound { IsSoundState context.now.table.now context.now.modules state.old }
    requires there { ModelThere context.now.modules (tables_of state.old) model }
    ensures prepares { Prepares context.now.table.now context.now.modules state.old state.new }
    ensures adds { AddsEach (in_slots 2) 0 0 (tables_of state.old) (tables_of state.new) }
    ensures model { IfOk result (λ model'. (v : value.DataModel Mark)
        → ModelStands context.now.modules (tables_of state.old) model v
        → SlotModelStands (tables_of state.new) (model_entry model') v) }
    ensures held { IfOk result (λ model'. HeldModel state.new.graph (model_entry model')) }
    ensures err { IfErr result (LacksRoom state.new) }
{
    match model {
        DataModel::Gc {} => Ok(CanonicalOptionsDataModel::Gc {}),
        DataModel::LinearMemory { memory, realloc } => {
            let memory = maybe_memory_slot(context, state, memory)?;
            let realloc = maybe_realloc_slot(context, state, realloc)?;
            Ok(CanonicalOptionsDataModel::LinearMemory { memory, realloc })
        }
    }
}

/// The options entry of these options.
pub fn options_entry(
    context: &Context<'_>,
    state: &mut State<'_>,
    options: Options,
) -> Result<OptionsId, ItemError>
    requires sound { IsSoundState context.now.table.now context.now.modules state.old }
    requires there { OptionsThere context.now.modules (tables_of state.old) options }
    ensures prepares { Prepares context.now.table.now context.now.modules state.old state.new }
    ensures adds { AddsEach in_options 0 0 (tables_of state.old) (tables_of state.new) }
    ensures entry { IfOk result (λ id. (v : value.Options Mark)
        → OptionsStand context.now.modules (tables_of state.old) options v
        → EntryStands (tables_of state.new) id.0 v) }
    ensures held { IfOk result (λ id. id.0 < length state.new.graph.options) }
    ensures err { IfErr result (LacksRoom state.new) }
{
    let data_model = data_model(context, state, options.data_model)?;
    let callback = maybe_callback_slot(context, state, options.callback)?;
    let post_return = maybe_post_return_slot(context, state, options.post_return)?;
    Ok(
        state.graph.push_options(CanonicalOptions {
            instance: options.instance,
            string_encoding: options.string_encoding,
            callback,
            post_return,
            async_: options.async_,
            core_type: options.core_type,
            data_model,
        })?,
    )
}
