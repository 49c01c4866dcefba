//! Lifted functions, lowered: the adapters between them.

ghost use Rattle.std.specs.Prelude.{◌≡◌, IfErr, IfOk};
ghost use Rattle.pc_types.specs.declared.parsed.CoreKind.TheVariants as core;
ghost use Rattle.pc_inline_state.specs.Adds.{Adds};
ghost use Rattle.pc_inline_state.specs.AddsEach.{AddsEach, in_adapters};
ghost use Rattle.pc_inline_state.specs.Points.{IsSoundState};
ghost use Rattle.pc_inline_state.specs.Refused.{LacksRoom};
ghost use Rattle.pc_inline_state.specs.Sides.{IsDefinition, IsMemory, IsModel, IsSide};
ghost use Rattle.pc_inline_state.specs.Slots.{IsThere, MaybeThere, ModelThere, OptionsThere};
ghost use Rattle.pc_inline_state.specs.Tables.{Keeps, tables_of};
ghost use Rattle.pc_inline_canon.specs.Adapters.{GetsAdapter};
ghost use Rattle.pc_inline_canon.specs.Callees.{LowersTo};
ghost use Rattle.pc_inline_canon.specs.declared.callee.Callee.TheVariants as callee;

use crate::slots::{definition, memory_of};
use pc_dfg::{Adapter, AdapterId, AdapterOptions, CoreDef, CoreExport, DataModel as SideModel};
use pc_entity::{MemoryIndex, NoMemory};
use pc_inline_state::{AdapterKey, Context, CoreId, DataModel, ItemError, Options, State};
use pc_types::TypeFuncIndex;

/// The definition of a core item that may be left out.
fn side_definition(
    context: &Context<'_>,
    state: &State<'_>,
    id: Option<CoreId>,
) -> Result<Option<CoreDef>, NoMemory>
    requires there { MaybeThere context.now.modules (tables_of state.now) core.Func id }
    ensures { IfOk result (IsDefinition context.now.table.now context.now.modules state.now id) }
{
    match id {
        Some(id) => Ok(Some(definition(context, state, id)?)),
        None => Ok(None),
    }
}

/// A memory that may be left out, with whether it has 64 bits.
fn side_memory(
    context: &Context<'_>,
    state: &State<'_>,
    memory: Option<CoreId>,
) -> Result<Option<(CoreExport<MemoryIndex>, bool)>, NoMemory>
    requires sound { IsSoundState context.now.table.now context.now.modules state.now }
    requires there { MaybeThere context.now.modules (tables_of state.now) core.Memory memory }
    ensures { IfOk result (IsMemory context.now.table.now context.now.modules state.now memory) }
{
    match memory {
        Some(id) => {
            let memory = memory_of(context.alloc, &state.cores[id])?;
            let instance_module = state.runtime_instances[memory.instance.0 as usize];
            let is_wide = context.is_wide(state, id, instance_module, &memory.item);
            Ok(Some((memory, is_wide)))
        }
        None => Ok(None),
    }
}

/// Where the values of a side lie.
fn side_model(
    context: &Context<'_>,
    state: &State<'_>,
    model: DataModel,
) -> Result<SideModel, NoMemory>
    requires sound { IsSoundState context.now.table.now context.now.modules state.now }
    requires there { ModelThere context.now.modules (tables_of state.now) model }
    ensures { IfOk result (IsModel context.now.table.now context.now.modules state.now model) }
{
    match model {
        DataModel::Gc {} => Ok(SideModel::Gc {}),
        DataModel::LinearMemory { memory, realloc } => Ok(SideModel::LinearMemory {
            memory: side_memory(context, state, memory)?,
            realloc: side_definition(context, state, realloc)?,
        }),
    }
}

/// A side of an adapter, which holds definitions where options name core items.
fn side_options(
    context: &Context<'_>,
    state: &State<'_>,
    options: Options,
) -> Result<AdapterOptions, NoMemory>
    requires sound { IsSoundState context.now.table.now context.now.modules state.now }
    requires there { OptionsThere context.now.modules (tables_of state.now) options }
    ensures { IfOk result (IsSide context.now.table.now context.now.modules state.now options) }
{
    Ok(AdapterOptions {
        instance: options.instance,
        string_encoding: options.string_encoding,
        callback: side_definition(context, state, options.callback)?,
        post_return: side_definition(context, state, options.post_return)?,
        async_: options.async_,
        core_type: options.core_type,
        data_model: side_model(context, state, options.data_model)?,
    })
}

/// The adapter of a key, which is made the first time. Another key may make the same one.
fn adapter_of(
    context: &Context<'_>,
    state: &mut State<'_>,
    key: AdapterKey,
) -> Result<AdapterId, ItemError>
    requires sound { IsSoundState context.now.table.now context.now.modules state.old }
    requires there { IsThere context.now.modules (tables_of state.old) core.Func key.func }
    requires lift { OptionsThere context.now.modules (tables_of state.old) key.lift }
    requires lower { OptionsThere context.now.modules (tables_of state.old) key.lower }
    ensures keeps { Keeps (tables_of state.old) (tables_of state.new) }
    ensures adds { AddsEach in_adapters 0 0 (tables_of state.old) (tables_of state.new) }
    ensures rest { state.new ≡ record state.old {
      graph = record state.old.graph { adapters = state.new.graph.adapters };
      places = state.new.places;
    } }
    ensures has { IfOk result (GetsAdapter context.now.table.now context.now.modules state.old state.new key) }
    ensures err { IfErr result (LacksRoom state.new) }
{
    if let Some(number) = state.places.adapters.get(key) {
        return Ok(number);
    }
    let adapter = Adapter {
        lift_ty: key.lift_ty,
        lift_options: side_options(context, state, key.lift)?,
        lower_ty: key.lower_ty,
        lower_options: side_options(context, state, key.lower)?,
        func: definition(context, state, key.func)?,
    };
    let number = state.graph.push_adapter(adapter)?;
    state.places.adapters.insert(key, number)?;
    Ok(number)
}

/// The core function that a lifted function is lowered to: the adapter between its options and these, which is the one
/// that was made before, if there is one.
pub(crate) fn lower_lifted(
    context: &Context<'_>,
    state: &mut State<'_>,
    lifted: (TypeFuncIndex, CoreId, Options),
    ty: TypeFuncIndex,
    options: Options,
) -> Result<CoreId, ItemError>
    requires sound { IsSoundState context.now.table.now context.now.modules state.old }
    requires there { IsThere context.now.modules (tables_of state.old) core.Func lifted.1 }
    requires lift { OptionsThere context.now.modules (tables_of state.old) lifted.2 }
    requires lower { OptionsThere context.now.modules (tables_of state.old) options }
    ensures keeps { Keeps (tables_of state.old) (tables_of state.new) }
    ensures adds { Adds context.now.table.now 36 (tables_of state.old) (tables_of state.new) }
    ensures resources { state.new.types.resources ≡ state.old.types.resources }
    ensures lowers { IfOk result (LowersTo context.now.table.now context.now.modules state.old state.new
        (callee.Lifted lifted.0 lifted.1 lifted.2) ty options) }
    ensures err { IfErr result (LacksRoom state.new) }
{
    let (lift_ty, func, lift) = lifted;
    let key = AdapterKey {
        lift_ty,
        func,
        lift,
        lower_ty: ty,
        lower: options,
    };
    let number = adapter_of(context, state, key)?;
    state.graph.entries_are_distinct();
    state.types.types_are_distinct();
    state.types.numbers_are_trees();
    state.push_core(CoreDef::Adapter(number))
}
