//! What stands behind that: a flag, options, or a table.

ghost use Rattle.std.specs.Prelude.{◌≡◌, Some, true, slice_get, option_map, IfErr, IfOk};
ghost use Rattle.pc_types.specs.declared.parsed.CoreFuncSig.{CoreFuncSig};
ghost use Rattle.pc_types.specs.declared.parsed.CoreKind.TheVariants as core;
ghost use Rattle.pc_spec_plan.specs.CoreValue.{CoreValue, a_value, value_part};
ghost use Rattle.pc_spec_plan.specs.CoreValue as value;
ghost use Rattle.pc_spec_plan.specs.PlanView as plan;
ghost use Rattle.pc_trampoline.specs.Shape.{part_shape};
ghost use Rattle.pc_trampoline.specs.Shape as shape;
ghost use Rattle.pc_parsed.specs.Mark.{Mark};
ghost use Rattle.pc_spec_reading.specs.Scope.{Moment};
ghost use Rattle.pc_dfg.specs.Numbers.{table_def};
ghost use Rattle.pc_inline_state.specs.AddsEach.{AddsEach, in_options};
ghost use Rattle.pc_inline_state.specs.Placed.{InSlot};
ghost use Rattle.pc_inline_state.specs.Points.{IsPoint, IsSoundState, PointStands};
ghost use Rattle.pc_inline_state.specs.Prepares.{Prepares};
ghost use Rattle.pc_inline_state.specs.Refused.{LacksRoom};
ghost use Rattle.pc_inline_state.specs.Slots.{IsThere, OptionsThere};
ghost use Rattle.pc_inline_state.specs.Stands.{ItemStands, OptionsStand};
ghost use Rattle.pc_inline_state.specs.Tables.{tables_of};
ghost use Rattle.pc_inline_builtins.specs.Made.{PartStands, Yields, is_table, memory_options_in};
ghost use Rattle.pc_inline_builtins.specs.Reads.{read_second};
ghost use Rattle.pc_inline_builtins.specs.Written.{second_shape};

use crate::builtin::Second;
use crate::declared::Part;
use pc_dfg::{CoreDef, CoreExport, ExportItem, TableId};
use pc_entity::{EntityIndex, ModuleInternedTypeIndex, NoMemory, TableIndex, TryClone};
use pc_inline_canon::{options_entry, options_in};
use pc_inline_state::{
    Context, CoreId, DataModel, Frame, ItemError, ItemFault, Options, State, at,
};
use pc_types::StringEncoding;
use std::alloc::Global;

/// A definition of a table, as a table.
fn table_of(alloc: Global, def: &CoreDef) -> Result<CoreExport<TableIndex>, NoMemory>
    requires table { is_table def.now ≡ true }
    ensures { IfOk result (λ table. table_def table ≡ def.now) }
{
    match def {
        CoreDef::Export(export) => match &export.item {
            ExportItem::Index(EntityIndex::Table(table)) => Ok(CoreExport {
                instance: export.instance,
                item: ExportItem::Index(*table),
            }),
            ExportItem::Name(name) => Ok(CoreExport {
                instance: export.instance,
                item: ExportItem::Name(name.try_clone(alloc)?),
            }),
            _ => unreachable!(),
        },
        _ => unreachable!(),
    }
}

/// The slot of a table. It gets one the first time.
fn table_slot(
    context: &Context<'_>,
    state: &mut State<'_>,
    id: CoreId,
) -> Result<TableId, ItemError>
    requires sound { IsSoundState context.now.table.now context.now.modules state.old }
    requires there { IsThere context.now.modules (tables_of state.old) core.Table id }
    ensures prepares { Prepares context.now.table.now context.now.modules state.old state.new }
    ensures adds { AddsEach in_options 0 0 (tables_of state.old) (tables_of state.new) }
    ensures slot { IfOk result (λ slot. InSlot (tables_of state.new) plan.table id.0 slot.0) }
    ensures err { IfErr result (LacksRoom state.new) }
{
    if let Some(slot) = state.places.tables.get(id) {
        return Ok(slot);
    }
    let table = table_of(context.alloc, &state.cores[id])?;
    let slot = state.graph.push_table(table)?;
    state.places.tables.set(id, Some(slot))?;
    Ok(slot)
}

/// A table of the table of core items, in a slot of the graph.
fn table_part(
    context: &Context<'_>,
    state: &mut State<'_>,
    table: CoreId,
) -> Result<Part, ItemError>
    requires sound { IsSoundState context.now.table.now context.now.modules state.old }
    requires there { IsThere context.now.modules (tables_of state.old) core.Table table }
    ensures prepares { Prepares context.now.table.now context.now.modules state.old state.new }
    ensures adds { AddsEach in_options 0 0 (tables_of state.old) (tables_of state.new) }
    ensures shape { IfOk result (λ p. part_shape p ≡ shape.table) }
    ensures stands { IfOk result (λ p. (v : CoreValue Mark)
        → ItemStands context.now.modules (tables_of state.old) core.Table table v
        → PartStands (tables_of state.new) p (value_part (a_value v))) }
    ensures err { IfErr result (LacksRoom state.new) }
{
    Ok(Part::Table(table_slot(context, state, table)?))
}

/// Options, as an entry of the graph.
fn options_part(
    context: &Context<'_>,
    state: &mut State<'_>,
    options: Options,
) -> Result<Part, ItemError>
    requires sound { IsSoundState context.now.table.now context.now.modules state.old }
    requires there { OptionsThere context.now.modules (tables_of state.old) options }
    ensures prepares { Prepares context.now.table.now context.now.modules state.old state.new }
    ensures adds { AddsEach in_options 0 0 (tables_of state.old) (tables_of state.new) }
    ensures shape { IfOk result (λ p. part_shape p ≡ shape.options) }
    ensures stands { IfOk result (λ p. (v : value.Options Mark)
        → OptionsStand context.now.modules (tables_of state.old) options v
        → PartStands (tables_of state.new) p (value.options_part v)) }
    ensures err { IfErr result (LacksRoom state.new) }
{
    Ok(Part::Options(options_entry(context, state, options)?))
}

/// The options of a function that says nothing of them but its memory.
fn memory_options(frame: &Frame, core_type: ModuleInternedTypeIndex, memory: CoreId) -> Options
    ensures { result ≡ memory_options_in frame.now core_type memory }
{
    Options {
        instance: frame.component_instance,
        string_encoding: StringEncoding::Utf8,
        callback: None,
        post_return: None,
        async_: false,
        core_type,
        data_model: DataModel::LinearMemory {
            memory: Some(memory),
            realloc: None,
        },
    }
}

/// What stands behind the first part, if anything does.
pub(crate) fn second_part(
    context: &Context<'_>,
    state: &mut State<'_>,
    frame: &Frame,
    core_type: ModuleInternedTypeIndex,
    second: Second<'_>,
) -> Result<Option<Part>, ItemError>
    requires here { IsPoint context.now.table.now context.now.modules state.old frame.now }
    requires signed { (s : CoreFuncSig) × (slice_get state.old.types.signatures core_type.0 ≡ Some s) }
    ensures prepares { Prepares context.now.table.now context.now.modules state.old state.new }
    ensures adds { AddsEach in_options 0 0 (tables_of state.old) (tables_of state.new) }
    ensures shape { IfOk result (λ p. option_map part_shape p ≡ second_shape second.entry) }
    ensures yields { (now : Moment) (s : CoreFuncSig)
        → PointStands context.now.table.now context.now.modules state.old frame.now now
        → slice_get state.old.types.signatures core_type.0 ≡ Some s
        → Yields (tables_of state.new) (read_second now.scope s second.entry) result }
{
    match second {
        Second::Nothing => Ok(None),
        Second::Flag(is_async) => Ok(Some(Part::Flag(is_async))),
        Second::Options(opts) => match options_in(frame, core_type, opts.as_slice()) {
            Some(options) => Ok(Some(options_part(context, state, options)?)),
            None => Err(ItemError::Fault(ItemFault::Invalid)),
        },
        Second::Memory(n) => match at(frame.memories.as_slice(), n) {
            Some(memory) => {
                let options = memory_options(frame, core_type, memory);
                Ok(Some(options_part(context, state, options)?))
            }
            None => Err(ItemError::Fault(ItemFault::Invalid)),
        },
        Second::Table(n) => match at(frame.tables.as_slice(), n) {
            Some(table) => Ok(Some(table_part(context, state, table)?)),
            None => Err(ItemError::Fault(ItemFault::Invalid)),
        },
    }
}
