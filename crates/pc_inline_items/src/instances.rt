//! What component instances export, and exports.

ghost use Rattle.std.specs.Prelude.{◌≡◌, ℕ, None, List, Some, slice_get};
ghost use Rattle.pc_types.specs.declared.module_record.ModuleRecord.{ModuleRecord};
ghost use Rattle.pc_types.specs.declared.parsed.TypeTable.{TypeTable};
ghost use Rattle.pc_types.specs.Table.{table_fault};
ghost use Rattle.pc_types.specs.TypeTree.{TypeTree};
ghost use Rattle.pc_parsed.specs.declared.payload.ExternName.{ExternName};
ghost use Rattle.pc_spec_reading.specs.Instances.{alias_in};
ghost use Rattle.pc_spec_reading.specs.Item.{alias_item, export_item};
ghost use Rattle.pc_spec_reading.specs.Scope.{Moment};
ghost use Rattle.pc_spec_reading.specs.Value.{NamedValues, made_instance};
ghost use Rattle.pc_entity.specs.declared.string_pool.Atom.{Atom};
ghost use Rattle.pc_inline_names.specs.Numbers.{IsNumber};
ghost use Rattle.pc_inline_state.specs.Adds.{Adds};
ghost use Rattle.pc_inline_state.specs.Points.{Follows, IsInput, IsPoint, PointStands, StepsItem};
ghost use Rattle.pc_inline_state.specs.Stands.{MembersStand};
ghost use Rattle.pc_inline_state.specs.Tables.{Keeps, tables_of};
ghost use Rattle.pc_inline_state.specs.Trails.{Trails};
ghost use Rattle.pc_inline_state.specs.declared.state.Member.{Member};
ghost use Rattle.pc_inline_state.specs.declared.state.State.{State};

use crate::hosts::alias_host;
use crate::intrinsics::alias_intrinsic;
use crate::members::is_typed;
use crate::source::{InstanceSource, source_of};
use pc_entity::{Atom, Text};
use pc_inline_state::{Context, ExportsId, Frame, ItemError, ItemFault, State};
use pc_parsed::ItemKind;
use pc_types::TypeTable;

/// An item of the component instance is exported, which puts it at the end of its list once more. A type stands in no
/// list.
pub(crate) fn step_export(
    table: &TypeTable,
    frame: &mut Frame,
    kind: ItemKind,
    index: u32,
) -> Result<(), ItemError>
    requires sound { table_fault table.now ≡ None }
    ensures changes { frame.new.changes ≡ frame.old.changes }
    ensures same { frame.new.component_instance ≡ frame.old.component_instance }
    ensures steps { (ms : List ModuleRecord) (st : State) (name : ExternName)
        → StepsItem table.now ms (export_item (record { name = name; kind = kind; index = index }))
        st frame.old st frame.new result }
{
    if !is_typed(table, kind, index) {
        return Err(ItemError::Fault(ItemFault::BadType));
    }
    match kind {
        ItemKind::Type_ => Ok(()),
        _ => match frame.item(kind, index) {
            Some(id) => Ok(frame.push_item(kind, id)?),
            None => Err(ItemError::Fault(ItemFault::Invalid)),
        },
    }
}

/// An item that a component instance from items, or of a component, exports, by the number of its name.
fn alias_made(
    state: &State<'_>,
    frame: &mut Frame,
    kind: ItemKind,
    exports: ExportsId,
    number: Atom,
) -> Result<(), ItemError>
    ensures changes { frame.new.changes ≡ frame.old.changes }
    ensures same { frame.new.component_instance ≡ frame.old.component_instance }
    ensures follows { (t : TypeTable) (ms : List ModuleRecord) (name : List ℕ)
        → IsNumber state.now.names.now.texts number name → (now : Moment) (es : List (Atom × Member))
        (vs : NamedValues) (tree : TypeTree) → PointStands t ms state.now frame.old now
        → slice_get state.now.instances exports.0 ≡ Some es → MembersStand ms (tables_of state.now) es vs
        → Follows t ms state.now frame.new (alias_in now kind name (made_instance vs tree)) result }
{
    match state.member(exports, number) {
        Some(id) if state.is_of_kind(id, kind) => Ok(frame.push_item(kind, id)?),
        _ => Err(ItemError::Fault(ItemFault::Invalid)),
    }
}

/// An item that a component instance exports, by its name and the number of that. The text serves the intrinsics alone.
pub(crate) fn step_alias(
    context: &Context<'_>,
    state: &mut State<'_>,
    frame: &mut Frame,
    kind: ItemKind,
    instance: u32,
    name: &Text,
    number: Atom,
) -> Result<(), ItemError>
    requires input { IsInput context.now.table.now context.now.modules }
    requires here { IsPoint context.now.table.now context.now.modules state.old frame.old }
    requires named { IsNumber state.old.names.now.texts number name.now }
    ensures keeps { Keeps (tables_of state.old) (tables_of state.new) }
    ensures adds { Adds context.now.table.now 4 (tables_of state.old) (tables_of state.new) }
    ensures trail { Trails frame.old.changes state.old.types.resources frame.new.changes state.new.types.resources }
    ensures same { frame.new.component_instance ≡ frame.old.component_instance }
    ensures steps { StepsItem context.now.table.now context.now.modules (alias_item kind instance name.now)
        state.old frame.old state.new frame.new result }
{
    let Some(id) = frame.item(ItemKind::Instance, instance) else {
        return Err(ItemError::Fault(ItemFault::Invalid));
    };
    match source_of(state, id) {
        Some(InstanceSource::Made(exports)) => alias_made(state, frame, kind, exports, number),
        Some(InstanceSource::Host { path, ty, entry }) => {
            alias_host(context, state, frame, kind, path, ty, entry, number)
        }
        Some(InstanceSource::Intrinsics) => alias_intrinsic(state, frame, kind, name),
        // Never: what stands among the instances of a frame is an instance, which the contract knows.
        None => Err(ItemError::Fault(ItemFault::Invalid)),
    }
}
