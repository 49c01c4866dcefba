//! Component instances from what they export.

ghost use Rattle.std.specs.Prelude.{◌≡◌, ◌+◌, map, true};
ghost use Rattle.pc_types.specs.Table.{is_instance};
ghost use Rattle.pc_spec_reading.specs.Item.{component_exports_item};
ghost use Rattle.pc_spec_reading.specs.Scope.{Moment};
ghost use Rattle.pc_spec_reading.specs.Section.{named_item};
ghost use Rattle.pc_spec_reading.specs.Types.{has_entry};
ghost use Rattle.pc_spec_reading.specs.Value.{NamedValues};
ghost use Rattle.pc_types.specs.Names.{distinct_names};
ghost use Rattle.pc_inline_names.specs.Numbers.{AreNumbersOf};
ghost use Rattle.pc_inline_state.specs.Adds.{Adds, most_converted, types_among};
ghost use Rattle.pc_inline_state.specs.Named.{export_name};
ghost use Rattle.pc_inline_state.specs.Points.{Follows, IsInput, IsPoint, PointStands, StepsItem};
ghost use Rattle.pc_inline_state.specs.Stands.{MembersStand};
ghost use Rattle.pc_inline_state.specs.Tables.{Keeps, tables_of};
ghost use Rattle.pc_inline_state.specs.Trails.{Trails};
ghost use Rattle.pc_inline_items.specs.Made.{made_of};

use crate::members::{are_there, are_typed, export_members};
use pc_entity::Atom;
use pc_inline_names::AtomMap;
use pc_inline_state::{
    Context, Definition, Frame, ItemError, ItemFault, Member, State, is_instance_type,
};
use pc_parsed::{ExternName, ItemKind};

/// A component instance that exports these members, of the type that its number has for the component instance now.
pub fn add_instance(
    context: &Context<'_>,
    state: &mut State<'_>,
    frame: &mut Frame,
    members: AtomMap<Member>,
    ty: u32,
) -> Result<(), ItemError>
    requires input { IsInput context.now.table.now context.now.modules }
    requires here { IsPoint context.now.table.now context.now.modules state.old frame.old }
    requires there { has_entry context.now.table.now is_instance ty ≡ true }
    ensures keeps { Keeps (tables_of state.old) (tables_of state.new) }
    ensures adds { Adds context.now.table.now (most_converted context.now.table.now 1)
        (tables_of state.old) (tables_of state.new) }
    ensures resources { state.new.types.resources ≡ state.old.types.resources }
    ensures changes { frame.new.changes ≡ frame.old.changes }
    ensures same { frame.new.component_instance ≡ frame.old.component_instance }
    ensures steps { (now : Moment) (vs : NamedValues)
        → PointStands context.now.table.now context.now.modules state.old frame.old now
        → MembersStand context.now.modules (tables_of state.old) members vs
        → Follows context.now.table.now context.now.modules state.new frame.new
        (made_of context.now.table.now ty vs now) result }
{
    let ty = context.instance_type(state, &mut frame.converted, ty)?;
    let exports = state.push_instance(members)?;
    let id = state.push_definition(Definition::Instance { exports, ty })?;
    frame.instances.push(id)?;
    Ok(())
}

/// A component instance from items of the component instance.
pub(crate) fn step_component_exports(
    context: &Context<'_>,
    state: &mut State<'_>,
    frame: &mut Frame,
    exports: &[(ExternName, ItemKind, u32)],
    ty: u32,
    numbers: &[Atom],
) -> Result<(), ItemError>
    requires input { IsInput context.now.table.now context.now.modules }
    requires here { IsPoint context.now.table.now context.now.modules state.old frame.old }
    requires named { distinct_names (map export_name exports.now) ≡ true }
    requires numbered { AreNumbersOf state.old.names.now.texts (map export_name exports.now) numbers.now }
    ensures keeps { Keeps (tables_of state.old) (tables_of state.new) }
    ensures adds { Adds context.now.table.now (most_converted context.now.table.now (1 + types_among exports.now))
        (tables_of state.old) (tables_of state.new) }
    ensures trail { Trails frame.old.changes state.old.types.resources frame.new.changes state.new.types.resources }
    ensures same { frame.new.component_instance ≡ frame.old.component_instance }
    ensures steps { StepsItem context.now.table.now context.now.modules
        (component_exports_item (map named_item exports.now) ty) state.old frame.old state.new frame.new result }
{
    if !is_instance_type(context.table, ty) {
        return Err(ItemError::Fault(ItemFault::BadType));
    }
    if !are_typed(context.table, exports) {
        return Err(ItemError::Fault(ItemFault::BadType));
    }
    if !are_there(frame, exports) {
        return Err(ItemError::Fault(ItemFault::Invalid));
    }
    let members = export_members(context, state, frame, exports, numbers)?;
    add_instance(context, state, frame, members, ty)
}
