//! The unsafe intrinsics as an instance, and as what it exports.

ghost use Rattle.std.specs.Prelude.{◌≡◌, List, None};
ghost use Rattle.pc_types.specs.declared.module_record.ModuleRecord.{ModuleRecord};
ghost use Rattle.pc_types.specs.declared.parsed.TypeTable.{TypeTable};
ghost use Rattle.pc_spec_reading.specs.Instances.{alias_in};
ghost use Rattle.pc_spec_reading.specs.Item.{intrinsics_import};
ghost use Rattle.pc_spec_reading.specs.Scope.{Moment};
ghost use Rattle.pc_spec_reading.specs.Value.{the_intrinsics};
ghost use Rattle.pc_inline_state.specs.Adds.{Adds};
ghost use Rattle.pc_inline_state.specs.Definitions.{exports_of};
ghost use Rattle.pc_inline_state.specs.Points.{Follows, PointStands, StepsItem};
ghost use Rattle.pc_inline_state.specs.Tables.{Keeps, tables_of};
ghost use Rattle.pc_inline_items.specs.Aliases.{AddsDefined};

use pc_entity::Text;
use pc_inline_state::{Definition, Frame, ItemError, ItemFault, State};
use pc_parsed::ItemKind;
use pc_types::UnsafeIntrinsic;

/// A definition that exports nothing by number is an item of the component instance now.
fn add_defined(
    state: &mut State<'_>,
    frame: &mut Frame,
    kind: ItemKind,
    definition: Definition,
) -> Result<(), ItemError>
    requires alone { exports_of definition ≡ None }
    ensures keeps { Keeps (tables_of state.old) (tables_of state.new) }
    ensures adds { (t : TypeTable) → Adds t 4 (tables_of state.old) (tables_of state.new) }
    ensures resources { state.new.types.resources ≡ state.old.types.resources }
    ensures changes { frame.new.changes ≡ frame.old.changes }
    ensures same { frame.new.component_instance ≡ frame.old.component_instance }
    ensures follows { AddsDefined kind definition state.old frame.old state.new frame.new result }
{
    let id = state.push_definition(definition)?;
    frame.push_item(kind, id)?;
    Ok(())
}

/// The root's import of the unsafe intrinsics, which are an instance then.
pub(crate) fn step_intrinsics(state: &mut State<'_>, frame: &mut Frame) -> Result<(), ItemError>
    ensures keeps { Keeps (tables_of state.old) (tables_of state.new) }
    ensures adds { (t : TypeTable) → Adds t 4 (tables_of state.old) (tables_of state.new) }
    ensures resources { state.new.types.resources ≡ state.old.types.resources }
    ensures changes { frame.new.changes ≡ frame.old.changes }
    ensures same { frame.new.component_instance ≡ frame.old.component_instance }
    ensures steps { (t : TypeTable) (ms : List ModuleRecord)
        → StepsItem t ms intrinsics_import state.old frame.old state.new frame.new result }
{
    add_defined(state, frame, ItemKind::Instance, Definition::Intrinsics)
}

/// An unsafe intrinsic, by its name. It is a function, and an item of no other kind.
pub(crate) fn alias_intrinsic(
    state: &mut State<'_>,
    frame: &mut Frame,
    kind: ItemKind,
    name: &Text,
) -> Result<(), ItemError>
    ensures keeps { Keeps (tables_of state.old) (tables_of state.new) }
    ensures adds { (t : TypeTable) → Adds t 4 (tables_of state.old) (tables_of state.new) }
    ensures resources { state.new.types.resources ≡ state.old.types.resources }
    ensures changes { frame.new.changes ≡ frame.old.changes }
    ensures same { frame.new.component_instance ≡ frame.old.component_instance }
    ensures follows { (t : TypeTable) (ms : List ModuleRecord) (now : Moment) → PointStands t ms state.old frame.old now
        → Follows t ms state.new frame.new (alias_in now kind name.now the_intrinsics) result }
{
    let Ok(intrinsic) = UnsafeIntrinsic::from_str(name.as_str()) else {
        return Err(ItemError::Fault(ItemFault::UnknownIntrinsic));
    };
    let definition = Definition::IntrinsicFunc { intrinsic };
    if !definition.is_of_kind(kind) {
        return Err(ItemError::Fault(ItemFault::Invalid));
    }
    add_defined(state, frame, kind, definition)
}
