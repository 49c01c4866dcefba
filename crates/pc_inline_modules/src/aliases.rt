//! Aliases of core items.

ghost use Rattle.std.specs.Prelude.{◌≡◌, ◌<◌, ℕ, List, length};
ghost use Rattle.pc_spec_reading.specs.Item.{core_alias_item};
ghost use Rattle.pc_inline_names.specs.Numbers.{IsNumber};
ghost use Rattle.pc_inline_state.specs.Adds.{Adds};
ghost use Rattle.pc_inline_state.specs.Points.{IsInput, IsPoint, StepsItem};
ghost use Rattle.pc_inline_state.specs.Tables.{Keeps, tables_of};
ghost use Rattle.pc_inline_state.specs.Trails.{Trails};

use pc_entity::Atom;
use pc_inline_state::{Context, Frame, ItemError, ItemFault, State};
use pc_types::CoreKind;

/// An item of a core instance, by the number of its name.
pub fn step_core_alias(
    context: &Context<'_>,
    state: &mut State<'_>,
    frame: &mut Frame,
    kind: CoreKind,
    instance: u32,
    number: Atom,
) -> Result<(), ItemError>
    requires input { IsInput context.now.table.now context.now.modules }
    requires here { IsPoint context.now.table.now context.now.modules state.old frame.old }
    requires named { number.0 < length state.old.names.now.texts }
    ensures keeps { Keeps (tables_of state.old) (tables_of state.new) }
    ensures adds { Adds context.now.table.now 4 (tables_of state.old) (tables_of state.new) }
    ensures trail { Trails frame.old.changes state.old.types.resources frame.new.changes state.new.types.resources }
    ensures same { frame.new.component_instance ≡ frame.old.component_instance }
    ensures steps { (name : List ℕ) → IsNumber state.old.names.now.texts number name
        → StepsItem context.now.table.now context.now.modules (core_alias_item kind instance name)
        state.old frame.old state.new frame.new result }
{
    let Some(held) = frame.core_instances.as_slice().get(instance as usize) else {
        return Err(ItemError::Fault(ItemFault::Invalid));
    };
    let Some(item) = context.export(state.names, held, kind, number) else {
        return Err(ItemError::Fault(ItemFault::Invalid));
    };
    let id = context.found_id(state, item)?;
    frame.push_core(kind, id)?;
    Ok(())
}
