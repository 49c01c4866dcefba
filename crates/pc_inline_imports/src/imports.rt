//! The preparation of an import of the root.

ghost use Rattle.std.specs.Prelude.{◌≡◌, [], true, false, OnOk};
ghost use Rattle.pc_spec_reading.specs.Types.{is_defined_entity, names_entry};
ghost use Rattle.pc_inline_names.specs.Numbers.{IsNumber};
ghost use Rattle.pc_inline_state.specs.Adds.{Adds, most_converted};
ghost use Rattle.pc_inline_state.specs.Points.{IsInput, IsPoint, Steps};
ghost use Rattle.pc_inline_state.specs.Ready.{IsReady};
ghost use Rattle.pc_inline_state.specs.Tables.{Keeps, tables_of};
ghost use Rattle.pc_spec_reading.specs.Imports.{prepare};

use crate::bring::push_given;
use crate::entity::{entity_type, is_component, is_defined_entity, names_entry};
use crate::learn::learn;
use pc_entity::Atom;
use pc_inline_state::{Context, Frame, ItemError, ItemFault, State};
use pc_parsed::ExternName;
use pc_types::{Entity, Unsupported};

/// The host gives for an import, which is an argument of the root then, under the number of its name. It gives no
/// component.
fn give(
    context: &Context<'_>,
    state: &mut State<'_>,
    frame: &mut Frame,
    name: &ExternName,
    entity: Entity,
    number: Atom,
) -> Result<(), ItemError>
    requires input { IsInput context.now.table.now context.now.modules }
    requires ready { IsReady context.now }
    requires here { IsPoint context.now.table.now context.now.modules state.old frame.old }
    requires undeclared { state.old.graph.resources ≡ [] }
    requires named { names_entry context.now.table.now entity ≡ true }
    requires given { is_defined_entity context.now.table.now entity ≡ false }
    ensures keeps { Keeps (tables_of state.old) (tables_of state.new) }
    ensures adds { Adds context.now.table.now (most_converted context.now.table.now 1)
        (tables_of state.old) (tables_of state.new) }
    ensures same { frame.new.component_instance ≡ frame.old.component_instance }
    ensures undeclared { OnOk result (state.new.graph.resources ≡ []) }
    ensures steps { IsNumber state.old.names.now.texts number name.now.name
        → Steps context.now.table.now context.now.modules (prepare context.now.table.now name.now entity)
        state.old frame.old state.new frame.new result }
{
    let learnt = learn(context, state, frame, entity)?;
    if is_component(entity) {
        return Err(ItemError::Fault(ItemFault::Unsupported(Unsupported::ComponentImport)));
    }
    let id = push_given(context, state, name, entity, &learnt)?;
    frame.arguments.insert_first(number, id)?;
    Ok(())
}

/// An import of the root is prepared: it is the next in the order of the imports, and an argument of the root, under the
/// number of its name. For a defined type the host gives nothing, but the builder has it.
pub fn prepare(
    context: &Context<'_>,
    state: &mut State<'_>,
    frame: &mut Frame,
    name: &ExternName,
    entity: Entity,
    number: Atom,
) -> Result<(), ItemError>
    requires input { IsInput context.now.table.now context.now.modules }
    requires ready { IsReady context.now }
    requires here { IsPoint context.now.table.now context.now.modules state.old frame.old }
    requires undeclared { state.old.graph.resources ≡ [] }
    ensures keeps { Keeps (tables_of state.old) (tables_of state.new) }
    ensures adds { Adds context.now.table.now (most_converted context.now.table.now 1)
        (tables_of state.old) (tables_of state.new) }
    ensures same { frame.new.component_instance ≡ frame.old.component_instance }
    ensures undeclared { OnOk result (state.new.graph.resources ≡ []) }
    ensures steps { IsNumber state.old.names.now.texts number name.now.name
        → Steps context.now.table.now context.now.modules (prepare context.now.table.now name.now entity)
        state.old frame.old state.new frame.new result }
{
    if !names_entry(context.table, entity) {
        return Err(ItemError::Fault(ItemFault::BadType));
    }
    if is_defined_entity(context.table, entity) {
        entity_type(context, state, &mut frame.converted, entity)?;
        return Ok(());
    }
    give(context, state, frame, name, entity, number)
}
