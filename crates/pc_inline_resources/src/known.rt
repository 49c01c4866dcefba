//! A resource becomes known.

ghost use Rattle.std.specs.Prelude.{◌≡◌, ◌==◌, ℕ, Some, IfErr, OnOk, if◌then◌else◌};
ghost use Rattle.pc_types.specs.Table.{table_fault};
ghost use Rattle.pc_types.specs.TypeTree.{Identity};
ghost use Rattle.pc_types_lists.specs.Known.{resource_of};
ghost use Rattle.pc_types_builder.specs.Converted.{AreConverted};
ghost use Rattle.pc_inline_state.specs.Adds.{Adds};
ghost use Rattle.pc_inline_state.specs.KnowsSame.{IsResource};
ghost use Rattle.pc_inline_state.specs.Points.{IsInput, IsPoint, Steps};
ghost use Rattle.pc_inline_state.specs.Refused.{LacksRoom};
ghost use Rattle.pc_inline_state.specs.Tables.{Keeps, tables_of};
ghost use Rattle.pc_inline_state.specs.Trails.{Trails};
ghost use Rattle.pc_inline_resources.specs.Registers.{known_as};

use pc_entity::ResourceIndex;
use pc_inline_state::{Change, Context, Frame, ItemError, State};

/// A table number stands for a resource from now on, in the component instance of a frame. Want of memory is the one
/// refusal.
///
/// A type that leads to the number is another type now. So of what was converted the types are forgotten that do.
pub fn make_known(
    context: &Context<'_>,
    state: &mut State<'_>,
    frame: &mut Frame,
    n: u32,
    r: ResourceIndex,
) -> Result<(), ItemError>
    requires sound { table_fault context.now.table.now ≡ None }
    requires converted { AreConverted state.old.types context.now.table.now frame.old.converted }
    ensures keeps { Keeps (tables_of state.old) (tables_of state.new) }
    ensures adds { Adds context.now.table.now 0 (tables_of state.old) (tables_of state.new) }
    ensures trail { Trails frame.old.changes state.old.types.resources frame.new.changes state.new.types.resources }
    ensures same { frame.new.component_instance ≡ frame.old.component_instance }
    ensures rest { state.new
        ≡ record state.old { types = record state.old.types { resources = state.new.types.resources } } }
    ensures frame { frame.new
        ≡ record frame.old { converted = frame.new.converted; changes = frame.new.changes } }
    ensures converted { AreConverted state.new.types context.now.table.now frame.new.converted }
    ensures known { OnOk result ((q : ℕ) → resource_of state.new.types.resources.known q
        ≡ (if q == n then Some r else resource_of state.old.types.resources.known q)) }
    ensures current { state.new.types.resources.current ≡ state.old.types.resources.current }
    ensures err { IfErr result (LacksRoom state.new) }
{
    let was = state.types.resources().lookup(n);
    frame.changes.push(Change { number: n, was })?;
    frame.converted.forget(n);
    state.types.resources_mut().register_resource(n, r)?;
    Ok(())
}

/// A table number stands for a resource of the graph from now on, in the component instance of a frame.
pub fn register(
    context: &Context<'_>,
    state: &mut State<'_>,
    frame: &mut Frame,
    n: u32,
    r: ResourceIndex,
) -> Result<(), ItemError>
    requires input { IsInput context.now.table.now context.now.modules }
    requires here { IsPoint context.now.table.now context.now.modules state.old frame.old }
    ensures keeps { Keeps (tables_of state.old) (tables_of state.new) }
    ensures adds { Adds context.now.table.now 0 (tables_of state.old) (tables_of state.new) }
    ensures trail { Trails frame.old.changes state.old.types.resources frame.new.changes state.new.types.resources }
    ensures same { frame.new.component_instance ≡ frame.old.component_instance }
    ensures rest { state.new
        ≡ record state.old { types = record state.old.types { resources = state.new.types.resources } } }
    ensures frame { frame.new
        ≡ record frame.old { converted = frame.new.converted; changes = frame.new.changes } }
    ensures steps { (i : Identity) → IsResource state.old.graph r i
        → Steps context.now.table.now context.now.modules (known_as n i)
        state.old frame.old state.new frame.new result }
{
    make_known(context, state, frame, n, r)
}
