//! The steps of the items that declare builtins.

ghost use Rattle.std.specs.Prelude.{◌≡◌, ◌+◌, Some};
ghost use Rattle.std.specs.Borrow.{Bor};
ghost use Rattle.pc_spec_reading.specs.Canonical.{canonical_item};
ghost use Rattle.pc_spec_reading.specs.Item.{Item, new_thread_item, task_return_item};
ghost use Rattle.pc_spec_reading.specs.Rows.{read_row};
ghost use Rattle.pc_spec_reading.specs.Scope.{Moment};
ghost use Rattle.pc_inline_state.specs.Adds.{Adds, most_builtin, most_returned};
ghost use Rattle.pc_inline_state.specs.Points.{IsInput, IsPoint, StepsItem};
ghost use Rattle.pc_inline_state.specs.Tables.{Keeps, tables_of};
ghost use Rattle.pc_inline_state.specs.Trails.{Trails};
ghost use Rattle.pc_inline_builtins.specs.Made.{first_cost};
ghost use Rattle.pc_inline_builtins.specs.Reads.{read_made};
ghost use Rattle.pc_inline_builtins.specs.Written.{HasItsShape, if_builtin};

use crate::builtin::{Builtin, First, Second};
use crate::canonical::builtin_of;
use crate::declared::{declare, together};
use crate::first::first_part;
use crate::second::second_part;
use pc_entity::Seq;
use pc_inline_state::{Context, Frame, ItemError, ItemFault, State};
use pc_parsed::{CanonItem, CanonOption};
use pc_types::{TrampolineKind, ValType};

/// A builtin is declared, and is a core function.
fn step_made(
    context: &Context<'_>,
    state: &mut State<'_>,
    frame: &mut Frame,
    builtin: Builtin<'_>,
) -> Result<(), ItemError>
    requires input { IsInput context.now.table.now context.now.modules }
    requires here { IsPoint context.now.table.now context.now.modules state.old frame.old }
    requires shaped { HasItsShape builtin }
    ensures keeps { Keeps (tables_of state.old) (tables_of state.new) }
    ensures adds { Adds context.now.table.now (4 + first_cost context.now.table.now builtin.entry.first)
        (tables_of state.old) (tables_of state.new) }
    ensures trail { Trails frame.old.changes state.old.types.resources frame.new.changes state.new.types.resources }
    ensures same { frame.new.component_instance ≡ frame.old.component_instance }
    ensures steps { (i : Item) → ((now : Moment) → read_row context.now.table.now context.now.modules now i
        ≡ read_made context.now.table.now builtin.entry now)
        → StepsItem context.now.table.now context.now.modules i state.old frame.old state.new frame.new result }
{
    let core_type = context.signature(state, builtin.core)?;
    let first = first_part(context, state, &mut frame.converted, builtin.first)?;
    let second = second_part(context, state, frame, core_type, builtin.second)?;
    let parts = together(first, second);
    let id = declare(
        context,
        state,
        builtin.kind,
        frame.component_instance,
        core_type,
        parts,
    )?;
    frame.core_funcs.push(id)?;
    Ok(())
}

/// A builtin, a wait or a poll, or a builtin on error contexts.
pub fn step_builtin(
    context: &Context<'_>,
    state: &mut State<'_>,
    frame: &mut Frame,
    item: &CanonItem,
) -> Result<(), ItemError>
    requires input { IsInput context.now.table.now context.now.modules }
    requires here { IsPoint context.now.table.now context.now.modules state.old frame.old }
    ensures keeps { Keeps (tables_of state.old) (tables_of state.new) }
    ensures adds { Adds context.now.table.now (most_builtin context.now.table.now (canonical_item item.now))
        (tables_of state.old) (tables_of state.new) }
    ensures trail { Trails frame.old.changes state.old.types.resources frame.new.changes state.new.types.resources }
    ensures same { frame.new.component_instance ≡ frame.old.component_instance }
    ensures steps { (i : Item) → if_builtin (canonical_item item.now) ≡ Some i
        → StepsItem context.now.table.now context.now.modules i state.old frame.old state.new frame.new result }
{
    match builtin_of(item) {
        Some(builtin) => step_made(context, state, frame, builtin),
        // Never: each other function has a local item of its own.
        None => Err(ItemError::Fault(ItemFault::Invalid)),
    }
}

/// The builtin that ends a task with its result.
pub fn step_task_return(
    context: &Context<'_>,
    state: &mut State<'_>,
    frame: &mut Frame,
    core: u32,
    returned: Option<ValType>,
    opts: &Seq<CanonOption>,
) -> Result<(), ItemError>
    requires input { IsInput context.now.table.now context.now.modules }
    requires here { IsPoint context.now.table.now context.now.modules state.old frame.old }
    ensures keeps { Keeps (tables_of state.old) (tables_of state.new) }
    ensures adds { Adds context.now.table.now (most_returned context.now.table.now returned)
        (tables_of state.old) (tables_of state.new) }
    ensures trail { Trails frame.old.changes state.old.types.resources frame.new.changes state.new.types.resources }
    ensures same { frame.new.component_instance ≡ frame.old.component_instance }
    ensures steps { StepsItem context.now.table.now context.now.modules (task_return_item core returned opts.now)
        state.old frame.old state.new frame.new result }
{
    let builtin = Builtin {
        kind: TrampolineKind::TaskReturn,
        core,
        first: First::Results(returned),
        second: Second::Options(opts),
    };
    step_made(context, state, frame, builtin)
}

/// The builtin that makes a thread of a function in a table.
pub fn step_new_thread(
    context: &Context<'_>,
    state: &mut State<'_>,
    frame: &mut Frame,
    core: u32,
    start: u32,
    table: u32,
) -> Result<(), ItemError>
    requires input { IsInput context.now.table.now context.now.modules }
    requires here { IsPoint context.now.table.now context.now.modules state.old frame.old }
    ensures keeps { Keeps (tables_of state.old) (tables_of state.new) }
    ensures adds { Adds context.now.table.now 4 (tables_of state.old) (tables_of state.new) }
    ensures trail { Trails frame.old.changes state.old.types.resources frame.new.changes state.new.types.resources }
    ensures same { frame.new.component_instance ≡ frame.old.component_instance }
    ensures steps { StepsItem context.now.table.now context.now.modules (new_thread_item core start table)
        state.old frame.old state.new frame.new result }
{
    let builtin = Builtin {
        kind: TrampolineKind::ThreadNewIndirect,
        core,
        first: First::Number(start),
        second: Second::Table(table),
    };
    step_made(context, state, frame, builtin)
}
