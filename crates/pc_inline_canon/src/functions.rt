//! Functions: lift and lower.

ghost use Rattle.std.specs.Prelude.{◌≡◌};
ghost use Rattle.pc_spec_reading.specs.Item.{lift_item, lower_item};
ghost use Rattle.pc_inline_state.specs.Adds.{Adds, most_converted, most_lowered};
ghost use Rattle.pc_inline_state.specs.Points.{IsInput, IsPoint, StepsItem};
ghost use Rattle.pc_inline_state.specs.Tables.{Keeps, tables_of};
ghost use Rattle.pc_inline_state.specs.Trails.{Trails};

use crate::callee::callee_of;
use crate::lower::lower;
use crate::options::options_in;
use pc_inline_state::{Context, Definition, Frame, ItemError, ItemFault, State, at};
use pc_parsed::CanonOption;

/// A core function, lifted.
#[tactic(auto, using(crate::proofs::ConvertedLemmas::types_few))]
pub fn step_lift(
    context: &Context<'_>,
    state: &mut State<'_>,
    frame: &mut Frame,
    func: u32,
    ty: u32,
    core: u32,
    opts: &[CanonOption],
) -> Result<(), ItemError>
    requires input { IsInput context.now.table.now context.now.modules }
    requires here { IsPoint context.now.table.now context.now.modules state.old frame.old }
    ensures keeps { Keeps (tables_of state.old) (tables_of state.new) }
    ensures adds { Adds context.now.table.now (most_converted context.now.table.now 1)
        (tables_of state.old) (tables_of state.new) }
    ensures trail { Trails frame.old.changes state.old.types.resources frame.new.changes state.new.types.resources }
    ensures same { frame.new.component_instance ≡ frame.old.component_instance }
    ensures steps { StepsItem context.now.table.now context.now.modules (lift_item func ty core opts.now)
        state.old frame.old state.new frame.new result }
{
    let (ty, core_type) = context.function_types(state, &mut frame.converted, ty, core)?;
    let Some(func) = at(frame.core_funcs.as_slice(), func) else {
        return Err(ItemError::Fault(ItemFault::Invalid));
    };
    let Some(options) = options_in(frame, core_type, opts) else {
        return Err(ItemError::Fault(ItemFault::Invalid));
    };
    let id = state.push_definition(Definition::LiftedFunc { ty, func, options })?;
    frame.funcs.push(id)?;
    Ok(())
}

/// A function, lowered.
#[tactic(auto, using(crate::proofs::ConvertedLemmas::types_lowered))]
pub fn step_lower(
    context: &Context<'_>,
    state: &mut State<'_>,
    frame: &mut Frame,
    func: u32,
    ty: u32,
    core: u32,
    opts: &[CanonOption],
) -> Result<(), ItemError>
    requires input { IsInput context.now.table.now context.now.modules }
    requires here { IsPoint context.now.table.now context.now.modules state.old frame.old }
    ensures keeps { Keeps (tables_of state.old) (tables_of state.new) }
    ensures adds { Adds context.now.table.now (most_lowered context.now.table.now)
        (tables_of state.old) (tables_of state.new) }
    ensures trail { Trails frame.old.changes state.old.types.resources frame.new.changes state.new.types.resources }
    ensures same { frame.new.component_instance ≡ frame.old.component_instance }
    ensures steps { StepsItem context.now.table.now context.now.modules (lower_item func ty core opts.now)
        state.old frame.old state.new frame.new result }
{
    let (ty, core_type) = context.function_types(state, &mut frame.converted, ty, core)?;
    let Some(func) = at(frame.funcs.as_slice(), func) else {
        return Err(ItemError::Fault(ItemFault::Invalid));
    };
    let Some(options) = options_in(frame, core_type, opts) else {
        return Err(ItemError::Fault(ItemFault::Invalid));
    };
    let Some(callee) = callee_of(state, func) else {
        unreachable!()
    };
    let id = lower(context, state, callee, ty, options)?;
    frame.core_funcs.push(id)?;
    Ok(())
}
