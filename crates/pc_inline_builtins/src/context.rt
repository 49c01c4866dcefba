//! Context slots: unsafe intrinsics read and write them.

ghost use Rattle.std.specs.Prelude.{◌≡◌, Some, option_map};
ghost use Rattle.pc_types.specs.IntrinsicType.{intrinsic_place};
ghost use Rattle.pc_spec_reading.specs.Functions.{slot_place};
ghost use Rattle.pc_spec_reading.specs.Item.{Item};
ghost use Rattle.pc_local.specs.Plain.{context_of};
ghost use Rattle.pc_inline_state.specs.Adds.{Adds};
ghost use Rattle.pc_inline_state.specs.Points.{IsInput, IsPoint, StepsItem};
ghost use Rattle.pc_inline_state.specs.Tables.{Keeps, tables_of};
ghost use Rattle.pc_inline_state.specs.Trails.{Trails};
ghost use Rattle.pc_inline_builtins.specs.Contexts.{access_of, slot_item};

use pc_inline_canon::add_intrinsic;
use pc_inline_state::{Context, Frame, ItemError, ItemFault, State};
use pc_parsed::CanonItem;
use pc_types::{UnsafeIntrinsic, WasmValType};

/// Whether a slot is read or written.
#[derive(Clone, Copy)]
pub(crate) enum Access {
    Get,
    Set,
}

/// A context slot that is read or written, under the core signature of this number.
#[derive(Clone, Copy)]
pub(crate) struct Slot {
    pub access: Access,
    pub core: u32,
    pub slot: u32,
}

/// The slot that a canonical function reads or writes, if it does that.
fn slot_of(item: &CanonItem) -> Option<Slot>
    ensures { option_map slot_item result ≡ context_of item.now }
{
    match item {
        CanonItem::ContextGet(core, WasmValType::I32, slot) => Some(Slot {
            access: Access::Get,
            core: *core,
            slot: *slot,
        }),
        CanonItem::ContextSet(core, WasmValType::I32, slot) => Some(Slot {
            access: Access::Set,
            core: *core,
            slot: *slot,
        }),
        _ => None,
    }
}

/// The intrinsic that reads or writes a slot, of which there are two.
fn slot_intrinsic(access: Access, slot: u32) -> Option<UnsafeIntrinsic>
    ensures { option_map intrinsic_place result ≡ slot_place (access_of access) slot }
{
    match access {
        Access::Get => match slot {
            0 => Some(UnsafeIntrinsic::ContextGetI32_0),
            1 => Some(UnsafeIntrinsic::ContextGetI32_1),
            _ => None,
        },
        Access::Set => match slot {
            0 => Some(UnsafeIntrinsic::ContextSetI32_0),
            1 => Some(UnsafeIntrinsic::ContextSetI32_1),
            _ => None,
        },
    }
}

/// The read or the write of a slot.
fn step_slot(
    context: &Context<'_>,
    state: &mut State<'_>,
    frame: &mut Frame,
    slot: Slot,
) -> Result<(), ItemError>
    requires input { IsInput context.now.table.now context.now.modules }
    requires here { IsPoint context.now.table.now context.now.modules state.old frame.old }
    ensures keeps { Keeps (tables_of state.old) (tables_of state.new) }
    ensures adds { Adds context.now.table.now 4 (tables_of state.old) (tables_of state.new) }
    ensures trail { Trails frame.old.changes state.old.types.resources frame.new.changes state.new.types.resources }
    ensures same { frame.new.component_instance ≡ frame.old.component_instance }
    ensures steps { StepsItem context.now.table.now context.now.modules (slot_item slot)
        state.old frame.old state.new frame.new result }
{
    let core_type = context.signature(state, slot.core)?;
    let Some(intrinsic) = slot_intrinsic(slot.access, slot.slot) else {
        return Err(ItemError::Fault(ItemFault::Invalid));
    };
    let id = add_intrinsic(state, intrinsic, core_type)?;
    frame.core_funcs.push(id)?;
    Ok(())
}

/// A read or a write of a context slot.
pub fn step_context(
    context: &Context<'_>,
    state: &mut State<'_>,
    frame: &mut Frame,
    item: &CanonItem,
) -> Result<(), ItemError>
    requires input { IsInput context.now.table.now context.now.modules }
    requires here { IsPoint context.now.table.now context.now.modules state.old frame.old }
    ensures keeps { Keeps (tables_of state.old) (tables_of state.new) }
    ensures adds { Adds context.now.table.now 4 (tables_of state.old) (tables_of state.new) }
    ensures trail { Trails frame.old.changes state.old.types.resources frame.new.changes state.new.types.resources }
    ensures same { frame.new.component_instance ≡ frame.old.component_instance }
    ensures steps { (i : Item) → context_of item.now ≡ Some i
        → StepsItem context.now.table.now context.now.modules i state.old frame.old state.new frame.new result }
{
    match slot_of(item) {
        Some(slot) => step_slot(context, state, frame, slot),
        // Never: no other function is a local item of this kind.
        None => Err(ItemError::Fault(ItemFault::Invalid)),
    }
}
