//! A core instance from items.

ghost use Rattle.std.specs.Prelude.{◌≡◌, length, IfOk};
ghost use Rattle.pc_entity.specs.Lists.{AreDistinct, map_all, names_of};
ghost use Rattle.pc_spec_reading.specs.Item.{core_exports_item};
ghost use Rattle.pc_spec_reading.specs.Modules.{bag_entry};
ghost use Rattle.pc_spec_reading.specs.Scope.{Scope};
ghost use Rattle.pc_inline_names.specs.Both.{Both};
ghost use Rattle.pc_inline_names.specs.Numbers.{AreNumbersOf, SameNamed};
ghost use Rattle.pc_inline_state.specs.Frames.{BagItemStands, FrameStands};
ghost use Rattle.pc_inline_state.specs.Points.{StepsItem};
ghost use Rattle.pc_inline_state.specs.Tables.{Tables};

use pc_entity::{Atom, EntityIndex, NoMemory, Text};
use pc_inline_names::AtomMap;
use pc_inline_state::{Context, CoreId, CoreInstance, Frame, ItemError, ItemFault, State};
use pc_types::{CoreKind, entity_number};

/// Core items by the numbers of their names, or nothing where an index is missing. Of a name that stands twice the first
/// counts.
fn bag_of(
    context: &Context<'_>,
    frame: &Frame,
    items: &[(Text, EntityIndex)],
    numbers: &[Atom],
) -> Result<Option<AtomMap<(CoreKind, CoreId)>>, NoMemory>
    requires many { length numbers.now ≡ length items.now }
    ensures { IfOk result (λ made. (b : Tables) (s : Scope) → FrameStands context.now.modules b frame.now s
        → AreDistinct b.names.texts → AreNumbersOf b.names.texts (names_of items.now) numbers.now
        → Both (SameNamed b.names.texts (BagItemStands context.now.modules b)) made
        (map_all (bag_entry s) items.now)) }
{
    let mut bag = AtomMap::new(context.alloc, context.seed);
    for (place, item) in items.iter().enumerate() {
        let kind = CoreKind::of(item.1);
        let Some(&id) = frame.core_ids(kind).get(entity_number(item.1) as usize) else {
            return Ok(None);
        };
        bag.insert_first(numbers[place], (kind, id))?;
    }
    Ok(Some(bag))
}

/// A core instance from items of the component instance, which go under the numbers of their names.
pub fn step_core_exports(
    context: &Context<'_>,
    state: &State<'_>,
    frame: &mut Frame,
    items: &[(Text, EntityIndex)],
    numbers: &[Atom],
) -> Result<(), ItemError>
    requires numbered { AreNumbersOf state.now.names.now.texts (names_of items.now) numbers.now }
    ensures changes { frame.new.changes ≡ frame.old.changes }
    ensures same { frame.new.component_instance ≡ frame.old.component_instance }
    ensures steps { StepsItem context.now.table.now context.now.modules (core_exports_item items.now)
        state.now frame.old state.now frame.new result }
{
    match bag_of(context, frame, items, numbers)? {
        Some(bag) => Ok(frame.core_instances.push(CoreInstance::Bag(bag))?),
        None => Err(ItemError::Fault(ItemFault::Invalid)),
    }
}
