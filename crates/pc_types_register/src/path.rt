//! The path to a place of a walk, written out.

ghost use Rattle.std.specs.Prelude.{◌≡◌, ◌≤◌, List, IfOk, Some, length, slice_get};
ghost use Rattle.pc_types_walk.specs.Walks.{AreNamed};

use pc_entity::{NoMemory, Text, TryClone};
use pc_types::TypeTable;
use pc_types_walk::Place;
use std::alloc::Global;

/// The names of the exports that lead to a place. Takes time by their number.
pub(crate) fn path_to(
    alloc: Global,
    table: &TypeTable,
    places: &[Place],
    place: usize,
) -> Result<Vec<Text>, NoMemory>
    requires named { (names : _) × AreNamed table.now places.now names }
    requires there { place ≤ length places.now }
    ensures { IfOk result (λ path. (names : List (List (List _))) → AreNamed table.now places.now names
        → slice_get names place ≡ Some path.items) }
{
    let mut path = Vec::new(alloc);
    let mut at = place;
    'up: while at > 0 {
        let step = places[at - 1];
        match step.export(table) {
            Some(export) => path.push(export.0.try_clone(alloc)?)?,
            None => unreachable!(),
        }
        at = step.parent;
    }
    path.reverse();
    Ok(path)
}
