//! The places of a walk that lead to some of its resources.
//!
//! Many imports may lead to resources that are known already, each over many places. Only the places on the way to the
//! others get paths: so a place gets one for the first import that leads to its resource, and not for each.

ghost use Rattle.std.specs.Prelude.{◌≡◌, ◌<◌, ◌+◌, List, ℕ, true, IfOk, OnOk, length, map, slice_set};
ghost use Rattle.pc_types.specs.declared.parsed.TypeTable.{TypeTable};
ghost use Rattle.pc_types_walk.specs.Walks.{AreNamed};
ghost use Rattle.pc_inline_imports.specs.Brings.{AllBelow};
ghost use Rattle.pc_inline_imports.specs.Trims.{AreBehind, AreMarked, FoundMarked, KeepsMarked, KeepsPlace, MarksParent};
ghost use Rattle.pc_inline_imports.specs.Trims.{ParentsMarked, Trims, moved_by};

use pc_entity::{NoMemory, Seq};
use pc_types_walk::{Found, Place};
use std::alloc::Global;

/// Places, each behind its parent, and resources that stand at some of them.
#[derive(Drop)]
pub(crate) struct Trimmed {
    pub(crate) places: Seq<Place>,
    pub(crate) found: Seq<Found>,
}

/// A place is marked.
fn mark(marks: &mut Vec<bool>, place: usize)
    requires there { place < length marks.old.items }
    ensures { marks.new.items ≡ slice_set marks.old.items place true }
{
    marks[place] = true;
}

/// The parent of a place is marked, if the place is.
fn mark_parent(marks: &mut Vec<bool>, number: usize, place: &Place)
    requires there { number < length marks.old.items }
    requires parent { place.now.parent < length marks.old.items }
    ensures { MarksParent number place.now marks.old.items marks.new.items }
{
    if marks[number] {
        mark(marks, place.parent);
    }
}

/// The places at which these resources stand are marked.
fn mark_found(marks: &mut Vec<bool>, found: &[Found])
    requires below { AllBelow (length marks.old.items) found.now }
    ensures { FoundMarked (length marks.old.items) found.now (length found.now) marks.new.items }
{
    for one in found {
        mark(marks, one.place);
    }
}

/// The parents of places that are marked are marked.
fn mark_parents(marks: &mut Vec<bool>, places: &[Place])
    requires behind { AreBehind places.now }
    requires count { length marks.old.items ≡ length places.now + 1 }
    ensures { ParentsMarked places.now 0 marks.old.items marks.new.items }
{
    let mut left = places.len();
    while left > 0 {
        left -= 1;
        mark_parent(marks, left + 1, &places[left]);
    }
}

/// The places at which these resources stand, and all on the way to them.
fn marked(alloc: Global, places: &[Place], found: &[Found]) -> Result<Vec<bool>, NoMemory>
    requires behind { AreBehind places.now }
    requires below { AllBelow (length places.now + 1) found.now }
    ensures { IfOk result (λ marks. AreMarked places.now found.now marks.items) }
{
    let mut marks = vec![in alloc; false; places.len() + 1]?;
    mark_found(&mut marks, found);
    mark_parents(&mut marks, places);
    Ok(marks)
}

/// The place at a number goes to the end of those that are kept, if it is marked, and gets the number that it has there.
fn keep_place(
    kept: &mut Seq<Place>,
    numbers: &mut Vec<usize>,
    place: &Place,
    is_marked: bool,
) -> Result<(), NoMemory>
    requires parent { place.now.parent < length numbers.old.items }
    ensures { OnOk result (KeepsPlace place.now is_marked kept.old numbers.old.items kept.new numbers.new.items) }
{
    if is_marked {
        kept.push(Place {
            parent: numbers[place.parent],
            entry: place.entry,
            export: place.export,
        })?;
        numbers.push(kept.len())?;
        return Ok(());
    }
    numbers.push(0)?;
    Ok(())
}

/// The places that are marked, and the number that each has among them.
fn kept_places(
    alloc: Global,
    places: &[Place],
    marks: &[bool],
) -> Result<(Seq<Place>, Vec<usize>), NoMemory>
    requires behind { AreBehind places.now }
    requires count { length marks.now ≡ length places.now + 1 }
    ensures kept { IfOk result (λ kept. (t : TypeTable) (found : List Found) (names : List (List (List ℕ)))
        → AreMarked places.now found marks.now → AreNamed t places.now names
        → KeepsMarked t names marks.now kept.0 kept.1.items) }
    ensures count { IfOk result (λ kept. length kept.1.items ≡ length places.now + 1) }
{
    let mut kept = Seq::new(alloc);
    let mut numbers = Vec::new(alloc);
    numbers.push(0)?;
    for (number, place) in places.iter().enumerate() {
        keep_place(&mut kept, &mut numbers, place, marks[number + 1])?;
    }
    Ok((kept, numbers))
}

/// Resources at the numbers that their places have among those that are kept.
fn moved(alloc: Global, found: &[Found], numbers: &[usize]) -> Result<Seq<Found>, NoMemory>
    requires below { AllBelow (length numbers.now) found.now }
    ensures { IfOk result (λ moved. moved ≡ map (moved_by numbers.now) found.now) }
{
    let mut moved = Seq::new(alloc);
    for one in found {
        moved.push(Found {
            number: one.number,
            place: numbers[one.place],
        })?;
    }
    Ok(moved)
}

/// The places that lead to these resources, and the resources at them.
pub(crate) fn trim(alloc: Global, places: &[Place], found: &[Found]) -> Result<Trimmed, NoMemory>
    requires behind { AreBehind places.now }
    requires below { AllBelow (length places.now + 1) found.now }
    ensures { IfOk result (λ trimmed. (t : TypeTable) (names : List (List (List ℕ))) → AreNamed t places.now names
        → Trims t names found.now trimmed.places trimmed.found) }
{
    let marks = marked(alloc, places, found)?;
    let (places, numbers) = kept_places(alloc, places, marks.as_slice())?;
    let found = moved(alloc, found, numbers.as_slice())?;
    Ok(Trimmed { places, found })
}
