//! Where the imports of each kind stand.

ghost use Rattle.std.specs.Prelude.{◌≡◌, ◌++◌, ◌+◌, ◌<◌, ◌≤◌, length, slice_get, slice_range, IfOk, OnOk};
ghost use Rattle.pc_types.specs.ByKind.{of_kind};
ghost use Rattle.pc_types.specs.Record.{index_kind, index_number, places_from};
ghost use Rattle.pc_types_record.specs.Places.{ArePlacesOf};

use pc_entity::{EntityIndex, NoMemory, Seq, Text};
use pc_types::{ByKind, CoreEntity, CoreKind, entity_number};
use std::alloc::Global;
use std::marker::Model;

/// Where the imports of each kind stand in a list of imports, kept in one piece of memory. A contract sees the places of
/// each kind.
#[derive(Drop)]
pub struct ImportPlaces {
    /// One kind after the other.
    places: Seq<u32>,
    /// How many places there are up to the end of each kind.
    ends: ByKind<u32>,
}

impl Model for ImportPlaces {
    ghost use Rattle.std.specs.Prelude.{List, ℕ};
    ghost use Rattle.pc_types.specs.declared.by_kind.ByKind as by_kind;
    ghost use Rattle.pc_types_record.specs.Places.{AreEnds, parts};

    ghost Value = { by_kind.ByKind (List ℕ) };

    ghost view = { λ s. parts s.places s.ends };

    ghost invariant = { λ s. AreEnds s.places s.ends };
}

impl ImportPlaces {
    /// The places of these imports, found in time linear in their number.
    pub fn new(
        alloc: Global,
        imports: &[(Text, Text, CoreEntity)],
    ) -> Result<ImportPlaces, NoMemory>
        requires numbered { length imports.now < 4294967296 }
        ensures { IfOk result (λ places. ArePlacesOf imports.now places) }
    {
        let mut places = Seq::with_capacity(alloc, imports.len())?;
        let funcs = put(&mut places, imports, CoreKind::Func)?;
        let tables = put(&mut places, imports, CoreKind::Table)?;
        let memories = put(&mut places, imports, CoreKind::Memory)?;
        let globals = put(&mut places, imports, CoreKind::Global)?;
        let tags = put(&mut places, imports, CoreKind::Tag)?;
        Ok(ImportPlaces {
            places,
            ends: ByKind {
                funcs,
                tables,
                memories,
                globals,
                tags,
            },
        })
    }

    /// The places of a kind, in order.
    pub fn of(&self, kind: CoreKind) -> &[u32]
        ensures { result.now ≡ of_kind self.now kind }
    {
        let places = self.places.as_slice();
        match kind {
            CoreKind::Func => part(places, 0, self.ends.funcs),
            CoreKind::Table => part(places, self.ends.funcs, self.ends.tables),
            CoreKind::Memory => part(places, self.ends.tables, self.ends.memories),
            CoreKind::Global => part(places, self.ends.memories, self.ends.globals),
            CoreKind::Tag => part(places, self.ends.globals, self.ends.tags),
        }
    }

    /// How many imports there are of a kind.
    pub fn count(&self, kind: CoreKind) -> usize
        ensures { result ≡ length (of_kind self.now kind) }
    {
        self.of(kind).len()
    }

    /// The place of the import that is this entity, if it is imported.
    pub fn place(&self, entity: EntityIndex) -> Option<usize>
        ensures { result ≡ slice_get (of_kind self.now (index_kind entity)) (index_number entity) }
    {
        let places = self.of(CoreKind::of(entity));
        match places.get(entity_number(entity) as usize) {
            Some(place) => Some(*place as usize),
            None => None,
        }
    }
}

/// The items from a place up to another.
fn part(places: &[u32], start: u32, end: u32) -> &[u32]
    requires ordered { start ≤ end }
    requires within { end ≤ length places.now }
    ensures { result.now ≡ slice_range places.now start end }
{
    &places[start as usize..end as usize]
}

/// Appends the places of the imports of a kind, in order, and counts what there is then.
fn put(
    places: &mut Seq<u32>,
    imports: &[(Text, Text, CoreEntity)],
    kind: CoreKind,
) -> Result<u32, NoMemory>
    requires numbered { length imports.now < 4294967296 }
    requires room { length places.old + length (places_from kind 0 imports.now) < 4294967296 }
    ensures appended { OnOk result (places.new ≡ places.old ++ places_from kind 0 imports.now) }
    ensures count { IfOk result (λ count. count ≡ length places.new) }
{
    for (place, import) in imports.iter().enumerate() {
        if import.2.kind().is(kind) {
            places.push(place as u32)?;
        }
    }
    Ok(places.len() as u32)
}
