//! Questions to a module record, answered without a look through its imports.

ghost use Rattle.std.specs.Prelude.{◌≡◌, ◌<◌, ◌++◌, length, nat_lt, slice_get, IfOk};
ghost use Rattle.pc_types.specs.Record.{imported, index_number, index_kind, import_place, imported_entity, export_of};
ghost use Rattle.pc_types.specs.Record.{func_signatures, memory_widths};

use crate::import_index::ImportIndex;
use pc_entity::{EntityIndex, FuncIndex, MemoryIndex, NoMemory, Seed, TextMap, first_values};
use pc_types::{CoreKind, ModuleRecord, entity_number};
use std::alloc::Global;
use std::marker::Model;

/// A module record with an index of its imports and exports, made once. A contract sees the record, and each call
/// answers what the record's call of the same name does.
///
/// A call on imports takes constant time, and one on a name that of a look-up in a map.
#[derive(Drop)]
pub struct RecordIndex<'a> {
    record: &'a ModuleRecord,
    imports: ImportIndex,
    /// The entity of the first export of each name.
    exports: TextMap<EntityIndex>,
}

impl<'a> Model for RecordIndex<'a> {
    ghost use Rattle.pc_types.specs.declared.module_record.ModuleRecord.{ModuleRecord};
    ghost use Rattle.pc_types_record.specs.Index.{IsIndex};

    ghost Value = { ModuleRecord };

    ghost view = { λ s. s.record.now };

    ghost invariant = { IsIndex };
}

impl<'a> RecordIndex<'a> {
    /// The index of a record, made in time linear in the record.
    pub fn new(
        alloc: Global,
        seed: Seed,
        record: &'a ModuleRecord,
    ) -> Result<RecordIndex<'a>, NoMemory>
        requires numbered { length record.now.imports < 4294967295 }
        ensures { IfOk result (λ index. index ≡ record.now) }
    {
        let imports = ImportIndex::new(alloc, record.imports.as_slice())?;
        let exports = first_values(alloc, seed, record.exports.as_slice())?;
        Ok(RecordIndex {
            record,
            imports,
            exports,
        })
    }

    /// The record itself.
    pub fn record(&self) -> &'a ModuleRecord
        ensures { result.now ≡ self.now }
    {
        self.record
    }

    /// How many entities of a kind are imported.
    pub fn imported(&self, kind: CoreKind) -> usize
        ensures { result ≡ imported self.now kind }
    {
        self.imports.positions.count(kind)
    }

    /// Whether an entity is imported.
    pub fn is_imported(&self, entity: EntityIndex) -> bool
        ensures { result ≡ nat_lt (index_number entity) (imported self.now (index_kind entity)) }
    {
        (entity_number(entity) as usize) < self.imported(CoreKind::of(entity))
    }

    /// The place among the imports of an imported entity.
    pub fn import_position(&self, entity: EntityIndex) -> Option<usize>
        ensures { result ≡ import_place self.now entity }
    {
        self.imports.positions.place(entity)
    }

    /// What the nth import is, as an entity of the module.
    pub fn import_index(&self, position: usize) -> Option<EntityIndex>
        ensures { result ≡ imported_entity self.now position }
    {
        item(self.imports.entities.as_slice(), position)
    }

    /// The entity of the first export of a name.
    pub fn export(&self, name: &str) -> Option<EntityIndex>
        ensures { result ≡ export_of self.now name.now }
    {
        self.exports.get(name).copied()
    }

    /// The signature number of a function, imported or defined.
    pub fn func_sig(&self, f: FuncIndex) -> Option<u32>
        ensures { result ≡ slice_get (func_signatures self.now) f.0 }
    {
        at(
            self.imports.signatures.as_slice(),
            self.record.funcs.as_slice(),
            f.0,
        )
    }

    /// Whether a memory is 64-bit, imported or defined.
    pub fn memory64(&self, m: MemoryIndex) -> Option<bool>
        ensures { result ≡ slice_get (memory_widths self.now) m.0 }
    {
        at(
            self.imports.widths.as_slice(),
            self.record.memories.as_slice(),
            m.0,
        )
    }
}

/// The item at a place of two lists, one behind the other.
fn at<T: Copy>(first: &[T], second: &[T], place: u32) -> Option<T>
    ensures { result ≡ slice_get (first.now ++ second.now) place }
{
    let place = place as usize;
    if place < first.len() {
        item(first, place)
    } else {
        item(second, place - first.len())
    }
}

/// The item at a place.
fn item<T: Copy>(items: &[T], place: usize) -> Option<T>
    ensures { result ≡ slice_get items.now place }
{
    items.get(place).copied()
}
