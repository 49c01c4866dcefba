//! What the entities of a core module are, for those that ask for each argument of an instance.

ghost use Rattle.std.specs.Prelude.{◌≡◌, ◌<◌, length, IfOk};
ghost use Rattle.pc_types.specs.Record.{defined, import_place, imported};

use pc_entity::{EntityIndex, NoMemory};
use pc_types::{CoreKind, ModuleRecord};
use pc_types_record::ImportPlaces;
use std::alloc::Global;
use std::marker::Model;

/// A module record with the places of its imports. A contract sees the record, and each call answers what the record's
/// call of the same name does, in constant time.
#[derive(Drop)]
pub(crate) struct ImportIndex<'a> {
    core_module: &'a ModuleRecord,
    places: ImportPlaces,
}

impl<'a> Model for ImportIndex<'a> {
    ghost use Rattle.pc_types.specs.declared.module_record.ModuleRecord.{ModuleRecord};
    ghost use Rattle.pc_types_record.specs.Places.{ArePlacesOf};

    ghost Value = { ModuleRecord };

    ghost view = { λ s. s.core_module.now };

    ghost invariant = { λ s. ArePlacesOf s.core_module.now.imports s.places };
}

impl<'a> ImportIndex<'a> {
    /// The index of a record, made in time linear in its imports.
    pub(crate) fn new(
        alloc: Global,
        core_module: &'a ModuleRecord,
    ) -> Result<ImportIndex<'a>, NoMemory>
        requires numbered { length core_module.now.imports < 4294967295 }
        ensures { IfOk result (λ index. index ≡ core_module.now) }
    {
        let places = ImportPlaces::new(alloc, core_module.imports.as_slice())?;
        Ok(ImportIndex {
            core_module,
            places,
        })
    }

    /// How many entities of a kind are imported.
    pub(crate) fn imported(&self, kind: CoreKind) -> usize
        ensures { result ≡ imported self.now kind }
    {
        self.places.count(kind)
    }

    /// How many entities of a kind the module defines.
    pub(crate) fn defined(&self, kind: CoreKind) -> usize
        ensures { result ≡ defined self.now kind }
    {
        self.core_module.defined(kind)
    }

    /// The place among the imports of an imported entity.
    pub(crate) fn import_position(&self, entity: EntityIndex) -> Option<usize>
        ensures { result ≡ import_place self.now entity }
    {
        self.places.place(entity)
    }
}
