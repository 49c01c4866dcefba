//! What the entities of a core module are, for those that ask often.
//!
//! `RecordIndex` of `pc_types_record` knows the exports too, by name. Here none is asked for.

ghost use Rattle.std.specs.Prelude.{◌≡◌, ◌<◌, length, IfOk};
ghost use Rattle.pc_types.specs.declared.parsed.CoreKind.TheVariants as kind;
ghost use Rattle.pc_types.specs.ByKind.{of_kind};
ghost use Rattle.pc_analysis_contexts.specs.Indexed.{AreDefinedOf, AreIndexes, IsIndex, defines, place_in};
ghost use Rattle.pc_analysis_contexts.specs.Recorded.{HaveFewImports, records_of};
ghost use Rattle.pc_analysis_contexts.specs.Shared.{HaveFew};

use pc_entity::{EntityIndex, NoMemory, PrimaryMap, StaticModuleIndex};
use pc_info::ModuleTranslation;
use pc_types::{ByKind, CoreKind, ModuleRecord, entity_number};
use pc_types_record::ImportPlaces;
use std::alloc::Global;

/// Where the imports of each kind stand in a module, and how many entities of it the module defines.
#[derive(Drop)]
pub(crate) struct ImportIndex {
    places: ImportPlaces,
    defined: ByKind<usize>,
}

impl ImportIndex {
    /// The index of a record, made in time linear in its imports.
    fn new(alloc: Global, core_module: &ModuleRecord) -> Result<ImportIndex, NoMemory>
        requires numbered { length core_module.now.imports < 4294967295 }
        ensures { IfOk result (IsIndex core_module.now) }
    {
        let places = ImportPlaces::new(alloc, core_module.imports.as_slice())?;
        let defined = all_defined(core_module);
        Ok(ImportIndex { places, defined })
    }

    /// The place among the imports of an imported entity.
    pub(crate) fn position(&self, entity: EntityIndex) -> Option<usize>
        ensures { result ≡ place_in self.now entity }
    {
        self.places.place(entity)
    }

    /// Whether the module defines an entity.
    pub(crate) fn defines(&self, entity: EntityIndex) -> bool
        ensures { result ≡ defines self.now entity }
    {
        let kind = CoreKind::of(entity);
        let imported = self.places.count(kind);
        let number = entity_number(entity) as usize;
        imported <= number && number - imported < *self.defined.of(kind)
    }

    /// The places of the imported functions.
    pub(crate) fn functions(&self) -> &[u32]
        ensures { result.now ≡ of_kind self.now.places kind.Func }
    {
        self.places.of(CoreKind::Func)
    }
}

/// How many entities of each kind a module defines.
fn all_defined(core_module: &ModuleRecord) -> ByKind<usize>
    ensures { AreDefinedOf core_module.now result }
{
    ByKind {
        funcs: core_module.defined(CoreKind::Func),
        tables: core_module.defined(CoreKind::Table),
        memories: core_module.defined(CoreKind::Memory),
        globals: core_module.defined(CoreKind::Global),
        tags: core_module.defined(CoreKind::Tag),
    }
}

/// The index of each module.
pub(crate) fn indexes(
    alloc: Global,
    modules: &PrimaryMap<StaticModuleIndex, ModuleTranslation>,
) -> Result<Vec<ImportIndex>, NoMemory>
    requires few { HaveFewImports (records_of modules.now) }
    ensures all { IfOk result (λ found. AreIndexes (records_of modules.now) found.items) }
    ensures few { IfOk result (λ found. HaveFew found.items) }
{
    let mut found = Vec::with_capacity(alloc, modules.len())?;
    for held in modules.as_slice() {
        found.push(ImportIndex::new(alloc, held.module.get())?)?;
    }
    Ok(found)
}
