//! Whether a module record fits a type table.

ghost use Rattle.std.specs.Prelude.{◌≡◌, IfOk, ◌&&◌};
ghost use Rattle.std.specs.List.{list_all};
ghost use Rattle.pc_types.specs.Record.{imported, is_typed, has_signature, is_within, has_entity, is_sound};
ghost use Rattle.pc_types.specs.ByKind.{of_kind};
ghost use Rattle.pc_types.specs.declared.parsed.CoreKind.{CoreKind};
ghost use Rattle.pc_types.specs.declared.parsed.CoreKind.TheVariants as kind;

use crate::core_entity::entity_number;
use crate::distinct::distinct_keys;
use crate::{ByKind, CoreEntity, CoreKind, ModuleRecord, TypeTable};
use pc_entity::{EntityIndex, NoMemory, Seed, Text};
use std::alloc::Global;

/// The most entities of one kind that a module may have.
pub const MAX_ENTITIES: usize = 1000000;

impl TypeTable {
    /// Whether this is the number of a core signature.
    pub fn has_signature(&self, number: u32) -> bool
        ensures { result ≡ has_signature self.now number }
    {
        (number as usize) < self.core_funcs.len()
    }

    /// Whether an entity, if it is a function, names a core signature.
    pub fn is_typed(&self, entity: CoreEntity) -> bool
        ensures { result ≡ is_typed self.now entity }
    {
        match entity {
            CoreEntity::Func(signature) => self.has_signature(signature),
            _ => true,
        }
    }

    /// Whether each imported function names a core signature.
    pub(crate) fn imports_are_typed(&self, imports: &[(Text, Text, CoreEntity)]) -> bool
        ensures { result ≡ list_all (λ i. is_typed self.now i.2) imports.now }
    {
        imports.iter().all(|i| self.is_typed(i.2))
    }
}

impl ModuleRecord {
    /// Whether the record can be translated with this table: its signatures are held, it has at most a million entities
    /// of a kind, each export is an entity that it has, and no name is exported twice.
    pub fn is_sound(&self, alloc: Global, seed: Seed, table: &TypeTable) -> Result<bool, NoMemory>
        ensures { IfOk result (λ sound. sound ≡ is_sound table.now self.now) }
    {
        let distinct = distinct_keys(alloc, seed, self.exports.as_slice())?;
        Ok(
            table.imports_are_typed(self.imports.as_slice())
                && self.funcs_are_typed(table)
                && self.is_small()
                && self.has_exports()
                && distinct,
        )
    }

    /// Whether each defined function names a core signature.
    fn funcs_are_typed(&self, table: &TypeTable) -> bool
        ensures { result ≡ list_all (has_signature table.now) self.now.funcs }
    {
        self.funcs.iter().all(|s| table.has_signature(*s))
    }

    /// Whether the module has at most a million entities of each kind.
    fn is_small(&self) -> bool
        ensures { result
            ≡ (is_within self.now kind.Func && is_within self.now kind.Table && is_within self.now kind.Memory
            && is_within self.now kind.Global && is_within self.now kind.Tag) }
    {
        self.is_within(CoreKind::Func)
            && self.is_within(CoreKind::Table)
            && self.is_within(CoreKind::Memory)
            && self.is_within(CoreKind::Global)
            && self.is_within(CoreKind::Tag)
    }

    /// Whether it has at most a million of this kind.
    fn is_within(&self, kind: CoreKind) -> bool
        ensures { result ≡ is_within self.now kind }
    {
        let imported = self.imported(kind);
        imported <= MAX_ENTITIES && self.defined(kind) <= MAX_ENTITIES - imported
    }

    /// Whether it has each entity that it exports.
    fn has_exports(&self) -> bool
        ensures { result ≡ list_all (λ e. has_entity self.now e.1) self.now.exports }
    {
        let counts = self.import_counts();
        self.has_all_exports(&counts)
    }

    /// The same, where it was counted how many entities of each kind are imported.
    fn has_all_exports(&self, counts: &ByKind<usize>) -> bool
        requires counted { (k : CoreKind) → of_kind counts.now k ≡ imported self.now k }
        ensures { result ≡ list_all (λ e. has_entity self.now e.1) self.now.exports }
    {
        for export in self.exports.as_slice() {
            if !self.has_entity(counts, export.1) {
                return false;
            }
        }
        true
    }

    /// How many entities of each kind are imported, counted once.
    fn import_counts(&self) -> ByKind<usize>
        ensures { (k : CoreKind) → of_kind result k ≡ imported self.now k }
    {
        ByKind {
            funcs: self.imported(CoreKind::Func),
            tables: self.imported(CoreKind::Table),
            memories: self.imported(CoreKind::Memory),
            globals: self.imported(CoreKind::Global),
            tags: self.imported(CoreKind::Tag),
        }
    }

    /// Whether it has an entity, where it was counted how many of each kind are imported.
    fn has_entity(&self, counts: &ByKind<usize>, entity: EntityIndex) -> bool
        requires counted { (k : CoreKind) → of_kind counts.now k ≡ imported self.now k }
        ensures { result ≡ has_entity self.now entity }
    {
        let kind = CoreKind::of(entity);
        let number = entity_number(entity) as usize;
        let imported = *counts.of(kind);
        number < imported || number - imported < self.defined(kind)
    }
}
