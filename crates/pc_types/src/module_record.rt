//! What a translation needs to know of a core module.

ghost use Rattle.std.specs.Prelude.{◌≡◌, ◌<◌, length, count_by, nat_lt, slice_get};
ghost use Rattle.pc_types.specs.declared.parsed.CoreKind.TheVariants as kind;
ghost use Rattle.pc_types.specs.Record.{imported, defined, index_number, index_kind, imports_kind, import_place};
ghost use Rattle.pc_types.specs.Record.{imported_entity, export_of, func_signatures, memory_widths};

use crate::core_entity::entity_number;
use crate::parsed::{CoreEntity, CoreKind};
use pc_entity::{EntityIndex, FuncIndex, MemoryIndex, Seq, Text};

/// A core module: its imports, and what it defines and exports.
///
/// In each of the five index spaces the imported entities come first, in the order of `imports`.
#[derive(Drop)]
pub struct ModuleRecord {
    /// Module name, name and entity of each import.
    pub imports: Seq<(Text, Text, CoreEntity)>,
    /// The signature number of each defined function.
    pub funcs: Seq<u32>,
    /// How many tables the module defines.
    pub tables: u32,
    /// Whether each defined memory is 64-bit.
    pub memories: Seq<bool>,
    /// How many globals the module defines.
    pub globals: u32,
    /// How many tags the module defines.
    pub tags: u32,
    /// Name and entity of each export.
    pub exports: Seq<(Text, EntityIndex)>,
}

/// Questions to a record. They take no memory, and the time is that of a look through the imports.
impl ModuleRecord {
    /// How many entities of a kind are imported.
    pub fn imported(&self, kind: CoreKind) -> usize
        ensures { result ≡ imported self.now kind }
    {
        count_of_kind(self.imports.as_slice(), kind)
    }

    /// How many functions are imported.
    pub fn num_imported_funcs(&self) -> usize
        ensures { result ≡ imported self.now kind.Func }
    {
        self.imported(CoreKind::Func)
    }

    /// How many entities of a kind the module defines.
    pub fn defined(&self, kind: CoreKind) -> usize
        ensures { result ≡ defined self.now kind }
    {
        match kind {
            CoreKind::Func => self.funcs.len(),
            CoreKind::Table => self.tables as usize,
            CoreKind::Memory => self.memories.len(),
            CoreKind::Global => self.globals as usize,
            CoreKind::Tag => self.tags as usize,
        }
    }

    /// Whether an entity is imported: its number is below the number of imports of its kind.
    pub fn is_imported(&self, entity: EntityIndex) -> bool
        ensures { result ≡ nat_lt (index_number entity) (imported self.now (index_kind entity)) }
    {
        (entity_number(entity) as usize) < self.imported(CoreKind::of(entity))
    }

    /// The place among the imports of an imported entity.
    pub fn import_position(&self, entity: EntityIndex) -> Option<usize>
        ensures { result ≡ import_place self.now entity }
    {
        let kind = CoreKind::of(entity);
        let mut left = entity_number(entity);
        for (place, import) in self.imports.as_slice().iter().enumerate() {
            if import.2.kind().is(kind) {
                if left == 0 {
                    return Some(place);
                }
                left -= 1;
            }
        }
        None
    }

    /// What the nth import is, as an entity of the module.
    pub fn import_index(&self, position: usize) -> Option<EntityIndex>
        requires numbered { length self.now.imports < 4294967295 }
        ensures { result ≡ imported_entity self.now position }
    {
        let imports = self.imports.as_slice();
        if position >= imports.len() {
            return None;
        }
        let kind = imports[position].2.kind();
        let number = count_of_kind(&imports[..position], kind);
        Some(kind.entity(number as u32))
    }

    /// The entity of the first export of a name.
    pub fn export(&self, name: &str) -> Option<EntityIndex>
        ensures { result ≡ export_of self.now name.now }
    {
        for export in self.exports.as_slice() {
            if name == export.0.as_str() {
                return Some(export.1);
            }
        }
        None
    }

    /// The signature number of a function, imported or defined.
    pub fn func_sig(&self, f: FuncIndex) -> Option<u32>
        ensures { result ≡ slice_get (func_signatures self.now) f.0 }
    {
        let mut left = f.0;
        for import in self.imports.as_slice() {
            if let Some(signature) = import.2.signature() {
                if left == 0 {
                    return Some(signature);
                }
                left -= 1;
            }
        }
        at(self.funcs.as_slice(), left)
    }

    /// Whether a memory is 64-bit, imported or defined.
    pub fn memory64(&self, m: MemoryIndex) -> Option<bool>
        ensures { result ≡ slice_get (memory_widths self.now) m.0 }
    {
        let mut left = m.0;
        for import in self.imports.as_slice() {
            if let Some(wide) = import.2.memory64() {
                if left == 0 {
                    return Some(wide);
                }
                left -= 1;
            }
        }
        at(self.memories.as_slice(), left)
    }
}

/// How many of these imports are of a kind.
fn count_of_kind(imports: &[(Text, Text, CoreEntity)], kind: CoreKind) -> usize
    ensures { result ≡ count_by (imports_kind kind) imports.now }
{
    imports.iter().filter(|i| i.2.kind().is(kind)).count()
}

/// The item at a place.
fn at<T: Copy>(items: &[T], place: u32) -> Option<T>
    ensures { result ≡ slice_get items.now place }
{
    items.get(place as usize).copied()
}
