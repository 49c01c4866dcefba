//! Kinds and numbers of core entities.

ghost use Rattle.std.specs.Prelude.{◌≡◌};
ghost use Rattle.pc_types.specs.Record.{same_kind, kind_of, index_kind, index_number, entity_at, signature_in};
ghost use Rattle.pc_types.specs.Record.{width_in};

use crate::{CoreEntity, CoreKind};
use pc_entity::{EntityIndex, FuncIndex, GlobalIndex, MemoryIndex, TableIndex, TagIndex};

impl CoreKind {
    /// Whether two kinds are one.
    pub fn is(self, other: CoreKind) -> bool
        ensures { result ≡ same_kind self other }
    {
        matches!(
            (self, other),
            (CoreKind::Func, CoreKind::Func)
                | (CoreKind::Table, CoreKind::Table)
                | (CoreKind::Memory, CoreKind::Memory)
                | (CoreKind::Global, CoreKind::Global)
                | (CoreKind::Tag, CoreKind::Tag)
        )
    }

    /// The entity of this kind with this number.
    pub fn entity(self, number: u32) -> EntityIndex
        ensures { result ≡ entity_at self number }
    {
        match self {
            CoreKind::Func => EntityIndex::Function(FuncIndex(number)),
            CoreKind::Table => EntityIndex::Table(TableIndex(number)),
            CoreKind::Memory => EntityIndex::Memory(MemoryIndex(number)),
            CoreKind::Global => EntityIndex::Global(GlobalIndex(number)),
            CoreKind::Tag => EntityIndex::Tag(TagIndex(number)),
        }
    }

    /// The kind of an entity.
    pub fn of(entity: EntityIndex) -> CoreKind
        ensures { result ≡ index_kind entity }
    {
        match entity {
            EntityIndex::Function(_) => CoreKind::Func,
            EntityIndex::Table(_) => CoreKind::Table,
            EntityIndex::Memory(_) => CoreKind::Memory,
            EntityIndex::Global(_) => CoreKind::Global,
            EntityIndex::Tag(_) => CoreKind::Tag,
        }
    }
}

/// The number of an entity among those of its kind.
pub fn entity_number(entity: EntityIndex) -> u32
    ensures { result ≡ index_number entity }
{
    match entity {
        EntityIndex::Function(i) => i.0,
        EntityIndex::Table(i) => i.0,
        EntityIndex::Memory(i) => i.0,
        EntityIndex::Global(i) => i.0,
        EntityIndex::Tag(i) => i.0,
    }
}

impl CoreEntity {
    /// The kind of what is imported or exported.
    pub fn kind(self) -> CoreKind
        ensures { result ≡ kind_of self }
    {
        match self {
            CoreEntity::Func(_) => CoreKind::Func,
            CoreEntity::Table => CoreKind::Table,
            CoreEntity::Memory { memory64: _ } => CoreKind::Memory,
            CoreEntity::Global => CoreKind::Global,
            CoreEntity::Tag => CoreKind::Tag,
        }
    }

    /// The signature number of a function.
    pub fn signature(self) -> Option<u32>
        ensures { result ≡ signature_in self }
    {
        match self {
            CoreEntity::Func(signature) => Some(signature),
            _ => None,
        }
    }

    /// Whether a memory is 64-bit.
    pub fn memory64(self) -> Option<bool>
        ensures { result ≡ width_in self }
    {
        match self {
            CoreEntity::Memory { memory64 } => Some(memory64),
            _ => None,
        }
    }
}
