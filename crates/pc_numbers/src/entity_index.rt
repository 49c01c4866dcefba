//! Which entity of a core module is meant.

ghost use Rattle.std.proofs.Common.{rules};

use crate::{
    ExactEq, FuncIndex, GlobalIndex, MemoryIndex, NoMemory, TableIndex, TagIndex, TryClone,
};
use std::alloc::Global;

/// An entity of a core module: its kind, and its number among those of that kind.
#[derive(Clone, Copy, PartialEq, Eq, Hash)]
pub enum EntityIndex {
    Function(FuncIndex),
    Table(TableIndex),
    Memory(MemoryIndex),
    Global(GlobalIndex),
    Tag(TagIndex),
}

impl TryClone for EntityIndex {
    fn try_clone(&self, _alloc: Global) -> Result<EntityIndex, NoMemory> {
        Ok(*self)
    }
}

impl ExactEq for EntityIndex {
    ghost exact = { Prim.search rules };
}
