//! Copies of definitions.

use crate::support::holds;
use pc_entity::{
    EntityIndex, FuncIndex, HashedText, MemoryIndex, NoMemory, RuntimeInstanceIndex, Text, TryClone,
};
use pc_info::{CoreDef, CoreExport, ExportItem};
use std::alloc::Global;

/// An export that is known by its entity.
const NUMBERED: CoreExport<EntityIndex> = CoreExport {
    instance: RuntimeInstanceIndex(4294967295),
    item: ExportItem::Index(EntityIndex::Function(FuncIndex(3))),
};

/// An export of a kind of entity.
const MEMORY: CoreExport<MemoryIndex> = CoreExport {
    instance: RuntimeInstanceIndex(1),
    item: ExportItem::Index(MemoryIndex(2)),
};

/// Whether the copy of a value is equal to it.
fn is_copied<T: TryClone + PartialEq + Drop>(alloc: Global, source: T) -> bool {
    match source.try_clone(alloc) {
        Ok(copy) => copy == source,
        Err(_) => false,
    }
}

/// Whether an export that is known by its name is copied, and isn't the one that is known by its entity.
fn is_copied_by_name(alloc: Global) -> Result<bool, NoMemory> {
    let name = Text::copy_of(alloc, "a b")?;
    let source = CoreDef::Export(CoreExport {
        instance: RuntimeInstanceIndex(7),
        item: ExportItem::Name(HashedText::new(alloc, name)?),
    });
    let is_another = source != CoreDef::Export(NUMBERED);
    Ok(is_copied(alloc, source) & is_another)
}

#[test]
fn definitions_are_copied(rt: HostRuntime) {
    let by_name = is_copied_by_name(rt.alloc()).unwrap_or(false);
    holds(&rt, "by name", by_name);
    holds(&rt, "by entity", is_copied(rt.alloc(), NUMBERED));
    holds(&rt, "of one kind", is_copied(rt.alloc(), MEMORY));
}
