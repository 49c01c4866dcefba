//! Items as definitions, and how they are mapped.

use crate::items::{is_named, items_are_definitions};
use crate::support::holds;
use pc_dfg::{CoreDef, CoreExport, ExportItem, InstanceId};
use pc_entity::{
    EntityIndex, FuncIndex, GlobalIndex, HashedText, MemoryIndex, NoMemory, TableIndex, TagIndex,
    Text,
};
use std::alloc::Global;

/// An item of core instance 1.
fn item_of<T>(item: T) -> CoreExport<T> {
    CoreExport {
        instance: InstanceId(1),
        item: ExportItem::Index(item),
    }
}

/// Whether a definition is this entity of core instance 1.
fn is_entity(def: CoreDef, entity: EntityIndex) -> bool {
    def == CoreDef::Export(item_of(entity))
}

/// Whether a memory that is known by the name `m` is so where entities are mapped.
fn stays(name: HashedText) -> bool {
    let export: CoreExport<MemoryIndex> = CoreExport {
        instance: InstanceId(1),
        item: ExportItem::Name(name),
    };
    let mapped = export.map_index(|memory| memory.0);
    (mapped.instance.0 == 1) & is_named(&mapped.item, "m")
}

/// Whether a name stays where entities are mapped.
fn a_name_stays(alloc: Global) -> Result<bool, NoMemory> {
    let name = Text::copy_of(alloc, "m")?;
    Ok(stays(HashedText::new(alloc, name)?))
}

/// Whether items of each kind are definitions.
fn items_are_definitions() -> bool {
    items_are_definitions!()
}

#[test]
fn an_item_is_a_definition(rt: HostRuntime) {
    holds(&rt, "an item of each kind", items_are_definitions());
    let is_kept = a_name_stays(rt.alloc()).unwrap_or(false);
    holds(&rt, "a name stays where entities are mapped", is_kept);
}
