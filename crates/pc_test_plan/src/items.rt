//! What graphs and plans have in common: an item of a core instance is a definition.

use pc_info::ExportItem;

/// Whether items of each kind become the definitions of their entities, by `item_of` and `is_entity` of the caller.
macro_rules! items_are_definitions {
    () => {{
        let func = CoreDef::from(item_of(FuncIndex(2)));
        let table = CoreDef::from(item_of(TableIndex(2)));
        let memory = CoreDef::from(item_of(MemoryIndex(2)));
        let global = CoreDef::from(item_of(GlobalIndex(2)));
        let tag = CoreDef::from(item_of(TagIndex(2)));
        let any = CoreDef::from(item_of(EntityIndex::Tag(TagIndex(3))));
        is_entity(func, EntityIndex::Function(FuncIndex(2)))
            & is_entity(table, EntityIndex::Table(TableIndex(2)))
            & is_entity(memory, EntityIndex::Memory(MemoryIndex(2)))
            & is_entity(global, EntityIndex::Global(GlobalIndex(2)))
            & is_entity(tag, EntityIndex::Tag(TagIndex(2)))
            & is_entity(any, EntityIndex::Tag(TagIndex(3)))
    }};
}

pub(crate) use items_are_definitions;

/// Whether an item is known by this name.
pub(crate) fn is_named(item: &ExportItem<u32>, want: &str) -> bool {
    match item {
        ExportItem::Name(name) => name.as_str() == want,
        ExportItem::Index(_) => false,
    }
}
