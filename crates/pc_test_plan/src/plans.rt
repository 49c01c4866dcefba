//! What the functions of a plan answer, and that a plan with a deep tree of exports is let go.

ghost use Rattle.std.specs.Prelude.{◌≡◌, length, IfOk};

use crate::items::{is_named, items_are_definitions};
use crate::support::{NO_DATA, holds};
use pc_entity::{
    DefinedResourceIndex, EntityIndex, ExportIndex, FuncIndex, GlobalIndex, HashedText,
    MemoryIndex, NoMemory, PrimaryMap, ResourceIndex, RuntimeImportIndex, RuntimeInstanceIndex,
    Seed, TableIndex, TagIndex, Text,
};
use pc_info::{Component, CoreDef, CoreExport, Export, ExportItem};
use pc_names::{NameMap, NameMapNoIntern};
use pc_types::{InterfaceType, TypeComponentInstanceIndex, TypeDef};
use std::alloc::Global;

/// Two resources of the host.
fn two_imported(alloc: Global) -> Result<PrimaryMap<ResourceIndex, RuntimeImportIndex>, NoMemory>
    ensures { IfOk result (λ map. length map ≡ 2) }
{
    let items = Vec::from_slice(alloc, &[RuntimeImportIndex(4), RuntimeImportIndex(7)])?;
    Ok(PrimaryMap::from_vec(items))
}

/// Whether declared resources come behind two imported ones.
fn come_behind(alloc: Global, imported: PrimaryMap<ResourceIndex, RuntimeImportIndex>) -> bool
    requires { length imported ≡ 2 }
{
    let mut plan = Component::new(alloc, Seed::fixed());
    plan.imported_resources = imported;
    let second = plan.defined_resource_index(ResourceIndex(1));
    let sixth = plan.defined_resource_index(ResourceIndex(5));
    let declared = plan.resource_index(DefinedResourceIndex(3));
    second.is_none() & (sixth == Some(DefinedResourceIndex(3))) & (declared.0 == 5)
}

/// Whether declared resources come behind imported ones.
fn declared_ones_come_behind(alloc: Global) -> Result<bool, NoMemory> {
    Ok(come_behind(alloc, two_imported(alloc)?))
}

/// An item of core instance 1.
fn item_of<T>(item: T) -> CoreExport<T> {
    CoreExport {
        instance: RuntimeInstanceIndex(1),
        item: ExportItem::Index(item),
    }
}

/// Whether a definition is this entity of core instance 1.
fn is_entity(def: CoreDef, entity: EntityIndex) -> bool {
    def == CoreDef::Export(item_of(entity))
}

/// Whether a memory that is known by the name `m` is so where entities are mapped.
fn stays(name: HashedText) -> bool {
    let export: CoreExport<MemoryIndex> = CoreExport {
        instance: RuntimeInstanceIndex(1),
        item: ExportItem::Name(name),
    };
    let mapped = export.map_index(|memory| memory.0);
    (mapped.instance.0 == 1) & is_named(&mapped.item, "m")
}

/// Whether a name stays where entities are mapped.
fn a_name_stays(alloc: Global) -> Result<bool, NoMemory> {
    let name = Text::copy_of(alloc, "m")?;
    Ok(stays(HashedText::new(alloc, name)?))
}

/// Whether items of each kind are definitions.
fn items_are_definitions() -> bool {
    items_are_definitions!()
}

#[test]
fn an_item_is_a_definition(rt: HostRuntime) {
    holds(&rt, "an item of each kind", items_are_definitions());
    let is_kept = a_name_stays(rt.alloc()).unwrap_or(false);
    holds(&rt, "a name stays where entities are mapped", is_kept);
}

/// An exported type.
const TYPE: Export = Export::Type_(TypeDef::Interface(InterfaceType::Bool));

/// An instance with the item of this number in it.
fn around(alloc: Global, below: u32) -> Result<Export, NoMemory> {
    let name = Text::copy_of(alloc, "x")?;
    let mut exports = NameMap::new(alloc, Seed::fixed());
    let mut texts = NameMapNoIntern::new(alloc);
    match exports.insert(&name, &mut texts, false, (ExportIndex(below), NO_DATA)) {
        Ok(_) => Ok(Export::Instance {
            ty: TypeComponentInstanceIndex(0),
            exports,
        }),
        Err(_) => Err(NoMemory),
    }
}

/// Adds an instance around an item, while there is memory.
fn surround(alloc: Global, items: &mut Vec<Export>, below: u32) {
    if let Ok(item) = around(alloc, below) {
        let _ = items.push(item);
    }
}

/// A type, and so many instances around it, each in the next, those left out that there is no memory for.
fn nested(alloc: Global, levels: u32) -> Vec<Export> {
    let mut items = Vec::new(alloc);
    let _ = items.push(TYPE);
    for below in 0..levels {
        surround(alloc, &mut items, below);
    }
    items
}

/// How many items a plan has that is let go.
fn let_go(alloc: Global, items: Vec<Export>) -> usize {
    let mut plan = Component::new(alloc, Seed::fixed());
    plan.export_items = PrimaryMap::from_vec(items);
    plan.export_items.len()
}

#[test]
fn plans_number_resources_and_are_let_go(rt: HostRuntime) {
    let is_behind = declared_ones_come_behind(rt.alloc()).unwrap_or(false);
    holds(&rt, "declared resources come behind", is_behind);
    let items = let_go(rt.alloc(), nested(rt.alloc(), 30000));
    holds(&rt, "a deep tree of exports is let go", items == 30001);
}
