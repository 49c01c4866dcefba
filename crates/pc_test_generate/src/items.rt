//! What each payload is, in a word and a number. A payload that is anything else has no word.

use crate::support::only;
use pc_entity::{EntityIndex, FuncIndex, Seq, Text};
use pc_parsed::{
    AliasItem, CanonItem, ComponentInstanceItem, Encoding, ExportEntry, ExternName, ImportItem,
    InstanceItem, ItemKind, Payload,
};
use pc_types::{CoreEntity, CoreKind, Entity, ModuleRecord};

/// What a payload of a chain is. Each function is named `f`, and each has the types with number 0.
#[derive(Clone, Copy, PartialEq, Eq)]
pub(crate) enum Item {
    Version,
    Component,
    End,
    /// A core module with so many imported functions, `f` of `e`; its own function comes next and is exported.
    Module(u32),
    /// A core instance of module 0, which takes nothing.
    Made,
    /// A core instance of module 0, which takes this core instance as `e`.
    MadeWith(u32),
    /// A core instance that has core function 0.
    Bag,
    /// The function of this core instance.
    CoreAlias(u32),
    /// This core function becomes a function.
    Lift(u32),
    /// Function 0 becomes a core function.
    Lower,
    /// A function is imported.
    Import,
    /// This function is exported.
    Export(u32),
    /// An instance of component 0, which takes nothing.
    First,
    /// The function of this component instance.
    Alias(u32),
    /// An instance of component 1, which takes this function.
    Link(u32),
}

/// What a payload is.
pub(crate) fn item_of(payload: &Payload) -> Option<Item> {
    match payload {
        Payload::Version { encoding } => version(*encoding),
        Payload::ComponentSection => Some(Item::Component),
        Payload::End => Some(Item::End),
        Payload::ModuleSection { record_, ty } => module(record_.get(), *ty),
        Payload::InstanceSection(list) => core_instance(only(list)?),
        Payload::ComponentAliasSection(list) => alias(only(list)?),
        Payload::ComponentCanonicalSection(list) => canon(only(list)?),
        Payload::ComponentImportSection(list) => import(only(list)?),
        Payload::ComponentExportSection(list) => export(only(list)?),
        Payload::ComponentInstanceSection(list) => instance(only(list)?),
        _ => None,
    }
}

/// The item, where this holds.
fn where_(holds: bool, item: Item) -> Option<Item> {
    if holds { Some(item) } else { None }
}

fn version(encoding: Encoding) -> Option<Item> {
    where_(encoding == Encoding::Component, Item::Version)
}

fn module(record: &ModuleRecord, ty: u32) -> Option<Item> {
    let export = only(&record.exports)?;
    let taken = taken(&record.imports)?;
    let exported = export.0.as_str() == "f" && export.1 == EntityIndex::Function(FuncIndex(taken));
    let one = exported && defines_one_function(record);
    where_(one && ty == 1, Item::Module(taken))
}

/// How many functions are imported: none, or one, which is `f` of `e`.
fn taken(imports: &Seq<(Text, Text, CoreEntity)>) -> Option<u32> {
    if imports.is_empty() {
        return Some(0);
    }
    let import = only(imports)?;
    if import.0.as_str() == "e" && import.1.as_str() == "f" && import.2 == CoreEntity::Func(0) {
        Some(1)
    } else {
        None
    }
}

/// Whether a module defines one function and nothing else.
fn defines_one_function(record: &ModuleRecord) -> bool {
    let others = record.tables == 0 && record.globals == 0 && record.tags == 0;
    others && record.memories.is_empty() && only(&record.funcs).copied() == Some(0)
}

fn core_instance(item: &InstanceItem) -> Option<Item> {
    match item {
        InstanceItem::Instantiate { module, args } => made(*module, args),
        InstanceItem::FromExports(items) => bag(only(items)?),
    }
}

fn made(module: u32, args: &Seq<(Text, u32)>) -> Option<Item> {
    if args.is_empty() {
        return where_(module == 0, Item::Made);
    }
    let arg = only(args)?;
    where_(module == 0 && arg.0.as_str() == "e", Item::MadeWith(arg.1))
}

fn bag(item: &(Text, EntityIndex)) -> Option<Item> {
    let is_function = item.1 == EntityIndex::Function(FuncIndex(0));
    where_(is_function && item.0.as_str() == "f", Item::Bag)
}

fn alias(item: &AliasItem) -> Option<Item> {
    match item {
        AliasItem::InstanceExport {
            kind,
            instance,
            name,
        } => where_(
            *kind == ItemKind::Func && name.as_str() == "f",
            Item::Alias(*instance),
        ),
        AliasItem::CoreInstanceExport {
            kind,
            instance,
            name,
        } => where_(
            *kind == CoreKind::Func && name.as_str() == "f",
            Item::CoreAlias(*instance),
        ),
        AliasItem::Outer { .. } => None,
    }
}

fn canon(item: &CanonItem) -> Option<Item> {
    match item {
        CanonItem::Lift(func, ty, signature, options) => where_(
            *ty == 0 && *signature == 0 && options.is_empty(),
            Item::Lift(*func),
        ),
        CanonItem::Lower(func, ty, signature, options) => where_(
            *func == 0 && *ty == 0 && *signature == 0 && options.is_empty(),
            Item::Lower,
        ),
        _ => None,
    }
}

/// Whether a name is `f`, and says nothing of itself to the outside.
fn is_f(name: &ExternName) -> bool {
    name.name.as_str() == "f" && name.implements.is_none() && name.external_id.is_none()
}

fn import(item: &ImportItem) -> Option<Item> {
    where_(is_f(&item.name) && item.ty == Entity::Func(0), Item::Import)
}

fn export(item: &ExportEntry) -> Option<Item> {
    where_(
        is_f(&item.name) && item.kind == ItemKind::Func,
        Item::Export(item.index),
    )
}

fn instance(item: &ComponentInstanceItem) -> Option<Item> {
    match item {
        ComponentInstanceItem::Instantiate {
            component,
            args,
            ty,
        } => instance_of(*component, args, *ty),
        ComponentInstanceItem::FromExports { .. } => None,
    }
}

fn instance_of(component: u32, args: &Seq<(Text, ItemKind, u32)>, ty: u32) -> Option<Item> {
    if args.is_empty() {
        return where_(component == 0 && ty == 2, Item::First);
    }
    let arg = only(args)?;
    let takes_f = arg.0.as_str() == "f" && arg.1 == ItemKind::Func;
    where_(takes_f && component == 1 && ty == 2, Item::Link(arg.2))
}
