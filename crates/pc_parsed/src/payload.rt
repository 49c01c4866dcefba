//! The parsed form of a component: a list of payloads, one for each section or nested binary, in written order.
//!
//! A component is `Version`, its payloads and `End`; after `ComponentSection` a whole nested component follows in
//! the same list.

use crate::canon::CanonItem;
use pc_entity::{EntityIndex, Seq, Text};
use pc_types::{CoreKind, Entity, SharedRecord, WasmValType};

/// What a translation is limited to.
#[derive(Clone, Copy, Debug, PartialEq, Eq)]
pub struct Tunables {
    /// How many component instances may begin, the root included.
    pub max_component_instances: u32,
}

/// What a binary says that it encodes.
#[derive(Clone, Copy, Debug, PartialEq, Eq)]
pub enum Encoding {
    Component,
    Module,
}

#[derive(Drop)]
pub enum Payload {
    Version { encoding: Encoding },
    CoreTypeSection,
    CustomSection,
    ComponentStartSection,
    /// A nested component follows.
    ComponentSection,
    End,
    ComponentTypeSection(Seq<TypeItem>),
    ComponentImportSection(Seq<ImportItem>),
    ComponentCanonicalSection(Seq<CanonItem>),
    /// A core module with its type, a number of the type table.
    ModuleSection { record_: SharedRecord, ty: u32 },
    InstanceSection(Seq<InstanceItem>),
    ComponentInstanceSection(Seq<ComponentInstanceItem>),
    ComponentExportSection(Seq<ExportEntry>),
    ComponentAliasSection(Seq<AliasItem>),
}

/// An entry of a type section.
#[derive(Drop)]
pub enum TypeItem {
    /// A resource, with its number in the type table, its representation and its destructor, a core function.
    Resource {
        id: u32,
        rep: WasmValType,
        dtor: Option<u32>,
    },
    /// Any other type; the type table has it.
    Other,
}

/// A name of an import or export, with what it says of itself to the outside.
#[derive(Drop)]
pub struct ExternName {
    pub name: Text,
    pub implements: Option<Text>,
    pub external_id: Option<Text>,
}

#[derive(Drop)]
pub struct ImportItem {
    pub name: ExternName,
    pub ty: Entity,
}

/// The kinds of a component's items. With `Type_` an index is a number of the type table.
#[derive(Clone, Copy, Debug, PartialEq, Eq)]
pub enum ItemKind {
    Func,
    Module,
    Instance,
    Component,
    Type_,
    Value,
}

/// The kinds of what an outer alias names.
#[derive(Clone, Copy, Debug, PartialEq, Eq)]
pub enum OuterKind {
    CoreType,
    Type_,
    CoreModule,
    Component,
}

/// How a core instance is made.
#[derive(Drop)]
pub enum InstanceItem {
    /// From a module, with a core instance for each module name.
    Instantiate { module: u32, args: Seq<(Text, u32)> },
    /// From items of the scope, by name.
    FromExports(Seq<(Text, EntityIndex)>),
}

/// How a component instance is made. `ty` is the type that it has, a number of the type table.
#[derive(Drop)]
pub enum ComponentInstanceItem {
    Instantiate {
        component: u32,
        args: Seq<(Text, ItemKind, u32)>,
        ty: u32,
    },
    FromExports {
        exports: Seq<(ExternName, ItemKind, u32)>,
        ty: u32,
    },
}

#[derive(Drop)]
pub struct ExportEntry {
    pub name: ExternName,
    pub kind: ItemKind,
    pub index: u32,
}

#[derive(Drop)]
pub enum AliasItem {
    /// An export of a component instance.
    InstanceExport {
        kind: ItemKind,
        instance: u32,
        name: Text,
    },
    /// An item of an enclosing component; count 0 is the component itself.
    Outer {
        kind: OuterKind,
        count: u32,
        index: u32,
    },
    /// An export of a core instance.
    CoreInstanceExport {
        kind: CoreKind,
        instance: u32,
        name: Text,
    },
}
