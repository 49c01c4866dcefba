//! Core instances and resources, and the side effects that make them.

use crate::{CoreDef, InstanceId};
use pc_entity::{
    Boxed, DefinedResourceIndex, RuntimeComponentInstanceIndex, RuntimeImportIndex, Seq,
    StaticModuleIndex, TextMap,
};
use pc_types::WasmValType;

/// A core module with its arguments.
#[derive(Drop)]
pub enum Instance {
    /// A module that was handed in, with an argument for each of its imports, in their order.
    Static(StaticModuleIndex, Seq<CoreDef>),
    /// A module of the host, with its arguments by the module name and the name that its type imports.
    Import(RuntimeImportIndex, Boxed<TextMap<TextMap<CoreDef>>>),
}

/// A resource that the component declares.
#[derive(Drop)]
pub struct Resource {
    /// The core type of its handles.
    pub rep: WasmValType,
    /// What is called when the last handle goes.
    pub dtor: Option<CoreDef>,
    /// The component instance that declares it.
    pub instance: RuntimeComponentInstanceIndex,
}

/// What instantiating the component does, and has to do in this order: core code runs where an instance is made, and a
/// destructor may be an item of an instance before.
#[derive(Clone, Copy, PartialEq, Eq)]
pub enum SideEffect {
    /// A core instance is made for a component instance.
    Instance(InstanceId, RuntimeComponentInstanceIndex),
    /// A resource is declared.
    Resource(DefinedResourceIndex),
}
