//! Number types, one for each kind of list that is numbered, and what a copy and an equality of values promise.
//!
//! Each number type is a `u32` under a name of its own, so that a number of one list is never taken for one of another.
#![tactic(auto)]

mod component_entity;
mod entity_index;
mod entity_ref;
mod exact_eq;
mod module_entity;
mod no_memory;
mod runtime;
mod try_clone;

pub use component_entity::{
    ComponentFuncIndex, ComponentIndex, ComponentInstanceIndex, ComponentTypeIndex,
    ComponentUpvarIndex, ModuleIndex, ModuleInstanceIndex, ModuleUpvarIndex, StaticComponentIndex,
    StaticModuleIndex,
};
pub use entity_index::EntityIndex;
pub use entity_ref::EntityRef;
pub use exact_eq::ExactEq;
pub use module_entity::{
    DefinedFuncIndex, DefinedGlobalIndex, DefinedMemoryIndex, DefinedTableIndex, FuncIndex,
    GlobalIndex, MemoryIndex, ModuleInternedTypeIndex, TableIndex, TagIndex,
};
pub use no_memory::NoMemory;
pub use runtime::{
    DefinedResourceIndex, ExportIndex, ImportIndex, LoweredIndex, OptionsIndex, ResourceIndex,
    RuntimeCallbackIndex, RuntimeComponentInstanceIndex, RuntimeImportIndex, RuntimeInstanceIndex,
    RuntimeMemoryIndex, RuntimePostReturnIndex, RuntimeReallocIndex, RuntimeTableIndex,
    TrampolineIndex,
};
pub use try_clone::TryClone;
