//! Lists, texts and maps that contracts see as plain lists, and the numbers that name their entries.
//!
//! A contract sees a `Vec` or a `String` with its capacity and its pointer. The types here show it the items and the
//! bytes alone, so that two values which a client can't tell apart are equal, and structs and enums over them compare
//! by `==`.
#![tactic(auto)]

mod boxed;
mod by_name;
mod entity_set;
mod hashed_text;
mod interner;
mod packed_option;
mod primary_map;
mod secondary_map;
mod seed;
mod seq;
mod string_pool;
mod text;
mod text_map;
mod try_clone;

pub use boxed::Boxed;
pub use by_name::first_values;
pub use entity_set::EntitySet;
pub use hashed_text::HashedText;
pub use interner::Interner;
pub use packed_option::PackedOption;
pub use pc_numbers::{
    ComponentFuncIndex, ComponentIndex, ComponentInstanceIndex, ComponentTypeIndex,
    ComponentUpvarIndex, DefinedFuncIndex, DefinedGlobalIndex, DefinedMemoryIndex,
    DefinedResourceIndex, DefinedTableIndex, EntityIndex, EntityRef, ExactEq, ExportIndex,
    FuncIndex, GlobalIndex, ImportIndex, LoweredIndex, MemoryIndex, ModuleIndex,
    ModuleInstanceIndex, ModuleInternedTypeIndex, ModuleUpvarIndex, NoMemory, OptionsIndex,
    ResourceIndex, RuntimeCallbackIndex, RuntimeComponentInstanceIndex, RuntimeImportIndex,
    RuntimeInstanceIndex, RuntimeMemoryIndex, RuntimePostReturnIndex, RuntimeReallocIndex,
    RuntimeTableIndex, StaticComponentIndex, StaticModuleIndex, TableIndex, TagIndex,
    TrampolineIndex, TryClone,
};
pub use primary_map::PrimaryMap;
pub use secondary_map::SecondaryMap;
pub use seed::Seed;
pub use seq::Seq;
pub use string_pool::{Atom, StringPool};
pub use text::Text;
pub use text_map::TextMap;
