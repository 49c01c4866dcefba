//! The steps of a plan.

use crate::core_def::{CoreDef, CoreExport};
use pc_entity::{
    Boxed, DefinedResourceIndex, LoweredIndex, MemoryIndex, RuntimeCallbackIndex,
    RuntimeComponentInstanceIndex, RuntimeImportIndex, RuntimeMemoryIndex, RuntimePostReturnIndex,
    RuntimeReallocIndex, RuntimeTableIndex, Seq, StaticModuleIndex, TableIndex, TextMap,
};
use pc_types::WasmValType;

/// One step. Steps run from front to back, each once.
#[derive(Drop)]
pub enum GlobalInitializer {
    /// Makes a core instance, for a component instance, or for none where its module is one of adapters.
    InstantiateModule(InstantiateModule, Option<RuntimeComponentInstanceIndex>),
    /// Makes a host function ready to be called from core code.
    LowerImport {
        index: LoweredIndex,
        import: RuntimeImportIndex,
    },
    /// Fills a slot with a memory.
    ExtractMemory(ExtractMemory),
    /// Fills a slot with a function that makes room for values.
    ExtractRealloc(ExtractRealloc),
    /// Fills a slot with a function that goes on with an asynchronous call.
    ExtractCallback(ExtractCallback),
    /// Fills a slot with a function that is called when results are read.
    ExtractPostReturn(ExtractPostReturn),
    /// Fills a slot with a table.
    ExtractTable(ExtractTable),
    /// Declares a resource.
    Resource(Resource),
}

/// A core module with its arguments.
#[derive(Drop)]
pub enum InstantiateModule {
    /// A module of the plan, with an argument for each of its imports, in their order.
    Static(StaticModuleIndex, Seq<CoreDef>),
    /// A module of the host, with its arguments by the module name and the name that its type imports.
    Import(RuntimeImportIndex, Boxed<TextMap<TextMap<CoreDef>>>),
}

/// A slot for a memory, and what fills it.
#[derive(Drop)]
pub struct ExtractMemory {
    pub index: RuntimeMemoryIndex,
    pub export: CoreExport<MemoryIndex>,
}

/// A slot for a table, and what fills it.
#[derive(Drop)]
pub struct ExtractTable {
    pub index: RuntimeTableIndex,
    pub export: CoreExport<TableIndex>,
}

/// A slot for a function that makes room for values, and what fills it.
#[derive(Drop)]
pub struct ExtractRealloc {
    pub index: RuntimeReallocIndex,
    pub def: CoreDef,
}

/// A slot for a function that goes on with an asynchronous call, and what fills it.
#[derive(Drop)]
pub struct ExtractCallback {
    pub index: RuntimeCallbackIndex,
    pub def: CoreDef,
}

/// A slot for a function that is called when results are read, and what fills it.
#[derive(Drop)]
pub struct ExtractPostReturn {
    pub index: RuntimePostReturnIndex,
    pub def: CoreDef,
}

/// A resource that a plan declares.
#[derive(Drop)]
pub struct Resource {
    /// Its number among those that the plan declares.
    pub index: DefinedResourceIndex,
    /// The core type of its handles.
    pub rep: WasmValType,
    /// What is called when the last handle goes.
    pub dtor: Option<CoreDef>,
    /// The component instance that declares it.
    pub instance: RuntimeComponentInstanceIndex,
}
