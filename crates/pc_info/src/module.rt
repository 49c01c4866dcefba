//! The core modules of a plan.

ghost use Rattle.std.specs.Prelude.{◌≡◌};
ghost use Rattle.pc_info.specs.Modules.{without_facts};

use crate::known::{KnownEntity, KnownFunc, KnownGlobal, KnownToImporters};
use pc_entity::{
    DefinedGlobalIndex, DefinedMemoryIndex, DefinedTableIndex, FuncIndex, GlobalIndex, MemoryIndex,
    ModuleInternedTypeIndex, PackedOption, RuntimeComponentInstanceIndex, SecondaryMap, Seq,
    TableIndex,
};
use pc_types::{SharedRecord, StringEncoding, TypeFuncIndex};
use std::alloc::Global;

/// A core module that a plan instantiates: one that was handed in, or one of adapters.
///
/// Behind its record and its adapters stand facts that hold of each of its instances. A compiler may use them, and a
/// plan means the same without them.
pub struct ModuleTranslation {
    /// What the module imports, defines and exports.
    pub module: SharedRecord,
    /// What is said of its adapters. A module that was handed in has none.
    pub adapters: Seq<AdapterRecord>,
    /// The imported functions that are known.
    pub known_imported_functions: SecondaryMap<FuncIndex, Option<KnownFunc>>,
    /// The imported globals that are known.
    pub known_imported_globals: SecondaryMap<GlobalIndex, Option<KnownGlobal>>,
    /// The imported memories that are known.
    pub known_imported_memories: SecondaryMap<MemoryIndex, Option<KnownEntity<DefinedMemoryIndex>>>,
    /// The imported tables that are known.
    pub known_imported_tables: SecondaryMap<TableIndex, Option<KnownEntity<DefinedTableIndex>>>,
    /// The globals that each module that imports them knows.
    pub globals_known_to_importers: KnownToImporters<DefinedGlobalIndex>,
    /// The memories that each module that imports them knows.
    pub memories_known_to_importers: KnownToImporters<DefinedMemoryIndex>,
    /// The tables that each module that imports them knows.
    pub tables_known_to_importers: KnownToImporters<DefinedTableIndex>,
    /// For an imported function the first one that has the same context in each instance.
    pub imported_func_vmctx_representative: SecondaryMap<FuncIndex, PackedOption<FuncIndex>>,
}

impl ModuleTranslation {
    /// A module with these adapters, of which no fact is recorded. It takes no memory.
    pub fn new(
        alloc: Global,
        core_module: SharedRecord,
        adapters: Seq<AdapterRecord>,
    ) -> ModuleTranslation
        ensures { result ≡ without_facts core_module adapters }
    {
        ModuleTranslation {
            module: core_module,
            adapters,
            known_imported_functions: SecondaryMap::new(alloc, None),
            known_imported_globals: SecondaryMap::new(alloc, None),
            known_imported_memories: SecondaryMap::new(alloc, None),
            known_imported_tables: SecondaryMap::new(alloc, None),
            globals_known_to_importers: KnownToImporters::none(alloc),
            memories_known_to_importers: KnownToImporters::none(alloc),
            tables_known_to_importers: KnownToImporters::none(alloc),
            imported_func_vmctx_representative: SecondaryMap::new(alloc, PackedOption::None),
        }
    }
}

// By hand, since a derived drop of so many lists is proved anew, and slowly, in each crate that lets a module go.
impl Drop for ModuleTranslation {
    fn drop(self) {
        let ModuleTranslation {
            module,
            adapters,
            known_imported_functions,
            known_imported_globals,
            known_imported_memories,
            known_imported_tables,
            globals_known_to_importers,
            memories_known_to_importers,
            tables_known_to_importers,
            imported_func_vmctx_representative,
        } = self;
        drop_module(module, adapters);
        drop_functions(known_imported_functions, imported_func_vmctx_representative);
        drop_entities(
            known_imported_globals,
            known_imported_memories,
            known_imported_tables,
        );
        drop_definitions(
            globals_known_to_importers,
            memories_known_to_importers,
            tables_known_to_importers,
        );
    }
}

fn drop_module(_module: SharedRecord, _adapters: Seq<AdapterRecord>) {}

fn drop_functions(
    _known: SecondaryMap<FuncIndex, Option<KnownFunc>>,
    _representatives: SecondaryMap<FuncIndex, PackedOption<FuncIndex>>,
) {}

fn drop_entities(
    _globals: SecondaryMap<GlobalIndex, Option<KnownGlobal>>,
    _memories: SecondaryMap<MemoryIndex, Option<KnownEntity<DefinedMemoryIndex>>>,
    _tables: SecondaryMap<TableIndex, Option<KnownEntity<DefinedTableIndex>>>,
) {}

fn drop_definitions(
    _globals: KnownToImporters<DefinedGlobalIndex>,
    _memories: KnownToImporters<DefinedMemoryIndex>,
    _tables: KnownToImporters<DefinedTableIndex>,
) {}

/// A function of an adapter module: it lifts its callee and lowers it again. Positions are places among the module's
/// imports.
#[derive(Clone, Copy, PartialEq, Eq, Hash)]
pub struct AdapterRecord {
    /// The number of the adapter.
    pub adapter: u32,
    /// The function of the module that it is.
    pub func: FuncIndex,
    /// The position of what is lifted.
    pub callee: u32,
    /// The function type that its callee is lifted with.
    pub lift_ty: TypeFuncIndex,
    /// The function type that it is lowered with.
    pub lower_ty: TypeFuncIndex,
    /// The options of the lift.
    pub lift: SideRecord,
    /// The options of the lowering.
    pub lower: SideRecord,
}

/// The options of one side of an adapter.
#[derive(Clone, Copy, PartialEq, Eq, Hash)]
pub struct SideRecord {
    /// The component instance that the function was lifted or lowered in.
    pub instance: RuntimeComponentInstanceIndex,
    /// How its strings are encoded.
    pub string_encoding: StringEncoding,
    /// Whether a call may return before its results are there.
    pub async_: bool,
    /// The core signature, a number of the types builder.
    pub core_type: ModuleInternedTypeIndex,
    /// The position of the function that goes on with an asynchronous call.
    pub callback: Option<u32>,
    /// The position of the function that is called when the results are read.
    pub post_return: Option<u32>,
    /// Whether values lie in the managed heap. Then there is no memory and no realloc.
    pub gc: bool,
    /// The position of the memory that values lie in.
    pub memory: Option<u32>,
    /// The position of the function that makes room in it.
    pub realloc: Option<u32>,
}
