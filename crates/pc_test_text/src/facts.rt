//! The text of what is recorded of modules.

use crate::parts::{text, there, values};
use crate::support::holds;
use pc_entity::{
    DefinedFuncIndex, DefinedGlobalIndex, DefinedMemoryIndex, DefinedTableIndex, FuncIndex,
    GlobalIndex, MemoryIndex, PackedOption, PrimaryMap, RuntimeComponentInstanceIndex, Seq,
    StaticModuleIndex, TableIndex, Text,
};
use pc_info::{KnownEntity, KnownFunc, KnownGlobal, ModuleTranslation};
use pc_text_facts::facts_text;
use pc_trampoline::Trap;
use pc_types::{CoreEntity, ModuleRecord, SharedRecord, UnsafeIntrinsic};
use std::alloc::Global;

/// Six functions, two globals, a memory and a table.
static IMPORTS: [CoreEntity; 10] = [
    CoreEntity::Func(0),
    CoreEntity::Func(0),
    CoreEntity::Global,
    CoreEntity::Func(0),
    CoreEntity::Func(0),
    CoreEntity::Memory { memory64: false },
    CoreEntity::Func(0),
    CoreEntity::Func(0),
    CoreEntity::Table,
    CoreEntity::Global,
];

/// Function imports with those that represent them. The last one isn't imported.
static REPRESENTATIVES: [(u32, u32); 3] = [(1, 0), (4, 2), (6, 0)];

/// Each kind of known function. The last one isn't imported.
static FUNCTIONS: [(u32, KnownFunc); 6] = [
    (0, KnownFunc::EnterSyncCall),
    (1, KnownFunc::ExitSyncCall),
    (2, KnownFunc::Trap(Trap(1))),
    (3, KnownFunc::UnsafeIntrinsic(UnsafeIntrinsic::U8NativeLoad)),
    (
        5,
        KnownFunc::DefinedWasmFunction(StaticModuleIndex(0), DefinedFuncIndex(7)),
    ),
    (6, KnownFunc::EnterSyncCall),
];

/// Each kind of known global.
static GLOBALS: [KnownGlobal; 2] = [
    KnownGlobal::Defined(KnownEntity {
        module: StaticModuleIndex(0),
        index: DefinedGlobalIndex(1),
    }),
    KnownGlobal::ComponentInstanceFlags(RuntimeComponentInstanceIndex(3)),
];

const MEMORY: KnownEntity<DefinedMemoryIndex> = KnownEntity {
    module: StaticModuleIndex(0),
    index: DefinedMemoryIndex(4),
};

const TABLE: KnownEntity<DefinedTableIndex> = KnownEntity {
    module: StaticModuleIndex(2),
    index: DefinedTableIndex(5),
};

const FACTS: &str = "same 1 1 0
same 1 4 2
func 1 0 enter-sync-call
func 1 1 exit-sync-call
func 1 2 trap 1
func 1 3 intrinsic u8-native-load
func 1 5 defined 0 7
global 1 0 defined 0 1
global 1 1 flags 3
memory 1 0 defined 0 4
table 1 0 defined 2 5
known-global 1 0
known-global 1 2
known-memory 1 1
known-table 1 0
";

/// An import of this kind, always under the same names.
fn import(alloc: Global, entity: CoreEntity) -> Option<(Text, Text, CoreEntity)> {
    Some((text(alloc, "m")?, text(alloc, "n")?, entity))
}

fn imports(alloc: Global) -> Seq<(Text, Text, CoreEntity)> {
    let mut all = Vec::new(alloc);
    for entity in IMPORTS.iter() {
        if let Some(import) = import(alloc, *entity) {
            let _ = all.push(import);
        }
    }
    Seq::from_vec(all)
}

/// A module that defines two memories, three globals and a table, and of which nothing is recorded.
fn bare(alloc: Global) -> Option<ModuleTranslation> {
    let record_ = ModuleRecord {
        imports: imports(alloc),
        funcs: Seq::new(alloc),
        tables: 1,
        memories: Seq::from_vec(values(alloc, &[false, true])),
        globals: 3,
        tags: 0,
        exports: Seq::new(alloc),
    };
    let module = SharedRecord::new(alloc, record_).ok()?;
    Some(ModuleTranslation::new(alloc, module, Seq::new(alloc)))
}

fn record_functions(of: &mut ModuleTranslation) {
    for (f, other) in REPRESENTATIVES.iter() {
        let other = PackedOption::Some(FuncIndex(*other));
        let _ = of
            .imported_func_vmctx_representative
            .set(FuncIndex(*f), other);
    }
    for (f, function) in FUNCTIONS.iter() {
        let _ = of
            .known_imported_functions
            .set(FuncIndex(*f), Some(*function));
    }
}

fn record_entities(of: &mut ModuleTranslation) {
    let _ = of
        .known_imported_globals
        .set(GlobalIndex(0), Some(GLOBALS[0]));
    let _ = of
        .known_imported_globals
        .set(GlobalIndex(1), Some(GLOBALS[1]));
    let _ = of.known_imported_memories.set(MemoryIndex(0), Some(MEMORY));
    let _ = of.known_imported_tables.set(TableIndex(0), Some(TABLE));
}

/// All but global 1 and memory 0 are known, and tables that the module doesn't define.
fn record_own(of: &mut ModuleTranslation) {
    of.globals_known_to_importers.defined = 3;
    let _ = of
        .globals_known_to_importers
        .unknown
        .insert(DefinedGlobalIndex(1));
    of.memories_known_to_importers.defined = 2;
    let _ = of
        .memories_known_to_importers
        .unknown
        .insert(DefinedMemoryIndex(0));
    of.tables_known_to_importers.defined = 9;
}

/// A module of which a fact of each kind is recorded.
fn known(alloc: Global) -> Option<ModuleTranslation> {
    let mut module = bare(alloc)?;
    record_functions(&mut module);
    record_entities(&mut module);
    record_own(&mut module);
    Some(module)
}

/// Whether what is recorded of modules has this text.
fn says(alloc: Global, modules: Vec<ModuleTranslation>, want: &str) -> bool {
    match facts_text(alloc, &PrimaryMap::from_vec(modules)) {
        Ok(text) => text.as_slice() == want.as_bytes(),
        Err(_) => false,
    }
}

#[test]
fn facts_are_printed(rt: HostRuntime) {
    let alloc = rt.alloc();
    let modules = there(alloc, [bare(alloc), known(alloc)]);
    holds(&rt, "each kind of fact", says(alloc, modules, FACTS));
    let is_empty = says(alloc, there(alloc, [bare(alloc)]), "");
    holds(&rt, "no fact", is_empty);
}
