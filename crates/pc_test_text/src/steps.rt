//! The steps of the plans that are printed.

use crate::parts::{hashed, list, put};
use pc_entity::{
    Boxed, DefinedResourceIndex, EntityIndex, FuncIndex, GlobalIndex, LoweredIndex, MemoryIndex,
    RuntimeCallbackIndex, RuntimeComponentInstanceIndex, RuntimeImportIndex, RuntimeInstanceIndex,
    RuntimeMemoryIndex, RuntimePostReturnIndex, RuntimeReallocIndex, RuntimeTableIndex, Seed, Seq,
    StaticModuleIndex, TableIndex, TagIndex, TextMap, TrampolineIndex,
};
use pc_info::{
    CoreDef, CoreExport, ExportItem, ExtractCallback, ExtractMemory, ExtractPostReturn,
    ExtractRealloc, ExtractTable, GlobalInitializer, InstantiateModule, Resource,
};
use pc_types::{UnsafeIntrinsic, WasmValType};
use std::alloc::Global;

fn entity(instance: u32, entity: EntityIndex) -> CoreDef {
    CoreDef::Export(CoreExport {
        instance: RuntimeInstanceIndex(instance),
        item: ExportItem::Index(entity),
    })
}

/// The flags of a component instance.
fn flags(instance: u32) -> CoreDef {
    CoreDef::InstanceFlags(RuntimeComponentInstanceIndex(instance))
}

/// A trampoline.
fn trampoline(number: u32) -> CoreDef {
    CoreDef::Trampoline(TrampolineIndex(number))
}

/// An item that is known by its name, or another one where there is no memory for that.
fn by_name<T: Copy>(alloc: Global, instance: u32, name: &str, other: T) -> CoreExport<T> {
    let item = match hashed(alloc, name) {
        Some(name) => ExportItem::Name(name),
        None => ExportItem::Index(other),
    };
    CoreExport {
        instance: RuntimeInstanceIndex(instance),
        item,
    }
}

/// The same as a definition.
fn named(alloc: Global, instance: u32, name: &str) -> CoreDef {
    let other = EntityIndex::Function(FuncIndex(0));
    CoreDef::Export(by_name(alloc, instance, name, other))
}

const INTRINSIC: CoreDef = CoreDef::UnsafeIntrinsic(UnsafeIntrinsic::U8NativeLoad);

/// An argument of each kind, one of which has a name with all that is escaped.
fn arguments(alloc: Global) -> Seq<CoreDef> {
    let all = [
        entity(0, EntityIndex::Table(TableIndex(1))),
        entity(1, EntityIndex::Memory(MemoryIndex(2))),
        entity(2, EntityIndex::Global(GlobalIndex(3))),
        entity(3, EntityIndex::Tag(TagIndex(4))),
        named(alloc, 4294967295, "a\"b\\c\nd"),
        flags(5),
        trampoline(6),
        INTRINSIC,
    ];
    Seq::from_vec(list(alloc, all))
}

/// A module that was handed in, with an argument of each kind.
fn handed_in(alloc: Global) -> GlobalInitializer {
    let source = InstantiateModule::Static(StaticModuleIndex(7), arguments(alloc));
    GlobalInitializer::InstantiateModule(source, None)
}

/// Three arguments, two of which have one module name; a third module name has none.
fn named_arguments(alloc: Global) -> TextMap<TextMap<CoreDef>> {
    let mut two = TextMap::new(alloc, Seed::fixed());
    put(alloc, &mut two, "a", trampoline(8));
    put(alloc, &mut two, "b", flags(9));
    let mut one = TextMap::new(alloc, Seed::fixed());
    put(alloc, &mut one, "c", trampoline(10));
    let mut all = TextMap::new(alloc, Seed::fixed());
    put(alloc, &mut all, "none", TextMap::new(alloc, Seed::fixed()));
    put(alloc, &mut all, "m", two);
    put(alloc, &mut all, "n", one);
    all
}

/// A module of the host with three arguments, or another step where there is no memory for that.
fn imported(alloc: Global) -> GlobalInitializer {
    let Ok(args) = Boxed::new(alloc, named_arguments(alloc)) else {
        return LOWERED;
    };
    let source = InstantiateModule::Import(RuntimeImportIndex(1), args);
    let instance = Some(RuntimeComponentInstanceIndex(2));
    GlobalInitializer::InstantiateModule(source, instance)
}

/// A module that was handed in, with no arguments.
fn without_arguments(alloc: Global) -> GlobalInitializer {
    let source = InstantiateModule::Static(StaticModuleIndex(0), Seq::new(alloc));
    let instance = Some(RuntimeComponentInstanceIndex(0));
    GlobalInitializer::InstantiateModule(source, instance)
}

fn post_return(alloc: Global) -> GlobalInitializer {
    GlobalInitializer::ExtractPostReturn(ExtractPostReturn {
        index: RuntimePostReturnIndex(10),
        def: named(alloc, 11, "p"),
    })
}

fn table(alloc: Global) -> GlobalInitializer {
    GlobalInitializer::ExtractTable(ExtractTable {
        index: RuntimeTableIndex(12),
        export: by_name(alloc, 13, "t", TableIndex(0)),
    })
}

const LOWERED: GlobalInitializer = GlobalInitializer::LowerImport {
    index: LoweredIndex(0),
    import: RuntimeImportIndex(1),
};

/// A memory, known by its number.
const MEMORY: GlobalInitializer = GlobalInitializer::ExtractMemory(ExtractMemory {
    index: RuntimeMemoryIndex(2),
    export: CoreExport {
        instance: RuntimeInstanceIndex(3),
        item: ExportItem::Index(MemoryIndex(4)),
    },
});

const REALLOC: GlobalInitializer = GlobalInitializer::ExtractRealloc(ExtractRealloc {
    index: RuntimeReallocIndex(5),
    def: CoreDef::Export(CoreExport {
        instance: RuntimeInstanceIndex(6),
        item: ExportItem::Index(EntityIndex::Function(FuncIndex(7))),
    }),
});

const CALLBACK: GlobalInitializer = GlobalInitializer::ExtractCallback(ExtractCallback {
    index: RuntimeCallbackIndex(8),
    def: CoreDef::Trampoline(TrampolineIndex(9)),
});

/// A resource without a destructor.
const PLAIN_RESOURCE: GlobalInitializer = GlobalInitializer::Resource(Resource {
    index: DefinedResourceIndex(14),
    rep: WasmValType::I32,
    dtor: None,
    instance: RuntimeComponentInstanceIndex(15),
});

const RESOURCE: GlobalInitializer = GlobalInitializer::Resource(Resource {
    index: DefinedResourceIndex(16),
    rep: WasmValType::ExternRef,
    dtor: Some(CoreDef::Trampoline(TrampolineIndex(17))),
    instance: RuntimeComponentInstanceIndex(18),
});

/// The only step of the smallest plan.
pub(crate) fn one_step(alloc: Global) -> Seq<GlobalInitializer> {
    Seq::from_vec(list(alloc, [without_arguments(alloc)]))
}

/// A step of each kind.
pub(crate) fn all_steps(alloc: Global) -> Seq<GlobalInitializer> {
    let all = [
        handed_in(alloc),
        imported(alloc),
        LOWERED,
        MEMORY,
        REALLOC,
        CALLBACK,
        post_return(alloc),
        table(alloc),
        PLAIN_RESOURCE,
        RESOURCE,
    ];
    Seq::from_vec(list(alloc, all))
}
