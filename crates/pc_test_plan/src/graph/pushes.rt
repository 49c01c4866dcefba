//! Each way into a list, once: the first entry has number 0, and one that is interned has it again.

use crate::graph::{HOST, TYPE};
use crate::support::{NO_DATA, holds, number};
use pc_dfg::{
    Adapter, AdapterModuleId, AdapterOptions, CanonicalOptions, CanonicalOptionsDataModel,
    ComponentDfg, CoreDef, CoreExport, DataModel, ExportItem, InstanceId, PushError, Trampoline,
};
use pc_entity::{
    EntityIndex, ExportIndex, FuncIndex, ImportIndex, ModuleInternedTypeIndex, NoMemory,
    RuntimeComponentInstanceIndex, RuntimeImportIndex, Seed, Seq, StaticModuleIndex, TableIndex,
    Text,
};
use pc_types::{ComponentExtern, InterfaceType, StringEncoding, TypeDef, TypeFuncIndex};
use std::alloc::Global;

/// What an import of a type is.
const TYPE_IMPORT: ComponentExtern = ComponentExtern {
    ty: TypeDef::Interface(InterfaceType::Bool),
    data_: NO_DATA,
};

/// A function of core instance 0.
const FUNC: CoreDef = CoreDef::Export(CoreExport {
    instance: InstanceId(0),
    item: ExportItem::Index(EntityIndex::Function(FuncIndex(1))),
});

/// Another one.
const OTHER: CoreDef = CoreDef::Export(CoreExport {
    instance: InstanceId(0),
    item: ExportItem::Index(EntityIndex::Function(FuncIndex(2))),
});

/// A table of core instance 0.
const TABLE: CoreExport<TableIndex> = CoreExport {
    instance: InstanceId(0),
    item: ExportItem::Index(TableIndex(3)),
};

/// The core type of options and of a trampoline.
const SIGNATURE: ModuleInternedTypeIndex = ModuleInternedTypeIndex(0);

/// Options without functions, in linear memory.
const OPTIONS: CanonicalOptions = CanonicalOptions {
    instance: RuntimeComponentInstanceIndex(0),
    string_encoding: StringEncoding::Utf8,
    callback: None,
    post_return: None,
    async_: false,
    core_type: SIGNATURE,
    data_model: CanonicalOptionsDataModel::LinearMemory {
        memory: None,
        realloc: None,
    },
};

/// The same options of a side of an adapter.
const SIDE: AdapterOptions = AdapterOptions {
    instance: RuntimeComponentInstanceIndex(0),
    string_encoding: StringEncoding::Utf8,
    callback: None,
    post_return: None,
    async_: false,
    core_type: SIGNATURE,
    data_model: DataModel::LinearMemory {
        memory: None,
        realloc: None,
    },
};

/// A function, lifted and lowered again.
const ADAPTER: Adapter = Adapter {
    lift_ty: TypeFuncIndex(0),
    lift_options: SIDE,
    lower_ty: TypeFuncIndex(0),
    lower_options: SIDE,
    func: FUNC,
};

/// The number of a named import of a type.
fn push_import_type(alloc: Global, graph: &mut ComponentDfg) -> Result<ImportIndex, PushError> {
    graph.push_import_type(Text::copy_of(alloc, "i")?, TYPE_IMPORT)
}

/// The numbers of an import, a host item and an imported resource.
fn imports(alloc: Global, graph: &mut ComponentDfg) -> [u32; 3] {
    [
        number(push_import_type(alloc, graph)),
        number(graph.push_import(ImportIndex(0), Seq::new(alloc))),
        number(graph.push_imported_resource(RuntimeImportIndex(0))),
    ]
}

/// The numbers of two equal tables and of two reallocs.
fn tables_and_reallocs(graph: &mut ComponentDfg) -> [u32; 4] {
    [
        number(graph.push_table(TABLE)),
        number(graph.push_table(TABLE)),
        number(graph.push_realloc(FUNC)),
        number(graph.push_realloc(OTHER)),
    ]
}

/// The numbers of a callback, a function that is called after a return, equal options and a trampoline.
fn options(graph: &mut ComponentDfg) -> [u32; 5] {
    [
        number(graph.push_callback(FUNC)),
        number(graph.push_post_return(FUNC)),
        number(graph.push_options(OPTIONS)),
        number(graph.push_options(OPTIONS)),
        number(graph.push_trampoline(SIGNATURE, Trampoline::EnterSyncCall)),
    ]
}

/// The number of an adapter, which is always the same one.
fn adapter(graph: &mut ComponentDfg) -> u32 {
    number(graph.push_adapter(ADAPTER))
}

/// The numbers of a module of adapters, the place of an adapter, an exported type and a function of the host.
fn places(alloc: Global, graph: &mut ComponentDfg) -> [u32; 4] {
    let place = EntityIndex::Function(FuncIndex(0));
    [
        number(graph.push_adapter_module(StaticModuleIndex(0), Seq::new(alloc))),
        number(graph.push_partitioning(AdapterModuleId(0), place)),
        number(graph.push_export_item(TYPE)),
        number(graph.push_export_item(HOST)),
    ]
}

#[test]
fn entries_are_numbered(rt: HostRuntime) {
    let mut graph = ComponentDfg::new(rt.alloc(), Seed::fixed());
    holds(&rt, "imports", imports(rt.alloc(), &mut graph) == [0, 0, 0]);
    let numbers = tables_and_reallocs(&mut graph);
    holds(&rt, "tables and reallocs", numbers == [0, 0, 0, 1]);
    holds(&rt, "options", options(&mut graph) == [0, 0, 0, 0, 0]);
    holds(&rt, "an adapter", adapter(&mut graph) == 0);
    holds(&rt, "the same adapter", adapter(&mut graph) == 0);
    holds(
        &rt,
        "places",
        places(rt.alloc(), &mut graph) == [0, 0, 0, 1],
    );
}

/// Whether the export of this name is the only one of a graph.
fn is_exported(alloc: Global, name: Text) -> bool {
    let mut graph = ComponentDfg::new(alloc, Seed::fixed());
    let is_pushed = graph.push_export(name, ExportIndex(0), NO_DATA).is_ok();
    is_pushed & (graph.exports.len() == 1)
}

/// Whether an export has a name.
fn an_export_has_a_name(alloc: Global) -> Result<bool, NoMemory> {
    Ok(is_exported(alloc, Text::copy_of(alloc, "e")?))
}

#[test]
fn exports_have_names(rt: HostRuntime) {
    let has_name = an_export_has_a_name(rt.alloc()).unwrap_or(false);
    holds(&rt, "one export", has_name);
}
