//! A whole graph.

ghost use Rattle.std.specs.Prelude.{◌≡◌, ◌+◌, ◌<◌, length};
ghost use Rattle.pc_entity.specs.Lists.{AreDistinct};
ghost use Rattle.pc_dfg.specs.Empty.{empty_graph};

use crate::trampoline::Trampoline;
use crate::{
    Adapter, AdapterId, AdapterModuleId, CallbackId, CanonicalOptions, CoreDef, CoreExport, Export,
    Instance, InstanceId, Intern, MemoryId, OptionsId, PostReturnId, ReallocId, Resource,
    SideEffect, TableId,
};
use pc_entity::{
    DefinedResourceIndex, EntityIndex, EntityRef, EntitySet, ExportIndex, ImportIndex, MemoryIndex,
    ModuleInternedTypeIndex, PackedOption, PrimaryMap, ResourceIndex, RuntimeImportIndex, Seed,
    Seq, StaticModuleIndex, TableIndex, Text, TextMap, TrampolineIndex,
};
use pc_types::{ComponentExtern, ComponentExternData};
use std::alloc::Global;

/// How many unsafe intrinsics there are.
const INTRINSICS: usize = 21;

/// The graph of a component. Types are numbers of the types builder but for those of exported static modules.
pub struct ComponentDfg {
    /// The imports of the root component, those of resources aside: each with its name, its type and its extern data.
    pub import_types: PrimaryMap<ImportIndex, (Text, ComponentExtern)>,
    /// The host items that the component uses: each by an import and the names that lead to it from there.
    pub imports: PrimaryMap<RuntimeImportIndex, (ImportIndex, Seq<Text>)>,
    /// The exports of the root component in written order, each an item of `export_items`.
    pub exports: TextMap<(ExportIndex, ComponentExternData)>,
    /// What each export is, and each export within an instance, which stands before the instance.
    pub export_items: PrimaryMap<ExportIndex, Export>,
    /// The trampolines with their core signatures.
    pub trampolines: Intern<TrampolineIndex, (ModuleInternedTypeIndex, Trampoline)>,
    /// The core signature of each unsafe intrinsic, where it is known.
    pub unsafe_intrinsics: [PackedOption<ModuleInternedTypeIndex>; INTRINSICS],
    /// The functions that make room for values.
    pub reallocs: Intern<ReallocId, CoreDef>,
    /// The functions that go on with asynchronous calls.
    pub callbacks: Intern<CallbackId, CoreDef>,
    /// The functions that are called when results are read.
    pub post_returns: Intern<PostReturnId, CoreDef>,
    /// The memories that options and trampolines name.
    pub memories: Intern<MemoryId, CoreExport<MemoryIndex>>,
    /// The tables that trampolines name.
    pub tables: Intern<TableId, CoreExport<TableIndex>>,
    /// The fused adapters. An adapter leads to those before it alone.
    pub adapters: Intern<AdapterId, Adapter>,
    /// The core instances that are made for component instances.
    pub instances: PrimaryMap<InstanceId, Instance>,
    /// How many component instances there are.
    pub num_runtime_component_instances: u32,
    /// The modules of adapters with their arguments, once adapters are grouped.
    pub adapter_modules: PrimaryMap<AdapterModuleId, (StaticModuleIndex, Seq<CoreDef>)>,
    /// The module of each adapter and its function there, once adapters are grouped.
    pub adapter_partitionings: PrimaryMap<AdapterId, (AdapterModuleId, EntityIndex)>,
    /// The resources that the component declares.
    pub resources: PrimaryMap<DefinedResourceIndex, Resource>,
    /// The resources that are imported, each a host item. Among all resources they have the first numbers.
    pub imported_resources: PrimaryMap<ResourceIndex, RuntimeImportIndex>,
    pub num_future_tables: usize,
    pub num_stream_tables: usize,
    pub num_error_context_tables: usize,
    /// The core instances and resources that are made, in order.
    pub side_effects: Seq<SideEffect>,
    /// The options of lifted and lowered functions, which exports and trampolines name by number.
    pub options: Intern<OptionsId, CanonicalOptions>,
    /// The adapters that are known to be transparent: what they call can't see the state of the calling thread.
    pub transparent_adapters: EntitySet<AdapterId>,
}

impl ComponentDfg {
    ghost use Rattle.pc_dfg.specs.Told.{AreInterned};

    /// A graph with nothing in it, whose maps have this seed. It takes no memory.
    pub fn new(alloc: Global, seed: Seed) -> ComponentDfg
        ensures { result ≡ empty_graph }
    {
        ComponentDfg {
            import_types: PrimaryMap::new(alloc),
            imports: PrimaryMap::new(alloc),
            exports: TextMap::new(alloc, seed),
            export_items: PrimaryMap::new(alloc),
            trampolines: Intern::new(alloc, seed),
            unsafe_intrinsics: [PackedOption::None; INTRINSICS],
            reallocs: Intern::new(alloc, seed),
            callbacks: Intern::new(alloc, seed),
            post_returns: Intern::new(alloc, seed),
            memories: Intern::new(alloc, seed),
            tables: Intern::new(alloc, seed),
            adapters: Intern::new(alloc, seed),
            instances: PrimaryMap::new(alloc),
            num_runtime_component_instances: 0,
            adapter_modules: PrimaryMap::new(alloc),
            adapter_partitionings: PrimaryMap::new(alloc),
            resources: PrimaryMap::new(alloc),
            imported_resources: PrimaryMap::new(alloc),
            num_future_tables: 0,
            num_stream_tables: 0,
            num_error_context_tables: 0,
            side_effects: Seq::new(alloc),
            options: Intern::new(alloc, seed),
            transparent_adapters: EntitySet::new(alloc),
        }
    }

    /// The number of a declared resource among all, in which the imported ones come first.
    pub fn resource_index(&self, defined: DefinedResourceIndex) -> ResourceIndex
        requires { length self.now.imported_resources + defined.0 < 4294967296 }
        ensures { result.0 ≡ length self.now.imported_resources + defined.0 }
    {
        ResourceIndex(self.imported_resources.len() as u32 + defined.as_u32())
    }

    /// No entry of an interned list stands twice, so an entry has one number.
    pub fn entries_are_distinct(&self)
        ensures memories { AreDistinct self.now.memories }
        ensures tables { AreDistinct self.now.tables }
        ensures reallocs { AreDistinct self.now.reallocs }
        ensures callbacks { AreDistinct self.now.callbacks }
        ensures post_returns { AreDistinct self.now.post_returns }
        ensures trampolines { AreDistinct self.now.trampolines }
        ensures options { AreDistinct self.now.options }
        ensures adapters { AreDistinct self.now.adapters }
        ensures all { AreInterned self.now }
    {
        let _memories = self.memories.as_slice();
        let _tables = self.tables.as_slice();
        let _reallocs = self.reallocs.as_slice();
        let _callbacks = self.callbacks.as_slice();
        let _post_returns = self.post_returns.as_slice();
        let _trampolines = self.trampolines.as_slice();
        let _options = self.options.as_slice();
        let _adapters = self.adapters.as_slice();
    }
}

// By hand, since a derived drop of so many lists is proved anew, and slowly, in each crate that lets a graph go.
impl Drop for ComponentDfg {
    fn drop(self) {
        let ComponentDfg {
            import_types,
            imports,
            exports,
            export_items,
            trampolines,
            unsafe_intrinsics: _,
            reallocs,
            callbacks,
            post_returns,
            memories,
            tables,
            adapters,
            instances,
            num_runtime_component_instances: _,
            adapter_modules,
            adapter_partitionings,
            resources,
            imported_resources,
            num_future_tables: _,
            num_stream_tables: _,
            num_error_context_tables: _,
            side_effects,
            options,
            transparent_adapters,
        } = self;
        drop_imports(import_types, imports, imported_resources);
        drop_exports(exports, export_items);
        drop_functions(reallocs, callbacks, post_returns);
        drop_places(memories, tables);
        drop_named(trampolines, options);
        drop_adapters(
            adapters,
            adapter_modules,
            adapter_partitionings,
            transparent_adapters,
        );
        drop_effects(instances, resources, side_effects);
    }
}

fn drop_imports(
    _import_types: PrimaryMap<ImportIndex, (Text, ComponentExtern)>,
    _imports: PrimaryMap<RuntimeImportIndex, (ImportIndex, Seq<Text>)>,
    _imported_resources: PrimaryMap<ResourceIndex, RuntimeImportIndex>,
) {}

fn drop_exports(
    _exports: TextMap<(ExportIndex, ComponentExternData)>,
    _export_items: PrimaryMap<ExportIndex, Export>,
) {}

fn drop_functions(
    _reallocs: Intern<ReallocId, CoreDef>,
    _callbacks: Intern<CallbackId, CoreDef>,
    _post_returns: Intern<PostReturnId, CoreDef>,
) {}

fn drop_places(
    _memories: Intern<MemoryId, CoreExport<MemoryIndex>>,
    _tables: Intern<TableId, CoreExport<TableIndex>>,
) {}

fn drop_named(
    _trampolines: Intern<TrampolineIndex, (ModuleInternedTypeIndex, Trampoline)>,
    _options: Intern<OptionsId, CanonicalOptions>,
) {}

fn drop_adapters(
    _adapters: Intern<AdapterId, Adapter>,
    _adapter_modules: PrimaryMap<AdapterModuleId, (StaticModuleIndex, Seq<CoreDef>)>,
    _adapter_partitionings: PrimaryMap<AdapterId, (AdapterModuleId, EntityIndex)>,
    _transparent_adapters: EntitySet<AdapterId>,
) {}

fn drop_effects(
    _instances: PrimaryMap<InstanceId, Instance>,
    _resources: PrimaryMap<DefinedResourceIndex, Resource>,
    _side_effects: Seq<SideEffect>,
) {}
