//! A whole plan.

ghost use Rattle.std.specs.Prelude.{◌≡◌, ◌+◌, ◌<◌, length};
ghost use Rattle.pc_info.specs.Component.{defined_resource, empty_component};

use crate::export::Export;
use crate::initializer::GlobalInitializer;
use crate::options::CanonicalOptions;
use crate::trampoline::Trampoline;
use pc_entity::{
    DefinedResourceIndex, EntityRef, ExportIndex, ImportIndex, ModuleInternedTypeIndex,
    OptionsIndex, PackedOption, PrimaryMap, ResourceIndex, RuntimeComponentInstanceIndex,
    RuntimeImportIndex, Seed, Seq, Text, TrampolineIndex,
};
use pc_names::NameMap;
use pc_types::{ComponentExtern, ComponentExternData};
use std::alloc::Global;

/// How many unsafe intrinsics there are.
const INTRINSICS: usize = 21;

/// A plan of instantiation. Each count says how many entries of its kind a run makes.
pub struct Component {
    /// The imports of the root component, those of resources aside: each with its name, its type and its extern data.
    pub import_types: PrimaryMap<ImportIndex, (Text, ComponentExtern)>,
    /// The host items that the plan uses: each by an import and the names that lead to it from there.
    pub imports: PrimaryMap<RuntimeImportIndex, (ImportIndex, Seq<Text>)>,
    /// The exports of the root component in written order, each an item of `export_items`.
    pub exports: NameMap<Text, (ExportIndex, ComponentExternData)>,
    /// What each export is, and each export within an instance, which stands before the instance.
    pub export_items: PrimaryMap<ExportIndex, Export>,
    /// The steps of the plan, in order.
    pub initializers: Seq<GlobalInitializer>,
    pub num_runtime_instances: u32,
    pub num_runtime_component_instances: u32,
    pub num_lowerings: u32,
    pub num_runtime_memories: u32,
    pub num_runtime_tables: u32,
    pub num_runtime_reallocs: u32,
    pub num_runtime_callbacks: u32,
    pub num_runtime_post_returns: u32,
    pub num_resources: u32,
    pub num_future_tables: usize,
    pub num_stream_tables: usize,
    pub num_error_context_tables: usize,
    /// The core signature of each trampoline.
    pub trampolines: PrimaryMap<TrampolineIndex, ModuleInternedTypeIndex>,
    /// The core signature of each unsafe intrinsic that the plan uses.
    pub unsafe_intrinsics: [PackedOption<ModuleInternedTypeIndex>; INTRINSICS],
    /// The resources that are imported, each a host item. They have the first numbers.
    pub imported_resources: PrimaryMap<ResourceIndex, RuntimeImportIndex>,
    /// The component instance of each resource that the plan declares.
    pub defined_resource_instances: PrimaryMap<DefinedResourceIndex, RuntimeComponentInstanceIndex>,
    /// The options of lifted and lowered functions, which exports and trampolines name by number.
    pub options: PrimaryMap<OptionsIndex, CanonicalOptions>,
}

impl Component {
    /// A plan without imports, steps and exports, whose map of names has this seed. It takes no memory.
    pub fn new(alloc: Global, seed: Seed) -> Component
        ensures { result ≡ empty_component }
    {
        Component {
            import_types: PrimaryMap::new(alloc),
            imports: PrimaryMap::new(alloc),
            exports: NameMap::new(alloc, seed),
            export_items: PrimaryMap::new(alloc),
            initializers: Seq::new(alloc),
            num_runtime_instances: 0,
            num_runtime_component_instances: 0,
            num_lowerings: 0,
            num_runtime_memories: 0,
            num_runtime_tables: 0,
            num_runtime_reallocs: 0,
            num_runtime_callbacks: 0,
            num_runtime_post_returns: 0,
            num_resources: 0,
            num_future_tables: 0,
            num_stream_tables: 0,
            num_error_context_tables: 0,
            trampolines: PrimaryMap::new(alloc),
            unsafe_intrinsics: [PackedOption::None; INTRINSICS],
            imported_resources: PrimaryMap::new(alloc),
            defined_resource_instances: PrimaryMap::new(alloc),
            options: PrimaryMap::new(alloc),
        }
    }

    /// The number of a resource among those that the plan declares, if it isn't an imported one.
    pub fn defined_resource_index(&self, idx: ResourceIndex) -> Option<DefinedResourceIndex>
        ensures { result ≡ defined_resource (length self.now.imported_resources) idx }
    {
        let imported = self.imported_resources.len();
        let index = idx.as_u32() as usize;
        if imported <= index {
            Some(DefinedResourceIndex((index - imported) as u32))
        } else {
            None
        }
    }

    /// The number of a declared resource among all, in which the imported ones come first.
    pub fn resource_index(&self, idx: DefinedResourceIndex) -> ResourceIndex
        requires { length self.now.imported_resources + idx.0 < 4294967296 }
        ensures { result.0 ≡ length self.now.imported_resources + idx.0 }
    {
        ResourceIndex(self.imported_resources.len() as u32 + idx.as_u32())
    }
}

// By hand, since a derived drop of so many lists is proved anew, and slowly, in each crate that lets a plan go.
impl Drop for Component {
    fn drop(self) {
        let Component {
            import_types,
            imports,
            exports,
            export_items,
            initializers,
            num_runtime_instances: _,
            num_runtime_component_instances: _,
            num_lowerings: _,
            num_runtime_memories: _,
            num_runtime_tables: _,
            num_runtime_reallocs: _,
            num_runtime_callbacks: _,
            num_runtime_post_returns: _,
            num_resources: _,
            num_future_tables: _,
            num_stream_tables: _,
            num_error_context_tables: _,
            trampolines,
            unsafe_intrinsics: _,
            imported_resources,
            defined_resource_instances,
            options,
        } = self;
        drop_imports(import_types, imports);
        drop_exports(exports, export_items);
        drop_steps(initializers);
        drop_numbers(
            trampolines,
            imported_resources,
            defined_resource_instances,
            options,
        );
    }
}

fn drop_imports(
    _import_types: PrimaryMap<ImportIndex, (Text, ComponentExtern)>,
    _imports: PrimaryMap<RuntimeImportIndex, (ImportIndex, Seq<Text>)>,
) {}

fn drop_exports(
    _exports: NameMap<Text, (ExportIndex, ComponentExternData)>,
    _export_items: PrimaryMap<ExportIndex, Export>,
) {}

fn drop_steps(_initializers: Seq<GlobalInitializer>) {}

fn drop_numbers(
    _trampolines: PrimaryMap<TrampolineIndex, ModuleInternedTypeIndex>,
    _imported_resources: PrimaryMap<ResourceIndex, RuntimeImportIndex>,
    _defined_resource_instances: PrimaryMap<DefinedResourceIndex, RuntimeComponentInstanceIndex>,
    _options: PrimaryMap<OptionsIndex, CanonicalOptions>,
) {}

/// What a translation makes of a component.
#[derive(Drop)]
pub struct ComponentTranslation {
    /// The plan.
    pub component: Component,
    /// What each trampoline of the plan does.
    pub trampolines: PrimaryMap<TrampolineIndex, Trampoline>,
}
