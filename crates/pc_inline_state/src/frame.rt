//! A component instance while its items are read.

ghost use Rattle.std.specs.Prelude.{◌≡◌, [], slice_get, OnOk, OnErr};
ghost use Rattle.pc_types.specs.declared.error.Place.TheVariants as place;
ghost use Rattle.pc_inline_state.specs.Lists.{core_ids, item_ids, with_core_id, with_item_id};

use crate::definition::{CoreId, DefinitionId};
use crate::lookup::at;
use pc_dfg::InstanceId;
use pc_entity::{NoMemory, ResourceIndex, RuntimeComponentInstanceIndex, Seq, StaticModuleIndex};
use pc_inline_names::AtomMap;
use pc_parsed::ItemKind;
use pc_types::{CoreKind, Place};
use pc_types_builder::Converted;
use std::alloc::Global;

/// A core instance, as its component instance knows it.
#[derive(Drop)]
pub enum CoreInstance {
    /// An instance of a core module that was handed in.
    Made {
        instance: InstanceId,
        core_module: StaticModuleIndex,
    },
    /// An instance of a core module of the host, whose exports the table entry of its type names.
    Host {
        instance: InstanceId,
        entry: u32,
    },
    /// Core items under the numbers of their names.
    Bag(AtomMap<(CoreKind, CoreId)>),
}

/// What a table number of a resource stood for before it was made to stand for another.
#[derive(Clone, Copy)]
pub struct Change {
    pub number: u32,
    pub was: Option<ResourceIndex>,
}

/// A component instance while its items are read: what its indices count into, its arguments by the numbers of their
/// names, the types that were converted for it, and what the resource numbers that it changed stood for before, the
/// oldest change first.
pub struct Frame {
    pub core_funcs: Seq<CoreId>,
    pub memories: Seq<CoreId>,
    pub tables: Seq<CoreId>,
    pub globals: Seq<CoreId>,
    pub tags: Seq<CoreId>,
    pub modules: Seq<DefinitionId>,
    pub funcs: Seq<DefinitionId>,
    pub components: Seq<DefinitionId>,
    pub instances: Seq<DefinitionId>,
    pub core_instances: Seq<CoreInstance>,
    pub arguments: AtomMap<DefinitionId>,
    pub component_instance: RuntimeComponentInstanceIndex,
    pub converted: Converted,
    pub changes: Seq<Change>,
}

impl Frame {
    /// A component instance in which nothing was read yet.
    pub fn new(
        alloc: Global,
        converted: Converted,
        component_instance: RuntimeComponentInstanceIndex,
        arguments: AtomMap<DefinitionId>,
    ) -> Frame
        ensures { result ≡ record {
          core_funcs = [];
          memories = [];
          tables = [];
          globals = [];
          tags = [];
          modules = [];
          funcs = [];
          components = [];
          instances = [];
          core_instances = [];
          arguments = arguments;
          component_instance = component_instance;
          converted = converted;
          changes = [];
        } }
    {
        Frame {
            core_funcs: Seq::new(alloc),
            memories: Seq::new(alloc),
            tables: Seq::new(alloc),
            globals: Seq::new(alloc),
            tags: Seq::new(alloc),
            modules: Seq::new(alloc),
            funcs: Seq::new(alloc),
            components: Seq::new(alloc),
            instances: Seq::new(alloc),
            core_instances: Seq::new(alloc),
            arguments,
            component_instance,
            converted,
            changes: Seq::new(alloc),
        }
    }

    /// The place of an item of the component instance.
    pub fn place_of(&self, item: usize) -> Place
        ensures { result ≡ place.Reading self.now.component_instance.0 item }
    {
        Place::Reading {
            instance: self.component_instance.0,
            item: item as u64,
        }
    }

    /// The core items of a kind.
    pub fn core_ids(&self, kind: CoreKind) -> &[CoreId]
        ensures { result.now ≡ core_ids self.now kind }
    {
        match kind {
            CoreKind::Func => self.core_funcs.as_slice(),
            CoreKind::Table => self.tables.as_slice(),
            CoreKind::Memory => self.memories.as_slice(),
            CoreKind::Global => self.globals.as_slice(),
            CoreKind::Tag => self.tags.as_slice(),
        }
    }

    /// Adds a core item of a kind.
    pub fn push_core(&mut self, kind: CoreKind, id: CoreId) -> Result<(), NoMemory>
        ensures ok { OnOk result (self.new ≡ with_core_id self.old kind id) }
        ensures err { OnErr result (self.new ≡ self.old) }
    {
        match kind {
            CoreKind::Func => self.core_funcs.push(id),
            CoreKind::Table => self.tables.push(id),
            CoreKind::Memory => self.memories.push(id),
            CoreKind::Global => self.globals.push(id),
            CoreKind::Tag => self.tags.push(id),
        }
    }

    /// The item of a kind at an index. Types and values stand in no list.
    pub fn item(&self, kind: ItemKind, index: u32) -> Option<DefinitionId>
        ensures { result ≡ slice_get (item_ids self.now kind) index }
    {
        match kind {
            ItemKind::Func => at(self.funcs.as_slice(), index),
            ItemKind::Module => at(self.modules.as_slice(), index),
            ItemKind::Instance => at(self.instances.as_slice(), index),
            ItemKind::Component => at(self.components.as_slice(), index),
            ItemKind::Type_ | ItemKind::Value => None,
        }
    }

    /// Adds an item of a kind. A type or a value adds nothing.
    pub fn push_item(&mut self, kind: ItemKind, id: DefinitionId) -> Result<(), NoMemory>
        ensures ok { OnOk result (self.new ≡ with_item_id self.old kind id) }
        ensures err { OnErr result (self.new ≡ self.old) }
    {
        match kind {
            ItemKind::Func => self.funcs.push(id),
            ItemKind::Module => self.modules.push(id),
            ItemKind::Instance => self.instances.push(id),
            ItemKind::Component => self.components.push(id),
            ItemKind::Type_ | ItemKind::Value => Ok(()),
        }
    }
}

// By hand, as that of a state.
impl Drop for Frame {
    fn drop(self) {
        let Frame {
            core_funcs,
            memories,
            tables,
            globals,
            tags,
            modules,
            funcs,
            components,
            instances,
            core_instances,
            arguments,
            component_instance: _,
            converted,
            changes,
        } = self;
        drop_core_items(core_funcs, memories, tables, globals, tags);
        drop_items(modules, funcs, components, instances);
        drop_named(core_instances, arguments);
        drop_converted(converted, changes);
    }
}

fn drop_core_items(
    _core_funcs: Seq<CoreId>,
    _memories: Seq<CoreId>,
    _tables: Seq<CoreId>,
    _globals: Seq<CoreId>,
    _tags: Seq<CoreId>,
) {}

fn drop_items(
    _modules: Seq<DefinitionId>,
    _funcs: Seq<DefinitionId>,
    _components: Seq<DefinitionId>,
    _instances: Seq<DefinitionId>,
) {}

fn drop_named(_core_instances: Seq<CoreInstance>, _arguments: AtomMap<DefinitionId>) {}

fn drop_converted(_converted: Converted, _changes: Seq<Change>) {}
