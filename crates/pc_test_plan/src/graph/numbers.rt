//! Numbers that a graph hands out, and a graph that is let go.

use crate::graph::TYPE;
use crate::support::{NO_DATA, holds, number};
use pc_dfg::{
    ComponentDfg, CoreExport, Export, ExportItem, Instance, InstanceId, Resource, SideEffect,
};
use pc_entity::{
    DefinedResourceIndex, ExportIndex, MemoryIndex, NoMemory, RuntimeComponentInstanceIndex, Seed,
    Seq, StaticModuleIndex, Text, TextMap,
};
use pc_types::{ComponentExternData, TypeComponentInstanceIndex, WasmValType};
use std::alloc::Global;

/// A memory of core instance 0.
const SEVENTH: CoreExport<MemoryIndex> = CoreExport {
    instance: InstanceId(0),
    item: ExportItem::Index(MemoryIndex(7)),
};

/// Another one.
const NINTH: CoreExport<MemoryIndex> = CoreExport {
    instance: InstanceId(0),
    item: ExportItem::Index(MemoryIndex(9)),
};

/// The numbers of three memories, of which two are equal.
fn three_memories(graph: &mut ComponentDfg) -> [u32; 3] {
    [
        number(graph.push_memory(SEVENTH)),
        number(graph.push_memory(NINTH)),
        number(graph.push_memory(SEVENTH)),
    ]
}

/// The first component instance.
const OWNER: RuntimeComponentInstanceIndex = RuntimeComponentInstanceIndex(0);

/// A resource without a destructor.
const RESOURCE: Resource = Resource {
    rep: WasmValType::I32,
    dtor: None,
    instance: OWNER,
};

/// A core instance without arguments.
fn instance(alloc: Global) -> Instance {
    Instance::Static(StaticModuleIndex(0), Seq::new(alloc))
}

/// A core instance, a resource and a core instance, in this order.
static EFFECTS: [SideEffect; 3] = [
    SideEffect::Instance(InstanceId(0), OWNER),
    SideEffect::Resource(DefinedResourceIndex(0)),
    SideEffect::Instance(InstanceId(1), OWNER),
];

/// The numbers of a component instance, and of a core instance, a resource and a core instance of it.
fn four_made(alloc: Global, graph: &mut ComponentDfg) -> [u32; 4] {
    [
        number(graph.push_component_instance()),
        number(graph.push_instance(instance(alloc), OWNER)),
        number(graph.push_resource(RESOURCE)),
        number(graph.push_instance(instance(alloc), OWNER)),
    ]
}

/// One name, for the item of this number.
fn one_name(
    alloc: Global,
    item: u32,
) -> Result<TextMap<(ExportIndex, ComponentExternData)>, NoMemory> {
    let name = Text::copy_of(alloc, "x")?;
    let mut exports = TextMap::new(alloc, Seed::fixed());
    exports.push(name, (ExportIndex(item), NO_DATA))?;
    Ok(exports)
}

/// An instance with the item of this number in it.
fn around(alloc: Global, below: u32) -> Result<Export, NoMemory> {
    Ok(Export::Instance {
        ty: TypeComponentInstanceIndex(0),
        exports: one_name(alloc, below)?,
    })
}

/// Adds a type, and so many instances, each around the item before it; those are left out that are refused. How many
/// items there are.
fn nest(alloc: Global, graph: &mut ComponentDfg, levels: u32) -> usize {
    number(graph.push_export_item(TYPE));
    for below in 0..levels {
        if let Ok(item) = around(alloc, below) {
            number(graph.push_export_item(item));
        }
    }
    graph.export_items.len()
}

#[test]
fn entries_come_in_order_and_a_deep_tree_of_exports_is_let_go(rt: HostRuntime) {
    let mut graph = ComponentDfg::new(rt.alloc(), Seed::fixed());
    let numbers = three_memories(&mut graph);
    holds(&rt, "equal memories", numbers == [0, 1, 0]);
    holds(&rt, "two memories", graph.memories.len() == 2);
    let numbers = four_made(rt.alloc(), &mut graph);
    holds(&rt, "instances and a resource", numbers == [0, 0, 0, 1]);
    let effects = graph.side_effects.as_slice();
    holds(&rt, "effects in order", effects == EFFECTS.as_slice());
    let items = nest(rt.alloc(), &mut graph, 30000);
    holds(&rt, "a deep tree of exports", items == 30001);
}
