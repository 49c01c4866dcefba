//! What adapters and side effects name.

ghost use Rattle.std.specs.Prelude.{map, option_map};
ghost use Rattle.pc_dfg.specs.Effects.{host_arguments};
ghost use Rattle.pc_dfg.specs.Names.{if_any, in_adapter, in_effect, in_instance, in_resource, in_side, in_side_model};
ghost use Rattle.pc_dfg.specs.Numbers.{memory_def};
ghost use Rattle.pc_adapt_groups.specs.Reaches.{Gives};

use crate::reach::{NOTHING, Reach, join, of_def, of_defs, of_instance, of_maybe};
use pc_dfg::{
    Adapter, AdapterOptions, ComponentDfg, CoreDef, CoreExport, DataModel, Instance, Resource,
    SideEffect,
};
use pc_entity::{MemoryIndex, TextMap};

/// What the memory of a side names, if there is one.
#[tactic(auto, using(crate::proofs::GivesLemmas::gives_none))]
fn of_side_memory(reaches: &[Reach], memory: &Option<(CoreExport<MemoryIndex>, bool)>) -> Reach
    ensures { Gives reaches.now (if_any (option_map (λ x. memory_def x.0) memory.now)) result }
{
    let _reaches = reaches;
    match memory {
        Some(memory) => of_instance(memory.0.instance),
        None => NOTHING,
    }
}

/// What the memory and the realloc of one side of an adapter name.
#[tactic(auto, using(crate::proofs::GivesLemmas::gives_none))]
fn of_side_model(reaches: &[Reach], model: &DataModel) -> Reach
    ensures { Gives reaches.now (in_side_model model.now) result }
{
    match model {
        DataModel::Gc {} => NOTHING,
        DataModel::LinearMemory { memory, realloc } => {
            let front = of_side_memory(reaches, memory);
            let back = of_maybe(reaches, realloc);
            join(front, back)
        }
    }
}

/// What the options of one side of an adapter name.
fn of_side(reaches: &[Reach], side: &AdapterOptions) -> Reach
    ensures { Gives reaches.now (in_side side.now) result }
{
    let callback = of_maybe(reaches, &side.callback);
    let post_return = of_maybe(reaches, &side.post_return);
    let model = of_side_model(reaches, &side.data_model);
    join(join(callback, post_return), model)
}

/// What an adapter names.
#[tactic(auto, unfolding(pc_dfg::specs::Names::in_adapter))]
pub(crate) fn of_adapter(reaches: &[Reach], adapter: &Adapter) -> Reach
    ensures { Gives reaches.now (in_adapter adapter.now) result }
{
    let func = of_def(reaches, &adapter.func);
    let lift = of_side(reaches, &adapter.lift_options);
    let lower = of_side(reaches, &adapter.lower_options);
    join(func, join(lift, lower))
}

/// What named arguments name.
fn of_named(reaches: &[Reach], args: &TextMap<CoreDef>) -> Reach
    ensures { Gives reaches.now (map (λ a. a.1) args.now) result }
{
    let mut reach = NOTHING;
    for place in 0..args.len() {
        let (_, def) = args.entry_at(place);
        reach = join(reach, of_def(reaches, def));
    }
    reach
}

/// What the arguments of a host module name.
fn of_host(reaches: &[Reach], args: &TextMap<TextMap<CoreDef>>) -> Reach
    ensures { Gives reaches.now (map (λ a. a.1.1) (host_arguments args.now)) result }
{
    let mut reach = NOTHING;
    for place in 0..args.len() {
        let (_, named) = args.entry_at(place);
        reach = join(reach, of_named(reaches, named));
    }
    reach
}

/// What the arguments of a core instance name.
#[tactic(auto, unfolding(pc_dfg::specs::Names::in_instance))]
fn of_arguments(reaches: &[Reach], instance: &Instance) -> Reach
    ensures { Gives reaches.now (in_instance instance.now) result }
{
    match instance {
        Instance::Static(_, args) => of_defs(reaches, args.as_slice()),
        Instance::Import(_, args) => of_host(reaches, args.get()),
    }
}

/// What the destructor of a resource names.
#[tactic(auto, unfolding(pc_dfg::specs::Names::in_resource))]
fn of_destructor(reaches: &[Reach], resource: &Resource) -> Reach
    ensures { Gives reaches.now (in_resource resource.now) result }
{
    of_maybe(reaches, &resource.dtor)
}

/// What a side effect names.
#[tactic(auto, using(crate::proofs::GivesLemmas::gives_none), unfolding(pc_dfg::specs::Names::in_effect))]
pub(crate) fn of_effect(graph: &ComponentDfg, reaches: &[Reach], effect: SideEffect) -> Reach
    ensures { Gives reaches.now (in_effect graph.now effect) result }
{
    match effect {
        SideEffect::Instance(instance, _) => match graph.instances.get(instance) {
            Some(instance) => of_arguments(reaches, instance),
            None => NOTHING,
        },
        SideEffect::Resource(resource) => match graph.resources.get(resource) {
            Some(resource) => of_destructor(reaches, resource),
            None => NOTHING,
        },
    }
}
