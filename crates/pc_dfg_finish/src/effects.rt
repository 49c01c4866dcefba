//! Side effects. Each becomes a step, in the order of the graph, once all that it names has a number.

ghost use Rattle.std.specs.Prelude.{◌≡◌, ◌≤◌, ◌++◌, ◌∷◌, [], ◌⊎◌, All, Err, IfOk, OnOk, length, Some};
ghost use Rattle.pc_info.specs.declared.initializer.GlobalInitializer.TheVariants as init;
ghost use Rattle.pc_dfg.specs.declared.instance.SideEffect.TheVariants as effect;
ghost use Rattle.pc_dfg.specs.Names.{if_any, in_instance};
ghost use Rattle.pc_dfg.specs.Ordered.{IsOrdered};
ghost use Rattle.pc_dfg_linearize.specs.declared.error.FinishError.TheVariants as refusal;
ghost use Rattle.pc_dfg_linearize.specs.Arguments.{CanNumber};
ghost use Rattle.pc_dfg_linearize.specs.Closed.{Fits};
ghost use Rattle.pc_dfg_linearize.specs.Full.{HasTooMany};
ghost use Rattle.pc_dfg_linearize.specs.Grouped.{IsGrouped};
ghost use Rattle.pc_dfg_linearize.specs.Made.{DoneBefore, IsDone, IsNext, Prepares, PreparesAny};
ghost use Rattle.pc_dfg_linearize.specs.Made.{with_instance, with_resource};
ghost use Rattle.pc_dfg_linearize.specs.Outgrown.{Outgrows};
ghost use Rattle.pc_dfg_finish.specs.Instantiated.{AreInstantiated, StayInstantiated};

use crate::arguments::{host_of, number_all, number_def, number_host};
use pc_dfg::{ComponentDfg, CoreDef, Instance, InstanceId, SideEffect};
use pc_dfg_linearize::{Finish, FinishError, add_step, append, def_of, defs_of};
use pc_entity::{Boxed, DefinedResourceIndex, RuntimeComponentInstanceIndex, RuntimeInstanceIndex};
use pc_info::{GlobalInitializer, InstantiateModule};
use std::alloc::Global;

/// A module with its arguments as the plan has them, once all that they depend on has a number.
fn instantiation_of(
    alloc: Global,
    graph: &ComponentDfg,
    finish: &mut Finish,
    instance: &Instance,
) -> Result<InstantiateModule, FinishError>
    requires ordered { IsOrdered graph.now }
    requires grouped { IsGrouped graph.now }
    requires ready { All (CanNumber graph.now (length finish.old.instances)) (in_instance instance.now) }
    requires fits { Fits graph.now finish.old }
    ensures prepares { IfOk result (λ m. Prepares graph.now finish.old finish.new instance.now m) }
    ensures full { result ≡ Err refusal.TooMany → Outgrows graph.now finish.old }
{
    match instance {
        Instance::Static(module, args) => {
            number_all(alloc, graph, finish, args.as_slice())?;
            let args = defs_of(alloc, graph, finish, args.as_slice())?;
            Ok(InstantiateModule::Static(*module, args))
        }
        Instance::Import(import, args) => {
            let args = args.get();
            number_host(alloc, graph, finish, args)?;
            let args = host_of(alloc, graph, finish, args)?;
            Ok(InstantiateModule::Import(*import, Boxed::new(alloc, args)?))
        }
    }
}

/// Adds the step that makes a core instance for a component instance.
fn push_instance(
    finish: &mut Finish,
    instantiation: InstantiateModule,
    owner: RuntimeComponentInstanceIndex,
) -> Result<(), FinishError>
    ensures added { OnOk result (finish.new ≡ with_instance finish.old instantiation owner) }
    ensures full { result ≡ Err refusal.TooMany
        → (4294967294 ≤ finish.old.counts.instances) ⊎ (4294967294 ≤ length finish.old.instances) }
{
    let number = RuntimeInstanceIndex(finish.counts.instances);
    let step = GlobalInitializer::InstantiateModule(instantiation, Some(owner));
    add_step(&mut finish.steps, &mut finish.counts.instances, step)?;
    append(&mut finish.instances, number)?;
    Ok(())
}

/// Makes a core instance.
fn make_instance(
    alloc: Global,
    graph: &ComponentDfg,
    finish: &mut Finish,
    instance: InstanceId,
    owner: RuntimeComponentInstanceIndex,
) -> Result<(), FinishError>
    requires ordered { IsOrdered graph.now }
    requires grouped { IsGrouped graph.now }
    requires next { IsNext graph.now finish.old (effect.Instance instance owner) }
    requires fits { Fits graph.now finish.old }
    ensures done { OnOk result (IsDone graph.now finish.old finish.new (effect.Instance instance owner)) }
    ensures instantiated { OnOk result (StayInstantiated graph.now finish.old finish.new) }
    ensures full { result ≡ Err refusal.TooMany → Outgrows graph.now finish.old }
{
    let instantiation = instantiation_of(alloc, graph, finish, &graph.instances[instance])?;
    push_instance(finish, instantiation, owner)
}

/// A destructor as the plan has it, once all that it depends on has a number.
fn destructor_of(
    alloc: Global,
    graph: &ComponentDfg,
    finish: &mut Finish,
    dtor: &Option<CoreDef>,
) -> Result<Option<pc_info::CoreDef>, FinishError>
    requires ordered { IsOrdered graph.now }
    requires grouped { IsGrouped graph.now }
    requires ready { All (CanNumber graph.now (length finish.old.instances)) (if_any dtor.now) }
    requires fits { Fits graph.now finish.old }
    ensures prepares { IfOk result (λ d. PreparesAny graph.now finish.old finish.new dtor.now d) }
    ensures full { result ≡ Err refusal.TooMany → Outgrows graph.now finish.old }
{
    match dtor {
        Some(def) => {
            number_def(alloc, graph, finish, def)?;
            Ok(Some(def_of(alloc, graph, finish, def)?))
        }
        None => Ok(None),
    }
}

/// Adds the step that declares a resource.
fn push_resource(finish: &mut Finish, resource: pc_info::Resource) -> Result<(), FinishError>
    ensures added { OnOk result (finish.new ≡ with_resource finish.old resource) }
    ensures full { result ≡ Err refusal.TooMany → 4294967294 ≤ length finish.old.resources }
{
    let owner = resource.instance;
    finish.steps.push(GlobalInitializer::Resource(resource))?;
    append(&mut finish.resources, owner)?;
    Ok(())
}

/// Declares a resource.
fn declare_resource(
    alloc: Global,
    graph: &ComponentDfg,
    finish: &mut Finish,
    index: DefinedResourceIndex,
) -> Result<(), FinishError>
    requires ordered { IsOrdered graph.now }
    requires grouped { IsGrouped graph.now }
    requires next { IsNext graph.now finish.old (effect.Resource index) }
    requires fits { Fits graph.now finish.old }
    ensures done { OnOk result (IsDone graph.now finish.old finish.new (effect.Resource index)) }
    ensures instantiated { OnOk result (StayInstantiated graph.now finish.old finish.new) }
    ensures full { result ≡ Err refusal.TooMany → Outgrows graph.now finish.old }
{
    let resource = &graph.resources[index];
    let dtor = destructor_of(alloc, graph, finish, &resource.dtor)?;
    push_resource(
        finish,
        pc_info::Resource {
            index,
            rep: resource.rep,
            dtor,
            instance: resource.instance,
        },
    )
}

/// Does a side effect.
fn do_effect(
    alloc: Global,
    graph: &ComponentDfg,
    finish: &mut Finish,
    effect: SideEffect,
) -> Result<(), FinishError>
    requires ordered { IsOrdered graph.now }
    requires grouped { IsGrouped graph.now }
    requires next { IsNext graph.now finish.old effect }
    requires fits { Fits graph.now finish.old }
    ensures done { OnOk result (IsDone graph.now finish.old finish.new effect) }
    ensures instantiated { OnOk result (StayInstantiated graph.now finish.old finish.new) }
    ensures full { result ≡ Err refusal.TooMany → Outgrows graph.now finish.old }
{
    match effect {
        SideEffect::Instance(instance, owner) => make_instance(
            alloc, graph, finish, instance, owner,
        ),
        SideEffect::Resource(index) => declare_resource(alloc, graph, finish, index),
    }
}

/// Does all side effects of a graph, in order.
pub(crate) fn do_effects(
    alloc: Global,
    graph: &ComponentDfg,
    finish: &mut Finish,
) -> Result<(), FinishError>
    requires ordered { IsOrdered graph.now }
    requires grouped { IsGrouped graph.now }
    requires begins { DoneBefore graph.now 0 finish.old }
    requires none_made { AreInstantiated graph.now finish.old }
    ensures done { OnOk result (DoneBefore graph.now (length graph.now.side_effects) finish.new) }
    ensures instantiated { OnOk result (AreInstantiated graph.now finish.new) }
    ensures full { result ≡ Err refusal.TooMany → HasTooMany graph.now }
{
    for effect in graph.side_effects.as_slice() {
        do_effect(alloc, graph, finish, *effect)?;
    }
    Ok(())
}
