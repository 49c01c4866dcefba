//! The graphs that are tested.

ghost use Rattle.std.specs.Prelude.{OnOk};
ghost use Rattle.pc_dfg.specs.Ordered.{IsOrdered};

use crate::sides::{Kind, adapter_of};
use pc_dfg::{AdapterId, ComponentDfg, CoreDef, Instance, InstanceId, PushError};
use pc_entity::{EntityRef, RuntimeComponentInstanceIndex, Seq, StaticModuleIndex};
use std::alloc::Global;

/// What a graph has. Each has three component instances, and core instance 0, which takes nothing.
#[derive(Clone, Copy)]
pub enum Shape {
    /// Adapter 0 is of strings; core instance 1 takes it, and adapter 1 is async and of that instance; adapter 2 is of
    /// core instance 0 again, and lacks a realloc.
    Small,

    /// The same without adapter 2.
    Pair,

    /// 100,000 adapters, each of a core instance that takes the one before it.
    Chain,

    /// 100,000 adapters, all of core instance 0.
    Wide,
}

impl Shape {
    /// How many steps make it.
    fn len(self) -> u32 {
        match self {
            Shape::Small => 3,
            Shape::Pair => 2,
            Shape::Chain => 100_000,
            Shape::Wide => 100_000,
        }
    }
}

/// Adds an adapter of functions of a core instance.
fn push(graph: &mut ComponentDfg, instance: InstanceId, kind: Kind) -> Result<AdapterId, PushError>
    requires ordered { IsOrdered graph.old }
    ensures ordered { IsOrdered graph.new }
{
    let is_held = (instance.as_u32() as usize) < graph.instances.len();
    if is_held && graph.num_runtime_component_instances > 2 {
        graph.push_adapter(adapter_of(instance, kind))
    } else {
        Err(PushError::TooMany)
    }
}

/// Makes a core instance that takes nothing.
fn make(alloc: Global, graph: &mut ComponentDfg) -> Result<InstanceId, PushError>
    requires ordered { IsOrdered graph.old }
    ensures ordered { OnOk result (IsOrdered graph.new) }
{
    if graph.num_runtime_component_instances < 3 {
        return Err(PushError::TooMany);
    }
    let instance = Instance::Static(StaticModuleIndex(0), Seq::new(alloc));
    graph.push_instance(instance, RuntimeComponentInstanceIndex(1))
}

/// Makes a core instance that takes an adapter.
#[tactic(auto, using(crate::proofs::HeldLemmas::held_one))]
fn make_with(
    alloc: Global,
    graph: &mut ComponentDfg,
    adapter: AdapterId,
) -> Result<InstanceId, PushError>
    requires ordered { IsOrdered graph.old }
    ensures ordered { OnOk result (IsOrdered graph.new) }
{
    let is_held = (adapter.as_u32() as usize) < graph.adapters.len();
    if !is_held || graph.num_runtime_component_instances < 3 {
        return Err(PushError::TooMany);
    }
    let mut args = Seq::new(alloc);
    args.push(CoreDef::Adapter(adapter))?;
    let instance = Instance::Static(StaticModuleIndex(0), args);
    graph.push_instance(instance, RuntimeComponentInstanceIndex(2))
}

/// Adds an adapter, and makes a core instance that takes it.
fn link(
    alloc: Global,
    graph: &mut ComponentDfg,
    instance: InstanceId,
    kind: Kind,
) -> Result<(), PushError>
    requires ordered { IsOrdered graph.old }
    ensures ordered { OnOk result (IsOrdered graph.new) }
{
    let adapter = push(graph, instance, kind)?;
    make_with(alloc, graph, adapter)?;
    Ok(())
}

/// A step of the small graph.
fn small_step(alloc: Global, graph: &mut ComponentDfg, n: u32) -> Result<(), PushError>
    requires ordered { IsOrdered graph.old }
    ensures ordered { OnOk result (IsOrdered graph.new) }
{
    match n {
        0 => link(alloc, graph, InstanceId(0), Kind::Strings),
        1 => {
            push(graph, InstanceId(1), Kind::Async)?;
            Ok(())
        }
        _ => {
            push(graph, InstanceId(0), Kind::Lacking)?;
            Ok(())
        }
    }
}

/// A step of a graph.
fn step(alloc: Global, graph: &mut ComponentDfg, shape: Shape, n: u32) -> Result<(), PushError>
    requires ordered { IsOrdered graph.old }
    ensures ordered { OnOk result (IsOrdered graph.new) }
{
    match shape {
        Shape::Small | Shape::Pair => small_step(alloc, graph, n),
        Shape::Chain => link(alloc, graph, InstanceId(n), Kind::Plain(0)),
        Shape::Wide => {
            push(graph, InstanceId(0), Kind::Plain(n))?;
            Ok(())
        }
    }
}

/// The component instances, and the first core instance.
fn begin(alloc: Global, graph: &mut ComponentDfg) -> Result<(), PushError>
    requires ordered { IsOrdered graph.old }
    ensures ordered { OnOk result (IsOrdered graph.new) }
{
    graph.push_component_instance()?;
    graph.push_component_instance()?;
    graph.push_component_instance()?;
    make(alloc, graph)?;
    Ok(())
}

/// Fills a graph.
pub(crate) fn fill(alloc: Global, graph: &mut ComponentDfg, shape: Shape) -> Result<(), PushError>
    requires ordered { IsOrdered graph.old }
    ensures ordered { OnOk result (IsOrdered graph.new) }
{
    begin(alloc, graph)?;
    for n in 0..shape.len() {
        step(alloc, graph, shape, n)?;
    }
    Ok(())
}
