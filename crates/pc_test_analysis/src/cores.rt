//! Graphs of core instances, and the modules that these are of.

ghost use Rattle.std.specs.Prelude.{◌≡◌, true, OnOk};
ghost use Rattle.pc_dfg.specs.Held.{IsHeld};
ghost use Rattle.pc_dfg.specs.Ordered.{IsOrdered};
ghost use Rattle.pc_test_analysis.specs.Cores.{AreHeldAll};

use crate::parts::stores;
use pc_dfg::{
    ComponentDfg, CoreDef, CoreExport, Export, ExportItem, Instance, InstanceId, PushError,
};
use pc_entity::{
    EntityIndex, FuncIndex, NoMemory, RuntimeComponentInstanceIndex, Seq, StaticModuleIndex,
};
use std::alloc::Global;

/// What a core instance is given.
#[derive(Clone, Copy)]
pub(crate) enum Given {
    /// This function of an instance.
    Func(u32, u32),
    /// The flags of component instance 0.
    Flags,
    /// An intrinsic.
    Intrinsic,
}

/// It as a definition.
fn definition(given: Given) -> CoreDef {
    match given {
        Given::Func(instance, number) => CoreDef::Export(CoreExport {
            instance: InstanceId(instance),
            item: ExportItem::Index(EntityIndex::Function(FuncIndex(number))),
        }),
        Given::Flags => CoreDef::InstanceFlags(RuntimeComponentInstanceIndex(0)),
        Given::Intrinsic => stores(),
    }
}

/// Whether the graph holds the number in a definition.
#[tactic(auto, unfolding(pc_dfg::specs::Held::IsHeld))]
fn is_held(graph: &ComponentDfg, def: &CoreDef) -> bool
    ensures { result ≡ true → IsHeld graph.now def.now }
{
    match def {
        CoreDef::Export(export) => (export.instance.0 as usize) < graph.instances.len(),
        CoreDef::InstanceFlags(owner) => owner.0 < graph.num_runtime_component_instances,
        CoreDef::Trampoline(number) => (number.0 as usize) < graph.trampolines.len(),
        CoreDef::UnsafeIntrinsic(_, _) => true,
        CoreDef::Adapter(number) => (number.0 as usize) < graph.adapters.len(),
    }
}

/// Whether it holds those in all of these.
fn are_held(graph: &ComponentDfg, defs: &[CoreDef]) -> bool
    ensures { result ≡ true → AreHeldAll graph.now defs.now }
{
    for place in 0..defs.len() {
        if !is_held(graph, &defs[place]) {
            return false;
        }
    }
    true
}

/// What a core instance is given, as definitions.
fn arguments(alloc: Global, given: &[Given]) -> Result<Seq<CoreDef>, NoMemory> {
    let mut args = Seq::new(alloc);
    for one in given {
        args.push(definition(*one))?;
    }
    Ok(args)
}

/// Makes an instance of the module of a number.
#[tactic(auto, using(crate::proofs::ContextLemmas::held_instance))]
pub(crate) fn make(
    alloc: Global,
    graph: &mut ComponentDfg,
    number: u32,
    given: &[Given],
) -> Result<(), PushError>
    requires ordered { IsOrdered graph.old }
    ensures ordered { OnOk result (IsOrdered graph.new) }
{
    let args = arguments(alloc, given)?;
    if !are_held(graph, args.as_slice()) {
        return Err(PushError::TooMany);
    }
    if graph.num_runtime_component_instances < 1 {
        return Err(PushError::TooMany);
    }
    let instance = Instance::Static(StaticModuleIndex(number), args);
    graph.push_instance(instance, RuntimeComponentInstanceIndex(0))?;
    Ok(())
}

/// A module of adapters.
#[tactic(auto, using(crate::proofs::ContextLemmas::all_held))]
pub(crate) fn group(
    alloc: Global,
    graph: &mut ComponentDfg,
    number: u32,
    given: &[Given],
) -> Result<(), PushError>
    requires ordered { IsOrdered graph.old }
    ensures ordered { OnOk result (IsOrdered graph.new) }
{
    let args = arguments(alloc, given)?;
    if !are_held(graph, args.as_slice()) {
        return Err(PushError::TooMany);
    }
    graph.push_adapter_module(StaticModuleIndex(number), args)?;
    Ok(())
}

/// Exports the module of a number.
#[tactic(auto, unfolding(pc_dfg::specs::Held::HeldExport))]
pub(crate) fn export(graph: &mut ComponentDfg, number: u32) -> Result<(), PushError>
    requires ordered { IsOrdered graph.old }
    ensures ordered { OnOk result (IsOrdered graph.new) }
{
    let index = StaticModuleIndex(number);
    graph.push_export_item(Export::ModuleStatic { ty: 0, index })?;
    Ok(())
}
