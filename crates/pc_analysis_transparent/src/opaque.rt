//! Which component instances may see the state of a thread.
#![tactic(auto, unfolding(crate::specs::Opened::with_all))]

ghost use Rattle.std.specs.Prelude.{◌≡◌, ◌<◌, IfOk, OnOk, length};
ghost use Rattle.std.specs.List.{flat_map};
ghost use Rattle.std.specs.FinSet as set;
ghost use Rattle.pc_trampoline.specs.View.{parts_entry};
ghost use Rattle.pc_dfg.specs.Names.{in_instance, in_resource};
ghost use Rattle.pc_dfg.specs.Numbers.{graph_numbers};
ghost use Rattle.pc_analysis_transparent.specs.Context.{uses_context};
ghost use Rattle.pc_analysis_transparent.specs.Opaque.{HoldTypes};
ghost use Rattle.pc_analysis_transparent.specs.Opened.{by_adapter, by_effect, by_entry, by_export, by_trampoline};
ghost use Rattle.pc_analysis_transparent.specs.Opened.{in_options, in_lift, opened, when, with_all};

use crate::context::{of_def, of_instance, of_options, of_resource, of_side};
use crate::types::is_async;
use pc_dfg::{
    Adapter, CallbackId, ComponentDfg, CoreDef, Export, Instance, MemoryId, OptionsId,
    PostReturnId, Resource, SideEffect, TableId, Trampoline,
};
use pc_entity::{
    EntitySet, ModuleInternedTypeIndex, NoMemory, RuntimeComponentInstanceIndex, RuntimeImportIndex,
};
use pc_trampoline::{Head, Parts};
use pc_types_builder::ComponentTypesBuilder;
use std::alloc::Global;

/// Component instances that may see the state of a thread.
pub(crate) type Opaque = EntitySet<RuntimeComponentInstanceIndex>;

/// What a trampoline of the graph is made of.
type GraphParts = Parts<RuntimeImportIndex, OptionsId, MemoryId, TableId, CallbackId, PostReturnId>;

/// Adds a component instance, if it sees that state.
fn mark(
    opaque: &mut Opaque,
    instance: RuntimeComponentInstanceIndex,
    sees: bool,
) -> Result<(), NoMemory>
    ensures { OnOk result (opaque.new ≡ with_all opaque.old (when sees instance.0)) }
{
    if !sees {
        return Ok(());
    }
    opaque.insert(instance)?;
    Ok(())
}

/// Adds the component instance of options.
fn mark_options(
    graph: &ComponentDfg,
    opaque: &mut Opaque,
    options: OptionsId,
) -> Result<(), NoMemory>
    ensures { OnOk result (opaque.new ≡ with_all opaque.old (in_options graph.now options.0)) }
{
    match graph.options.get(options) {
        Some(entry) => mark(opaque, entry.instance, true),
        None => Ok(()),
    }
}

/// Adds the component instance of a lowering or a builtin.
fn mark_made(
    graph: &ComponentDfg,
    opaque: &mut Opaque,
    signature: ModuleInternedTypeIndex,
    made_of: GraphParts,
) -> Result<(), NoMemory>
    ensures { OnOk result (opaque.new
        ≡ with_all opaque.old (by_entry graph.now (parts_entry graph_numbers signature made_of))) }
{
    let _signature = signature;
    match made_of.head {
        Head::Lowering(_, _, options) => mark_options(graph, opaque, options),
        Head::Builtin(instance) => mark(opaque, instance, true),
        Head::Helper => Ok(()),
        Head::Transcoding(_, _, _) => Ok(()),
        Head::Trapping(_) => Ok(()),
    }
}

/// Adds the component instance that a trampoline is lowered or declared in.
#[tactic(auto, unfolding(crate::specs::Opened::by_trampoline))]
fn mark_trampoline(
    graph: &ComponentDfg,
    opaque: &mut Opaque,
    signed: &(ModuleInternedTypeIndex, Trampoline),
) -> Result<(), NoMemory>
    ensures { OnOk result (opaque.new ≡ with_all opaque.old (by_trampoline graph.now signed.now)) }
{
    mark_made(graph, opaque, signed.0, signed.1.parts())
}

/// Adds the component instances that trampolines are lowered or declared in.
fn mark_trampolines(graph: &ComponentDfg, opaque: &mut Opaque) -> Result<(), NoMemory>
    ensures { OnOk result (opaque.new
        ≡ with_all opaque.old (flat_map (by_trampoline graph.now) graph.now.trampolines)) }
{
    for signed in graph.trampolines.as_slice() {
        mark_trampoline(graph, opaque, signed)?;
    }
    Ok(())
}

/// Adds the component instances that an adapter makes opaque: the one that lowers an async function or has a function
/// of a context as option, and the one that lifts such a function or has one as option.
fn mark_adapter(
    types: &ComponentTypesBuilder,
    opaque: &mut Opaque,
    adapter: &Adapter,
) -> Result<(), NoMemory>
    requires held { adapter.now.lift_ty.0 < length types.now.funcs }
    ensures { OnOk result (opaque.new ≡ with_all opaque.old (by_adapter types.now adapter.now)) }
{
    let calls_async = is_async(types, adapter.lift_ty);
    let lower_option = of_side(&adapter.lower_options);
    let callee = of_def(&adapter.func);
    let lift_option = of_side(&adapter.lift_options);
    mark(
        opaque,
        adapter.lower_options.instance,
        calls_async | lower_option,
    )?;
    mark(opaque, adapter.lift_options.instance, callee | lift_option)?;
    Ok(())
}

/// Adds the component instances that adapters make opaque.
fn mark_adapters(
    graph: &ComponentDfg,
    types: &ComponentTypesBuilder,
    opaque: &mut Opaque,
) -> Result<(), NoMemory>
    requires held { HoldTypes types.now graph.now }
    ensures { OnOk result (opaque.new
        ≡ with_all opaque.old (flat_map (by_adapter types.now) graph.now.adapters)) }
{
    for adapter in graph.adapters.as_slice() {
        mark_adapter(types, opaque, adapter)?;
    }
    Ok(())
}

/// Adds the component instance of a core instance, if it is given a function of a context.
fn mark_given(
    opaque: &mut Opaque,
    made: &Instance,
    owner: RuntimeComponentInstanceIndex,
) -> Result<(), NoMemory>
    ensures { OnOk result (opaque.new
        ≡ with_all opaque.old (when (uses_context (in_instance made.now)) owner.0)) }
{
    let uses = of_instance(made);
    mark(opaque, owner, uses)?;
    Ok(())
}

/// Adds the component instance of a resource, if a function of a context is its destructor.
fn mark_declared(opaque: &mut Opaque, declared: &Resource) -> Result<(), NoMemory>
    ensures { OnOk result (opaque.new
        ≡ with_all opaque.old (when (uses_context (in_resource declared.now)) declared.now.instance.0)) }
{
    let uses = of_resource(declared);
    mark(opaque, declared.instance, uses)?;
    Ok(())
}

/// Adds the component instance that a side effect makes opaque.
#[tactic(auto, unfolding(crate::specs::Opened::by_effect, crate::specs::Opened::with_all))]
fn mark_effect(
    graph: &ComponentDfg,
    opaque: &mut Opaque,
    effect: SideEffect,
) -> Result<(), NoMemory>
    ensures { OnOk result (opaque.new ≡ with_all opaque.old (by_effect graph.now effect)) }
{
    match effect {
        SideEffect::Instance(instance, owner) => match graph.instances.get(instance) {
            Some(made) => mark_given(opaque, made, owner),
            None => Ok(()),
        },
        SideEffect::Resource(resource) => match graph.resources.get(resource) {
            Some(declared) => mark_declared(opaque, declared),
            None => Ok(()),
        },
    }
}

/// Adds the component instances that side effects make opaque.
fn mark_effects(graph: &ComponentDfg, opaque: &mut Opaque) -> Result<(), NoMemory>
    ensures { OnOk result (opaque.new
        ≡ with_all opaque.old (flat_map (by_effect graph.now) graph.now.side_effects)) }
{
    for effect in graph.side_effects.as_slice() {
        mark_effect(graph, opaque, *effect)?;
    }
    Ok(())
}

/// Adds the component instance that lifts a function, if it or an option of it is of a context.
fn mark_lift(
    graph: &ComponentDfg,
    opaque: &mut Opaque,
    func: &CoreDef,
    options: OptionsId,
) -> Result<(), NoMemory>
    ensures { OnOk result (opaque.new ≡ with_all opaque.old (in_lift graph.now func.now options.0)) }
{
    match graph.options.get(options) {
        Some(entry) => {
            let callee = of_def(func);
            let option = of_options(graph, entry);
            mark(opaque, entry.instance, callee | option)?;
            Ok(())
        }
        None => Ok(()),
    }
}

/// Adds the component instance that an export makes opaque.
#[tactic(auto, unfolding(crate::specs::Opened::by_export, crate::specs::Opened::with_all))]
fn mark_export(graph: &ComponentDfg, opaque: &mut Opaque, item: &Export) -> Result<(), NoMemory>
    ensures { OnOk result (opaque.new ≡ with_all opaque.old (by_export graph.now item.now)) }
{
    match item {
        Export::LiftedFunction {
            ty: _,
            func,
            options,
        } => mark_lift(graph, opaque, func, *options),
        Export::ImportedFunction { ty: _, import: _ } => Ok(()),
        Export::ModuleStatic { ty: _, index: _ } => Ok(()),
        Export::ModuleImport { ty: _, import: _ } => Ok(()),
        Export::Instance { ty: _, exports: _ } => Ok(()),
        Export::Type_(_) => Ok(()),
    }
}

/// Adds the component instances that exports make opaque.
fn mark_exports(graph: &ComponentDfg, opaque: &mut Opaque) -> Result<(), NoMemory>
    ensures { OnOk result (opaque.new
        ≡ with_all opaque.old (flat_map (by_export graph.now) graph.now.export_items)) }
{
    for item in graph.export_items.as_slice() {
        mark_export(graph, opaque, item)?;
    }
    Ok(())
}

/// The component instances that may see the state of a thread.
pub(crate) fn opaque_instances(
    alloc: Global,
    graph: &ComponentDfg,
    types: &ComponentTypesBuilder,
) -> Result<Opaque, NoMemory>
    requires held { HoldTypes types.now graph.now }
    ensures { IfOk result (λ s. s ≡ with_all set.empty (opened graph.now types.now)) }
{
    let mut opaque = EntitySet::new(alloc);
    mark_trampolines(graph, &mut opaque)?;
    mark_adapters(graph, types, &mut opaque)?;
    mark_effects(graph, &mut opaque)?;
    mark_exports(graph, &mut opaque)?;
    Ok(opaque)
}
