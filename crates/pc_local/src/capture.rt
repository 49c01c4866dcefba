//! Outer aliases, and what a nested component is given.

ghost use Rattle.std.specs.Prelude.{◌≡◌, List, map, IfOk, OnOk};
ghost use Rattle.pc_parsed.specs.declared.payload.AliasItem.TheVariants as alias;
ghost use Rattle.pc_parsed.specs.declared.payload.OuterKind.TheVariants as outer;
ghost use Rattle.pc_local.specs.declared.captured.Captured.{Captured};
ghost use Rattle.pc_local.specs.Captured.{AliasGoes, AliasesGo, part};
ghost use Rattle.pc_local.specs.Standing.{component_variable, module_variable};

use crate::captured::{Captured, Variable, capture};
use crate::item::{ClosedOverComponent, ClosedOverModule, LocalInitializer};
use pc_entity::{
    ComponentIndex, ComponentUpvarIndex, ModuleIndex, ModuleUpvarIndex, NoMemory, PrimaryMap, Seq,
    TryClone,
};
use pc_parsed::{AliasItem, OuterKind};
use std::alloc::Global;

fn closed_module(variable: Variable) -> ClosedOverModule
    ensures { module_variable result ≡ variable }
{
    match variable {
        Variable::Local(n) => ClosedOverModule::Local(ModuleIndex(n)),
        Variable::Upvar(n) => ClosedOverModule::Upvar(ModuleUpvarIndex(n)),
    }
}

fn closed_component(variable: Variable) -> ClosedOverComponent
    ensures { component_variable result ≡ variable }
{
    match variable {
        Variable::Local(n) => ClosedOverComponent::Local(ComponentIndex(n)),
        Variable::Upvar(n) => ClosedOverComponent::Upvar(ComponentUpvarIndex(n)),
    }
}

/// What a nested component is given for the modules that it captures.
pub(crate) fn closed_modules(
    alloc: Global,
    variables: &[Variable],
) -> Result<PrimaryMap<ModuleUpvarIndex, ClosedOverModule>, NoMemory>
    ensures { IfOk result (λ vars. map module_variable vars ≡ variables.now) }
{
    let mut vars = Vec::with_capacity(alloc, variables.len())?;
    for variable in variables {
        vars.push(closed_module(*variable))?;
    }
    Ok(PrimaryMap::from_vec(vars))
}

/// What a nested component is given for the components that it captures.
pub(crate) fn closed_components(
    alloc: Global,
    variables: &[Variable],
) -> Result<PrimaryMap<ComponentUpvarIndex, ClosedOverComponent>, NoMemory>
    ensures { IfOk result (λ vars. map component_variable vars ≡ variables.now) }
{
    let mut vars = Vec::with_capacity(alloc, variables.len())?;
    for variable in variables {
        vars.push(closed_component(*variable))?;
    }
    Ok(PrimaryMap::from_vec(vars))
}

/// An outer alias of a module. None stands in a list without a static fault that counts past the root.
fn push_module(
    items: &mut Seq<LocalInitializer>,
    modules: &mut Vec<Captured>,
    count: u32,
    index: u32,
) -> Result<(), NoMemory>
    ensures { OnOk result ((cs : List Captured) → AliasGoes (alias.Outer outer.CoreModule count index)
        (part items.old modules.old.items cs) (part items.new modules.new.items cs)) }
{
    if count as usize >= modules.len() {
        return Ok(());
    }
    let variable = capture(modules, count, index)?;
    items.push(LocalInitializer::AliasModule(closed_module(variable)))
}

/// An outer alias of a component. None stands in a list without a static fault that counts past the root.
fn push_component(
    items: &mut Seq<LocalInitializer>,
    components: &mut Vec<Captured>,
    count: u32,
    index: u32,
) -> Result<(), NoMemory>
    ensures { OnOk result ((ms : List Captured) → AliasGoes (alias.Outer outer.Component count index)
        (part items.old ms components.old.items) (part items.new ms components.new.items)) }
{
    if count as usize >= components.len() {
        return Ok(());
    }
    let variable = capture(components, count, index)?;
    items.push(LocalInitializer::AliasComponent(closed_component(variable)))
}

fn push_alias(
    alloc: Global,
    items: &mut Seq<LocalInitializer>,
    modules: &mut Vec<Captured>,
    components: &mut Vec<Captured>,
    alias: &AliasItem,
) -> Result<(), NoMemory>
    ensures { OnOk result (AliasGoes alias.now
        (part items.old modules.old.items components.old.items)
        (part items.new modules.new.items components.new.items)) }
{
    match alias {
        AliasItem::InstanceExport {
            kind,
            instance,
            name,
        } => items.push(LocalInitializer::AliasComponentExport {
            kind: *kind,
            instance: *instance,
            name: name.try_clone(alloc)?,
        }),
        AliasItem::CoreInstanceExport {
            kind,
            instance,
            name,
        } => items.push(LocalInitializer::AliasCoreExport {
            kind: *kind,
            instance: *instance,
            name: name.try_clone(alloc)?,
        }),
        AliasItem::Outer { kind, count, index } => match kind {
            OuterKind::CoreModule => push_module(items, modules, *count, *index),
            OuterKind::Component => push_component(items, components, *count, *index),
            // The type table has the type.
            _ => Ok(()),
        },
    }
}

/// Appends the items of an alias section.
pub(crate) fn push_aliases(
    alloc: Global,
    items: &mut Seq<LocalInitializer>,
    modules: &mut Vec<Captured>,
    components: &mut Vec<Captured>,
    aliases: &[AliasItem],
) -> Result<(), NoMemory>
    ensures { OnOk result (AliasesGo aliases.now
        (part items.old modules.old.items components.old.items)
        (part items.new modules.new.items components.new.items)) }
{
    for alias in aliases {
        push_alias(alloc, items, modules, components, alias)?;
    }
    Ok(())
}
