//! How each module of a plan is instantiated: by its steps, and by the host where it is given the module.

ghost use Rattle.std.specs.Prelude.{◌≡◌, IfOk, length};
ghost use Rattle.pc_analysis_imports.specs.Exported.{is_exported_in};
ghost use Rattle.pc_analysis_imports.specs.Ways.{AreWays, JoinsExport, JoinsStep, TakesIn};

use pc_dfg::AbstractInstantiations;
use pc_entity::{NoMemory, StaticModuleIndex};
use pc_info::{Component, Export, GlobalInitializer, InstantiateModule};
use std::alloc::Global;

/// The way of one module takes in another way, if the module is there.
fn join_at<'a>(
    ways: &mut Vec<AbstractInstantiations<'a>>,
    core_module: StaticModuleIndex,
    other: AbstractInstantiations<'a>,
)
    ensures { TakesIn core_module.0 other.entry ways.old.items ways.new.items }
{
    let place = core_module.0 as usize;
    if place < ways.len() {
        let mut way = ways[place];
        way.join(other);
        ways[place] = way;
    }
}

/// A module that the host is given is instantiated in ways that a plan doesn't tell.
fn join_export<'a>(ways: &mut Vec<AbstractInstantiations<'a>>, item: &Export)
    ensures { JoinsExport item.now ways.old.items ways.new.items }
{
    match item {
        Export::ModuleStatic { ty: _, index } => join_at(
            ways,
            *index,
            AbstractInstantiations::Many,
        ),
        _ => {}
    }
}

/// A module of which a step makes an instance is instantiated with the arguments of the step.
fn join_step<'a>(ways: &mut Vec<AbstractInstantiations<'a>>, step: &'a GlobalInitializer)
    ensures { JoinsStep step.now ways.old.items ways.new.items }
{
    match step {
        GlobalInitializer::InstantiateModule(InstantiateModule::Static(module, args), _) => {
            join_at(ways, *module, AbstractInstantiations::One(args.as_slice()))
        }
        _ => {}
    }
}

/// How each of so many modules is instantiated.
pub(crate) fn ways<'a>(
    alloc: Global,
    modules: usize,
    component: &'a Component,
) -> Result<Vec<AbstractInstantiations<'a>>, NoMemory>
    ensures count { IfOk result (λ ways. length ways.items ≡ modules) }
    ensures ways { IfOk result (λ ways.
        AreWays (is_exported_in component.now.export_items) component.now.initializers ways.items) }
{
    let mut ways = Vec::new(alloc);
    ways.resize(modules, AbstractInstantiations::None)?;
    for step in component.initializers.as_slice() {
        join_step(&mut ways, step);
    }
    for item in component.export_items.as_slice() {
        join_export(&mut ways, item);
    }
    Ok(ways)
}
