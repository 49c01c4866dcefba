//! The translator as a library: makes a list of payloads, translates it, asks what is recorded of the core modules, and
//! lays out the context that a runtime makes for the plan.
#![tactic(auto)]

mod payloads;

use pc_entity::{FuncIndex, PackedOption, Seed, StaticModuleIndex};
use pc_info::{ComponentTranslation, KnownFunc, ModuleTranslation};
use pc_offsets::{PtrWidth, VMComponentOffsets};
use pc_parsed::Tunables;
use pc_translate::{PlanWithModules, plan_payloads};
use pc_types::Error;
use std::alloc::Global;
use std::io;

/// The plan of the payloads, and its core modules.
fn plan(alloc: Global) -> Result<PlanWithModules, Error> {
    let tunables = Tunables {
        max_component_instances: 100,
    };
    let table = payloads::types(alloc)?;
    let list = payloads::payloads(alloc)?;
    plan_payloads(alloc, Seed::fixed(), &tunables, &table, None, list)
}

/// Prints how many instances the plan makes.
fn print_counts(rt: &impl Print, plan: &ComponentTranslation) -> io::Result<()> {
    println!(rt;
        "{} core instances, {} component instances",
        plan.component.num_runtime_instances, plan.component.num_runtime_component_instances
    )
}

/// Prints what two function imports of a core module are known to be in each of its instances, and whether they share
/// a context.
fn print_facts(rt: &impl Print, which: &ModuleTranslation) -> io::Result<()> {
    for n in 0..2 {
        let known = which.known_imported_functions.get(FuncIndex(n));
        if let Some(KnownFunc::DefinedWasmFunction(of, func)) = known {
            println!(rt; "import {n} is function {} of module {}", func.0, of.0)?;
        }
        let shares = which.imported_func_vmctx_representative.get(FuncIndex(n));
        if let PackedOption::Some(first) = shares {
            println!(rt; "import {n} has the context of import {}", first.0)?;
        }
    }
    Ok(())
}

/// Prints how long the context is that a runtime makes, with pointers of eight bytes, and for how many component
/// instances it has flags.
fn print_layout(rt: &impl Print, plan: &ComponentTranslation) -> io::Result<()> {
    match VMComponentOffsets::new(PtrWidth::Eight, &plan.component) {
        Some(offsets) => println!(rt;
            "a context of {} bytes, with flags for {} component instances",
            offsets.size_of_vmctx(),
            offsets.may_leave().count()
        ),
        None => println!(rt; "no context is so long"),
    }
}

fn main(rt: HostRuntime) -> io::Result<()> {
    match plan(rt.alloc()) {
        Ok((plan, modules)) => {
            print_counts(&rt, &plan)?;
            if let Some(user) = modules.get(StaticModuleIndex(1)) {
                print_facts(&rt, user)?;
            }
            print_layout(&rt, &plan)
        }
        Err(error) => println!(rt; "{error}"),
    }
}
