//! Which function imports are found to share a context.

ghost use Rattle.std.specs.Prelude.{◌≡◌, true, IfOk, OnOk};
ghost use Rattle.pc_dfg.specs.Ordered.{IsOrdered};
ghost use Rattle.pc_analysis_contexts.specs.Recorded.{HaveFewImports, records_of};

use crate::cores::{Given, export, group, make};
use crate::support::holds;
use pc_analysis_contexts::analyze_same_vmctx_imports;
use pc_dfg::laws::empty_is_ordered;
use pc_dfg::{ComponentDfg, PushError};
use pc_entity::{FuncIndex, NoMemory, PrimaryMap, Seed, Seq, StaticModuleIndex, Text};
use pc_info::ModuleTranslation;
use pc_types::{CoreEntity, ModuleRecord, SharedRecord};
use std::alloc::Global;
use std::test::*;

/// How many functions each module imports and defines: one that gives, one that passes on what it is given, one that is
/// made twice, one that is exported, one that is never made, and one of adapters.
const MODULES: [(u32, u32); 6] = [(0, 3), (2, 1), (7, 0), (3, 0), (3, 0), (4, 0)];

/// The imports that another one represents, by module.
const REPRESENTED: [(u32, u32, u32); 5] = [(2, 2, 0), (4, 1, 0), (4, 2, 0), (5, 2, 1), (5, 3, 0)];

/// A module that imports and defines so many functions.
fn functions(alloc: Global, imported: u32, defined: u32) -> Result<ModuleTranslation, NoMemory> {
    let mut imports = Seq::new(alloc);
    for _place in 0..imported {
        let module_name = Text::copy_of(alloc, "")?;
        imports.push((module_name, Text::copy_of(alloc, "")?, CoreEntity::Func(0)))?;
    }
    let mut funcs = Seq::new(alloc);
    for _place in 0..defined {
        funcs.push(0)?;
    }
    let record_ = ModuleRecord {
        imports,
        funcs,
        tables: 0,
        memories: Seq::new(alloc),
        globals: 0,
        tags: 0,
        exports: Seq::new(alloc),
    };
    let core_module = SharedRecord::new(alloc, record_)?;
    Ok(ModuleTranslation::new(alloc, core_module, Seq::new(alloc)))
}

/// The modules.
fn modules(alloc: Global) -> Result<PrimaryMap<StaticModuleIndex, ModuleTranslation>, NoMemory> {
    let mut modules = Vec::new(alloc);
    for counts in MODULES.as_slice() {
        modules.push(functions(alloc, counts.0, counts.1)?)?;
    }
    Ok(PrimaryMap::from_vec(modules))
}

/// Whether each module has few imports.
fn have_few(modules: &PrimaryMap<StaticModuleIndex, ModuleTranslation>) -> bool
    ensures { result ≡ true → HaveFewImports (records_of modules.now) }
{
    for held in modules.as_slice() {
        if held.module.get().imports.len() >= 1_000_000 {
            return false;
        }
    }
    true
}

/// The instances that are given nothing, and those that pass on what they are given.
fn make_first(alloc: Global, graph: &mut ComponentDfg) -> Result<(), PushError>
    requires ordered { IsOrdered graph.old }
    ensures ordered { OnOk result (IsOrdered graph.new) }
{
    let below = [Given::Func(0, 0), Given::Func(1, 0)];
    let above = [Given::Func(2, 0), Given::Func(2, 2)];
    let nothing: [Given; 0] = [];
    make(alloc, graph, 0, &nothing)?;
    make(alloc, graph, 0, &nothing)?;
    make(alloc, graph, 1, &below)?;
    make(alloc, graph, 1, &above)
}

/// Two instances of one module: imports 0 and 2 share a context in both, and 3 shares one with 6 or 0.
fn make_twice(alloc: Global, graph: &mut ComponentDfg) -> Result<(), PushError>
    requires ordered { IsOrdered graph.old }
    ensures ordered { OnOk result (IsOrdered graph.new) }
{
    let first = [
        Given::Func(3, 0),
        Given::Func(1, 1),
        Given::Func(0, 2),
        Given::Intrinsic,
        Given::Flags,
        Given::Flags,
        Given::Intrinsic,
    ];
    let second = [
        Given::Func(0, 0),
        Given::Func(3, 1),
        Given::Func(0, 1),
        Given::Func(0, 0),
        Given::Flags,
        Given::Flags,
        Given::Intrinsic,
    ];
    make(alloc, graph, 2, &first)?;
    make(alloc, graph, 2, &second)
}

/// An instance of a module that is exported, and a module of adapters.
fn make_last(alloc: Global, graph: &mut ComponentDfg) -> Result<(), PushError>
    requires ordered { IsOrdered graph.old }
    ensures ordered { OnOk result (IsOrdered graph.new) }
{
    let alike = [Given::Func(0, 0), Given::Func(0, 1), Given::Func(0, 2)];
    let imports = [
        Given::Intrinsic,
        Given::Func(2, 2),
        Given::Func(3, 1),
        Given::Intrinsic,
    ];
    make(alloc, graph, 3, &alike)?;
    export(graph, 3)?;
    group(alloc, graph, 5, &imports)
}

/// The graph.
fn graph(alloc: Global) -> Result<ComponentDfg, PushError>
    ensures { IfOk result IsOrdered }
{
    let mut graph = ComponentDfg::new(alloc, Seed::fixed());
    empty_is_ordered();
    graph.push_component_instance()?;
    make_first(alloc, &mut graph)?;
    make_twice(alloc, &mut graph)?;
    make_last(alloc, &mut graph)?;
    Ok(graph)
}

/// The representative that is wanted of an import.
fn wanted(number: u32, import: u32) -> Option<u32> {
    for row in REPRESENTED.as_slice() {
        if row.0 == number && row.1 == import {
            return Some(row.2);
        }
    }
    None
}

/// The representative that is recorded of an import.
fn recorded(held: &ModuleTranslation, import: u32) -> Option<u32> {
    let representatives = &held.imported_func_vmctx_representative;
    match representatives.get(FuncIndex(import)).expand() {
        Some(representative) => Some(representative.0),
        None => None,
    }
}

/// Whether a module has the representatives that are wanted.
fn is_as_wanted(number: u32, held: &ModuleTranslation) -> bool {
    for import in 0..8 {
        if recorded(held, import) != wanted(number, import) {
            return false;
        }
    }
    true
}

/// Whether all modules have.
fn are_as_wanted(modules: &PrimaryMap<StaticModuleIndex, ModuleTranslation>) -> bool {
    for number in 0..6 {
        match modules.get(StaticModuleIndex(number)) {
            Some(held) => {
                if !is_as_wanted(number, held) {
                    return false;
                }
            }
            None => return false,
        }
    }
    true
}

/// Whether what is recorded of the modules is what is wanted.
#[tactic(auto, using(crate::proofs::ContextLemmas::none_defined))]
fn is_recorded(alloc: Global) -> Result<bool, PushError> {
    let graph = graph(alloc)?;
    let mut modules = modules(alloc)?;
    if !graph.adapter_partitionings.is_empty() {
        return Err(PushError::TooMany);
    }
    if modules.len() > 6 {
        return Err(PushError::TooMany);
    }
    if !have_few(&modules) {
        return Err(PushError::TooMany);
    }
    analyze_same_vmctx_imports(alloc, &graph, &mut modules)?;
    Ok(are_as_wanted(&modules))
}

#[test]
fn imports_that_always_share_a_context_have_a_representative(rt: HostRuntime) {
    let answer = is_recorded(rt.alloc());
    holds(&rt, "representatives", answer == Ok(true));
}
