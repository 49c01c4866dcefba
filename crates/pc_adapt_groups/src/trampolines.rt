//! What trampolines name. They lead to lower ones alone, so one pass from the lowest up finds it for all of them,
//! however long a chain of them is.

ghost use Rattle.std.specs.Prelude.{◌≡◌, IfOk, Some, length, map, option_map};
ghost use Rattle.std.specs.List.{flat_map};
ghost use Rattle.pc_dfg.specs.declared.ids.CallbackId.{CallbackId as Callbacks};
ghost use Rattle.pc_dfg.specs.declared.ids.MemoryId.{MemoryId as Memories};
ghost use Rattle.pc_dfg.specs.declared.ids.PostReturnId.{PostReturnId as PostReturns};
ghost use Rattle.pc_dfg.specs.declared.ids.ReallocId.{ReallocId as Reallocs};
ghost use Rattle.pc_spec_plan.specs.PlanView as plan;
ghost use Rattle.pc_trampoline.specs.Parts.{list_of};
ghost use Rattle.pc_trampoline.specs.View.{part_by, parts_entry};
ghost use Rattle.pc_dfg.specs.Names.{in_entry, in_model, in_options, in_part, in_slot, in_trampoline};
ghost use Rattle.pc_dfg.specs.Numbers.{graph_numbers, model_entry, options_entry, trampoline_entry};
ghost use Rattle.pc_dfg.specs.Ordered.{IsOrdered};
ghost use Rattle.pc_adapt_groups.specs.Reaches.{AreReaches, Gives};

use crate::reach::{NOTHING, Reach, join, of_instance, of_slot};
use pc_dfg::{
    CallbackId, CanonicalOptions, CanonicalOptionsDataModel, ComponentDfg, MemoryId, OptionsId,
    PostReturnId, ReallocId, TableId, Trampoline,
};
use pc_entity::{ModuleInternedTypeIndex, NoMemory, RuntimeImportIndex};
use pc_trampoline::{Head, Part, PartList, Parts};
use std::alloc::Global;

/// A part of a trampoline of the graph.
type GraphPart = Part<OptionsId, MemoryId, TableId, CallbackId, PostReturnId>;

/// What a trampoline of the graph is made of.
type GraphParts = Parts<RuntimeImportIndex, OptionsId, MemoryId, TableId, CallbackId, PostReturnId>;

/// What a memory names.
#[tactic(auto, unfolding(pc_dfg::specs::Numbers::slots_of))]
fn of_memory(graph: &ComponentDfg, reaches: &[Reach], memory: MemoryId) -> Reach
    ensures { Gives reaches.now (in_slot graph.now plan.memory (Some memory.0)) result }
{
    match graph.memories.get(memory) {
        Some(export) => of_instance(export.instance),
        None => NOTHING,
    }
}

/// What a memory names, if there is one.
#[tactic(auto, using(crate::proofs::GivesLemmas::gives_none))]
fn of_maybe_memory(graph: &ComponentDfg, reaches: &[Reach], memory: Option<MemoryId>) -> Reach
    ensures { Gives reaches.now
        (in_slot graph.now plan.memory (option_map (λ (m : Memories). m.0) memory)) result }
{
    match memory {
        Some(memory) => of_memory(graph, reaches, memory),
        None => NOTHING,
    }
}

/// What a table names.
#[tactic(auto, unfolding(pc_dfg::specs::Numbers::slots_of))]
fn of_table(graph: &ComponentDfg, reaches: &[Reach], table: TableId) -> Reach
    ensures { Gives reaches.now (in_slot graph.now plan.table (Some table.0)) result }
{
    match graph.tables.get(table) {
        Some(export) => of_instance(export.instance),
        None => NOTHING,
    }
}

/// What a function that makes room for values names.
#[tactic(auto, using(crate::proofs::GivesLemmas::gives_none), unfolding(pc_dfg::specs::Numbers::slots_of))]
fn of_realloc(graph: &ComponentDfg, reaches: &[Reach], realloc: ReallocId) -> Reach
    ensures { Gives reaches.now (in_slot graph.now plan.realloc (Some realloc.0)) result }
{
    of_slot(reaches, graph.reallocs.get(realloc))
}

/// What a callback names, if there is one.
#[tactic(auto, using(crate::proofs::GivesLemmas::gives_none), unfolding(pc_dfg::specs::Numbers::slots_of))]
fn of_callback(graph: &ComponentDfg, reaches: &[Reach], callback: Option<CallbackId>) -> Reach
    ensures { Gives reaches.now
        (in_slot graph.now plan.callback (option_map (λ (c : Callbacks). c.0) callback)) result }
{
    match callback {
        Some(callback) => of_slot(reaches, graph.callbacks.get(callback)),
        None => NOTHING,
    }
}

/// What a post-return function names, if there is one.
#[tactic(auto, using(crate::proofs::GivesLemmas::gives_none), unfolding(pc_dfg::specs::Numbers::slots_of))]
fn of_post_return(
    graph: &ComponentDfg,
    reaches: &[Reach],
    post_return: Option<PostReturnId>,
) -> Reach
    ensures { Gives reaches.now
        (in_slot graph.now plan.post_return (option_map (λ (p : PostReturns). p.0) post_return)) result }
{
    match post_return {
        Some(post_return) => of_slot(reaches, graph.post_returns.get(post_return)),
        None => NOTHING,
    }
}

/// What a realloc names, if there is one.
#[tactic(auto, using(crate::proofs::GivesLemmas::gives_none))]
fn of_maybe_realloc(graph: &ComponentDfg, reaches: &[Reach], realloc: Option<ReallocId>) -> Reach
    ensures { Gives reaches.now
        (in_slot graph.now plan.realloc (option_map (λ (r : Reallocs). r.0) realloc)) result }
{
    match realloc {
        Some(realloc) => of_realloc(graph, reaches, realloc),
        None => NOTHING,
    }
}

/// What a memory and its realloc name.
fn of_model(graph: &ComponentDfg, reaches: &[Reach], model: CanonicalOptionsDataModel) -> Reach
    ensures { Gives reaches.now (in_model graph.now (model_entry model)) result }
{
    match model {
        CanonicalOptionsDataModel::Gc {} => NOTHING,
        CanonicalOptionsDataModel::LinearMemory { memory, realloc } => {
            let memory = of_maybe_memory(graph, reaches, memory);
            let realloc = of_maybe_realloc(graph, reaches, realloc);
            join(memory, realloc)
        }
    }
}

/// What the slots of options name.
fn of_entry(graph: &ComponentDfg, reaches: &[Reach], options: &CanonicalOptions) -> Reach
    ensures { Gives reaches.now (in_entry graph.now (options_entry options.now)) result }
{
    let callback = of_callback(graph, reaches, options.callback);
    let post_return = of_post_return(graph, reaches, options.post_return);
    let model = of_model(graph, reaches, options.data_model);
    join(join(callback, post_return), model)
}

/// What options name.
fn of_options(graph: &ComponentDfg, reaches: &[Reach], options: OptionsId) -> Reach
    ensures { Gives reaches.now (in_options graph.now options.0) result }
{
    match graph.options.get(options) {
        Some(entry) => of_entry(graph, reaches, entry),
        None => NOTHING,
    }
}

/// What a part of a trampoline names.
#[tactic(auto, using(crate::proofs::GivesLemmas::gives_none))]
fn of_part(graph: &ComponentDfg, reaches: &[Reach], part: GraphPart) -> Reach
    ensures { Gives reaches.now (in_part graph.now (part_by graph_numbers part)) result }
{
    match part {
        Part::Type_(_) => NOTHING,
        Part::Number(_) => NOTHING,
        Part::Flag(_) => NOTHING,
        Part::Memory(memory) => of_memory(graph, reaches, memory),
        Part::MaybeMemory(memory) => of_maybe_memory(graph, reaches, memory),
        Part::Table(table) => of_table(graph, reaches, table),
        Part::Callback(callback) => of_callback(graph, reaches, callback),
        Part::PostReturn(post_return) => of_post_return(graph, reaches, post_return),
        Part::Options(options) => of_options(graph, reaches, options),
    }
}

/// What the parts of a trampoline name.
fn of_parts(graph: &ComponentDfg, reaches: &[Reach], parts: PartList<GraphPart>) -> Reach
    ensures { Gives reaches.now
        (flat_map (in_part graph.now) (map (part_by graph_numbers) (list_of parts))) result }
{
    match parts {
        PartList::Empty => NOTHING,
        PartList::One(part) => of_part(graph, reaches, part),
        PartList::Two(first, second) => {
            let front = of_part(graph, reaches, first);
            let back = of_part(graph, reaches, second);
            join(front, back)
        }
    }
}

/// What a trampoline names.
#[tactic(auto, unfolding(pc_dfg::specs::Names::in_trampoline))]
fn of_made(
    graph: &ComponentDfg,
    reaches: &[Reach],
    signature: ModuleInternedTypeIndex,
    made_of: GraphParts,
) -> Reach
    ensures { Gives reaches.now
        (in_trampoline graph.now (parts_entry graph_numbers signature made_of)) result }
{
    let _signature = signature;
    match made_of.head {
        Head::Lowering(_, _, options) => of_options(graph, reaches, options),
        Head::Builtin(_) | Head::Helper | Head::Transcoding(_, _, _) | Head::Trapping(_) => {
            of_parts(graph, reaches, made_of.parts)
        }
    }
}

/// What a trampoline of the graph names.
fn of_signed(
    graph: &ComponentDfg,
    reaches: &[Reach],
    signed: &(ModuleInternedTypeIndex, Trampoline),
) -> Reach
    ensures { Gives reaches.now (in_trampoline graph.now (trampoline_entry signed.now)) result }
{
    of_made(graph, reaches, signed.0, signed.1.parts())
}

/// What each trampoline names, the lowest first.
pub(crate) fn reaches(alloc: Global, graph: &ComponentDfg) -> Result<Vec<Reach>, NoMemory>
    requires ordered { IsOrdered graph.now }
    ensures known { IfOk result (λ rs. AreReaches graph.now rs.items) }
    ensures all { IfOk result (λ rs. length rs.items ≡ length graph.now.trampolines) }
{
    let mut reaches: Vec<Reach> = Vec::new(alloc);
    for signed in graph.trampolines.as_slice() {
        let reach = of_signed(graph, &reaches, signed);
        reaches.push(reach)?;
    }
    Ok(reaches)
}
