//! Opening an id: it is looked at whether it has its number, and if not, all that it depends on goes onto the stack.
//!
//! The stack holds ids alone. What an id depends on is read off the graph again when it is closed, and no list is
//! copied: the parts go onto the stack from the last to the first, so that the first is made first.

ghost use Rattle.std.specs.Prelude.{◌≡◌, ◌++◌, ◌∷◌, [], OnOk, option_map, ℕ};
ghost use Rattle.std.specs.List.{flat_map};
ghost use Rattle.std.specs.Option.{is_some};
ghost use Rattle.pc_dfg.specs.declared.ids.CallbackId.{CallbackId as Callbacks};
ghost use Rattle.pc_dfg.specs.declared.ids.MemoryId.{MemoryId as Memories};
ghost use Rattle.pc_dfg.specs.declared.ids.PostReturnId.{PostReturnId as PostReturns};
ghost use Rattle.pc_dfg.specs.declared.ids.ReallocId.{ReallocId as Reallocs};
ghost use Rattle.pc_dfg.specs.declared.ids.TableId.{TableId as Tables};
ghost use Rattle.pc_spec_plan.specs.PlanView as plan;
ghost use Rattle.pc_trampoline.specs.Parts.{list_of};
ghost use Rattle.pc_trampoline.specs.View.{part_by, parts_entry};
ghost use Rattle.pc_dfg.specs.Names.{if_any};
ghost use Rattle.pc_dfg.specs.Numbers.{graph_numbers, options_entry};
ghost use Rattle.pc_dfg_linearize.specs.Parts.{in_def, in_entry, in_part, in_trampoline, maybe_slot, number_of};
ghost use Rattle.pc_dfg_linearize.specs.Parts.{options_id, parts, slot_id};
ghost use Rattle.pc_dfg_linearize.specs.Stack.{Opens, opens};

use crate::id::{Id, Task};
use crate::state::Finish;
use pc_dfg::{
    AdapterModuleId, CallbackId, CanonicalOptions, CanonicalOptionsDataModel, ComponentDfg,
    CoreDef, MemoryId, OptionsId, PostReturnId, ReallocId, TableId,
};
use pc_entity::{ModuleInternedTypeIndex, NoMemory, RuntimeImportIndex, TrampolineIndex};
use pc_trampoline::{Head, Part, PartList, Parts};

/// A part of a trampoline of the graph.
type GraphPart = Part<OptionsId, MemoryId, TableId, CallbackId, PostReturnId>;

/// What a trampoline of the graph is made of.
type GraphParts = Parts<RuntimeImportIndex, OptionsId, MemoryId, TableId, CallbackId, PostReturnId>;

/// Whether an id has its number.
#[tactic(auto, using(crate::proofs::OpenLemmas::some_mapped), unfolding(crate::specs::Parts::number_of))]
fn has_number(finish: &Finish, id: Id) -> bool
    ensures { result ≡ is_some (number_of finish.now id) }
{
    match id {
        Id::Memory(memory) => finish.numbers.memories.has(memory),
        Id::Table(table) => finish.numbers.tables.has(table),
        Id::Realloc(realloc) => finish.numbers.reallocs.has(realloc),
        Id::Callback(callback) => finish.numbers.callbacks.has(callback),
        Id::PostReturn(post_return) => finish.numbers.post_returns.has(post_return),
        Id::Options(options) => finish.numbers.options.has(options),
        Id::Lowering(trampoline) => finish.numbers.lowerings.has(trampoline),
        Id::Trampoline(trampoline) => finish.numbers.trampolines.has(trampoline),
        Id::Intrinsic(_, intrinsic) => !finish.intrinsics[intrinsic.index() as usize].is_none(),
        Id::AdapterModule(adapter_module) => finish.numbers.adapter_modules.has(adapter_module),
    }
}

/// Puts a task onto the stack.
pub(crate) fn put(tasks: &mut Vec<Task>, task: Task) -> Result<(), NoMemory>
    ensures { OnOk result (tasks.new.items ≡ tasks.old.items ++ task ∷ []) }
{
    Ok(tasks.push(task)?)
}

/// What a definition depends on, if on anything.
pub fn id_in(graph: &ComponentDfg, def: &CoreDef) -> Option<Id>
    ensures { if_any result ≡ in_def graph.now def.now }
{
    match def {
        CoreDef::Export(_) | CoreDef::InstanceFlags(_) => None,
        CoreDef::Trampoline(trampoline) => Some(Id::Trampoline(*trampoline)),
        CoreDef::UnsafeIntrinsic(signature, intrinsic) => Some(Id::Intrinsic(
            *signature, *intrinsic,
        )),
        CoreDef::Adapter(adapter) => match graph.adapter_partitionings.get(*adapter) {
            Some(place) => Some(Id::AdapterModule(place.0)),
            None => None,
        },
    }
}

/// Puts what a definition depends on onto the stack.
fn open_def(graph: &ComponentDfg, tasks: &mut Vec<Task>, def: &CoreDef) -> Result<(), NoMemory>
    ensures { OnOk result (tasks.new.items ≡ tasks.old.items ++ opens (in_def graph.now def.now)) }
{
    match id_in(graph, def) {
        Some(id) => put(tasks, Task::Open(id)),
        None => Ok(()),
    }
}

/// Puts what these definitions depend on onto the stack.
fn open_defs(graph: &ComponentDfg, tasks: &mut Vec<Task>, defs: &[CoreDef]) -> Result<(), NoMemory>
    ensures { OnOk result
        (tasks.new.items ≡ tasks.old.items ++ opens (flat_map (in_def graph.now) defs.now)) }
{
    let mut left = defs.len();
    while left > 0 {
        left -= 1;
        open_def(graph, tasks, &defs[left])?;
    }
    Ok(())
}

/// Puts a memory onto the stack, if there is one.
fn open_memory(tasks: &mut Vec<Task>, memory: Option<MemoryId>) -> Result<(), NoMemory>
    ensures { OnOk result (tasks.new.items ≡ tasks.old.items
        ++ opens (maybe_slot plan.memory (option_map (λ (m : Memories). m.0) memory))) }
{
    match memory {
        Some(memory) => put(tasks, Task::Open(Id::Memory(memory))),
        None => Ok(()),
    }
}

/// Puts a function that makes room for values onto the stack, if there is one.
fn open_realloc(tasks: &mut Vec<Task>, realloc: Option<ReallocId>) -> Result<(), NoMemory>
    ensures { OnOk result (tasks.new.items ≡ tasks.old.items
        ++ opens (maybe_slot plan.realloc (option_map (λ (r : Reallocs). r.0) realloc))) }
{
    match realloc {
        Some(realloc) => put(tasks, Task::Open(Id::Realloc(realloc))),
        None => Ok(()),
    }
}

/// Puts a callback onto the stack, if there is one.
fn open_callback(tasks: &mut Vec<Task>, callback: Option<CallbackId>) -> Result<(), NoMemory>
    ensures { OnOk result (tasks.new.items ≡ tasks.old.items
        ++ opens (maybe_slot plan.callback (option_map (λ (c : Callbacks). c.0) callback))) }
{
    match callback {
        Some(callback) => put(tasks, Task::Open(Id::Callback(callback))),
        None => Ok(()),
    }
}

/// Puts a post-return function onto the stack, if there is one.
fn open_post_return(
    tasks: &mut Vec<Task>,
    post_return: Option<PostReturnId>,
) -> Result<(), NoMemory>
    ensures { OnOk result (tasks.new.items ≡ tasks.old.items
        ++ opens (maybe_slot plan.post_return (option_map (λ (p : PostReturns). p.0) post_return))) }
{
    match post_return {
        Some(post_return) => put(tasks, Task::Open(Id::PostReturn(post_return))),
        None => Ok(()),
    }
}

/// Puts the slots of options onto the stack.
#[tactic(auto, using(crate::proofs::OpenLemmas::opens_append))]
fn open_entry(tasks: &mut Vec<Task>, options: &CanonicalOptions) -> Result<(), NoMemory>
    ensures { OnOk result
        (tasks.new.items ≡ tasks.old.items ++ opens (in_entry (options_entry options.now))) }
{
    open_post_return(tasks, options.post_return)?;
    open_callback(tasks, options.callback)?;
    match options.data_model {
        CanonicalOptionsDataModel::Gc {} => Ok(()),
        CanonicalOptionsDataModel::LinearMemory { memory, realloc } => {
            open_realloc(tasks, realloc)?;
            open_memory(tasks, memory)
        }
    }
}

/// Puts the slot or the options in a part of a trampoline onto the stack.
fn open_part(tasks: &mut Vec<Task>, part: GraphPart) -> Result<(), NoMemory>
    ensures { OnOk result
        (tasks.new.items ≡ tasks.old.items ++ opens (in_part (part_by graph_numbers part))) }
{
    match part {
        Part::Type_(_) | Part::Number(_) | Part::Flag(_) => Ok(()),
        Part::Memory(memory) => open_memory(tasks, Some(memory)),
        Part::MaybeMemory(memory) => open_memory(tasks, memory),
        Part::Table(table) => put(tasks, Task::Open(Id::Table(table))),
        Part::Callback(callback) => open_callback(tasks, callback),
        Part::PostReturn(post_return) => open_post_return(tasks, post_return),
        Part::Options(options) => put(tasks, Task::Open(Id::Options(options))),
    }
}

/// Puts what is in the parts of a trampoline onto the stack.
#[tactic(auto, using(crate::proofs::OpenLemmas::opens_append))]
fn open_part_list(tasks: &mut Vec<Task>, parts: PartList<GraphPart>) -> Result<(), NoMemory>
    ensures { OnOk result (tasks.new.items ≡ tasks.old.items
        ++ opens (flat_map (λ p. in_part (part_by graph_numbers p)) (list_of parts))) }
{
    match parts {
        PartList::Empty => Ok(()),
        PartList::One(part) => open_part(tasks, part),
        PartList::Two(first, second) => {
            open_part(tasks, second)?;
            open_part(tasks, first)
        }
    }
}

/// Puts what a trampoline depends on onto the stack: of a lowering its step, which comes first, and its options.
fn open_made(
    tasks: &mut Vec<Task>,
    trampoline: TrampolineIndex,
    signature: ModuleInternedTypeIndex,
    made_of: GraphParts,
) -> Result<(), NoMemory>
    ensures { OnOk result (tasks.new.items ≡ tasks.old.items
        ++ opens (in_trampoline trampoline (parts_entry graph_numbers signature made_of))) }
{
    match made_of.head {
        Head::Lowering(_, _, options) => {
            put(tasks, Task::Open(Id::Options(options)))?;
            put(tasks, Task::Open(Id::Lowering(trampoline)))
        }
        Head::Builtin(_) | Head::Helper | Head::Transcoding(_, _, _) | Head::Trapping(_) => {
            open_part_list(tasks, made_of.parts)
        }
    }
}

/// Puts what a trampoline of the graph depends on onto the stack.
#[tactic(auto, unfolding(crate::specs::Parts::parts))]
fn open_trampoline(
    graph: &ComponentDfg,
    tasks: &mut Vec<Task>,
    trampoline: TrampolineIndex,
) -> Result<(), NoMemory>
    ensures { OnOk result
        (tasks.new.items ≡ tasks.old.items ++ opens (parts graph.now (Id.Trampoline trampoline))) }
{
    match graph.trampolines.get(trampoline) {
        Some(signed) => open_made(tasks, trampoline, signed.0, signed.1.parts()),
        None => Ok(()),
    }
}

/// Puts all that an id depends on onto the stack.
#[tactic(auto, unfolding(crate::specs::Parts::parts, pc_dfg::specs::Numbers::slots_of))]
fn open_parts(graph: &ComponentDfg, tasks: &mut Vec<Task>, id: Id) -> Result<(), NoMemory>
    ensures { OnOk result (tasks.new.items ≡ tasks.old.items ++ opens (parts graph.now id)) }
{
    match id {
        // Memories and tables are items of core instances, and depend on nothing that takes a number.
        Id::Memory(_) => Ok(()),
        Id::Table(_) => Ok(()),
        Id::Lowering(_) => Ok(()),
        Id::Intrinsic(_, _) => Ok(()),
        Id::Realloc(realloc) => match graph.reallocs.get(realloc) {
            Some(def) => open_def(graph, tasks, def),
            None => Ok(()),
        },
        Id::Callback(callback) => match graph.callbacks.get(callback) {
            Some(def) => open_def(graph, tasks, def),
            None => Ok(()),
        },
        Id::PostReturn(post_return) => match graph.post_returns.get(post_return) {
            Some(def) => open_def(graph, tasks, def),
            None => Ok(()),
        },
        Id::Options(options) => match graph.options.get(options) {
            Some(entry) => open_entry(tasks, entry),
            None => Ok(()),
        },
        Id::Trampoline(trampoline) => open_trampoline(graph, tasks, trampoline),
        Id::AdapterModule(adapter_module) => match graph.adapter_modules.get(adapter_module) {
            Some(module) => open_defs(graph, tasks, module.1.as_slice()),
            None => Ok(()),
        },
    }
}

/// Puts an id onto the stack to be closed, and all that it depends on to be opened, unless it has its number.
pub(crate) fn open(
    graph: &ComponentDfg,
    finish: &Finish,
    tasks: &mut Vec<Task>,
    id: Id,
) -> Result<(), NoMemory>
    ensures { OnOk result (Opens graph.now finish.now tasks.old.items tasks.new.items id) }
{
    if has_number(finish, id) {
        return Ok(());
    }
    put(tasks, Task::Close(id))?;
    open_parts(graph, tasks, id)
}
