//! Options entries and trampolines of the graph as the plan has them, once all that they name has a number.

ghost use Rattle.std.specs.Prelude.{◌≡◌, All, map};
ghost use Rattle.std.specs.List.{flat_map};
ghost use Rattle.pc_trampoline.specs.Parts.{list_of, parts_of};
ghost use Rattle.pc_trampoline.specs.View.{part_by};
ghost use Rattle.pc_dfg.specs.Numbers.{graph_numbers, model_entry, options_entry, trampoline_entry};
ghost use Rattle.pc_dfg_linearize.specs.Entries.{model_in, options_in, part_in, list_in, head_in, parts_in, in_head};
ghost use Rattle.pc_dfg_linearize.specs.Parts.{HasNumber, in_entry, in_model, in_part, in_trampoline};

use crate::state::Finish;
use pc_dfg::{
    CallbackId, CanonicalOptions, CanonicalOptionsDataModel as Model, MemoryId, OptionsId,
    PostReturnId, TableId, Trampoline,
};
use pc_entity::{
    LoweredIndex, ModuleInternedTypeIndex, OptionsIndex, RuntimeCallbackIndex, RuntimeImportIndex,
    RuntimeMemoryIndex, RuntimePostReturnIndex, RuntimeTableIndex, TrampolineIndex,
};
use pc_info::{CanonicalOptionsDataModel as PlanModel, LinearMemoryOptions};
use pc_trampoline::{Head, Part, PartList, Parts};

/// A part of a trampoline of the graph.
type GraphPart = Part<OptionsId, MemoryId, TableId, CallbackId, PostReturnId>;

/// A part of a trampoline of the plan.
type PlanPart = Part<
    OptionsIndex,
    RuntimeMemoryIndex,
    RuntimeTableIndex,
    RuntimeCallbackIndex,
    RuntimePostReturnIndex,
>;

/// Where values lie.
fn model_of(finish: &Finish, model: Model) -> PlanModel
    requires numbered { All (HasNumber finish.now) (in_model (model_entry model)) }
    ensures { result ≡ model_in finish.now model }
{
    match model {
        Model::Gc {} => PlanModel::Gc {},
        Model::LinearMemory { memory, realloc } => PlanModel::LinearMemory(LinearMemoryOptions {
            memory: finish.numbers.memories.at_any(memory),
            realloc: finish.numbers.reallocs.at_any(realloc),
        }),
    }
}

/// An options entry.
pub(crate) fn options_of(finish: &Finish, options: &CanonicalOptions) -> pc_info::CanonicalOptions
    requires numbered { All (HasNumber finish.now) (in_entry (options_entry options.now)) }
    ensures { result ≡ options_in finish.now options.now }
{
    pc_info::CanonicalOptions {
        instance: options.instance,
        string_encoding: options.string_encoding,
        callback: finish.numbers.callbacks.at_any(options.callback),
        post_return: finish.numbers.post_returns.at_any(options.post_return),
        async_: options.async_,
        core_type: options.core_type,
        data_model: model_of(finish, options.data_model),
    }
}

/// A part of a trampoline.
fn part_of(finish: &Finish, part: GraphPart) -> PlanPart
    requires numbered { All (HasNumber finish.now) (in_part (part_by graph_numbers part)) }
    ensures { result ≡ part_in finish.now part }
{
    match part {
        Part::Type_(ty) => Part::Type_(ty),
        Part::Number(number) => Part::Number(number),
        Part::Flag(flag) => Part::Flag(flag),
        Part::Memory(memory) => Part::Memory(finish.numbers.memories.at(memory)),
        Part::MaybeMemory(memory) => Part::MaybeMemory(finish.numbers.memories.at_any(memory)),
        Part::Table(table) => Part::Table(finish.numbers.tables.at(table)),
        Part::Callback(callback) => Part::Callback(finish.numbers.callbacks.at_any(callback)),
        Part::PostReturn(post_return) => Part::PostReturn(
            finish.numbers.post_returns.at_any(post_return),
        ),
        Part::Options(options) => Part::Options(finish.numbers.options.at(options)),
    }
}

/// The parts of a trampoline.
fn list_of_parts(finish: &Finish, list: PartList<GraphPart>) -> PartList<PlanPart>
    requires numbered { All (HasNumber finish.now) (flat_map in_part (map (part_by graph_numbers) (list_of list))) }
    ensures { result ≡ list_in finish.now list }
{
    match list {
        PartList::Empty => PartList::Empty,
        PartList::One(x) => PartList::One(part_of(finish, x)),
        PartList::Two(x, y) => PartList::Two(part_of(finish, x), part_of(finish, y)),
    }
}

/// What stands before the parts of a trampoline, by its number: a lowering names its step.
fn head_of(
    finish: &Finish,
    trampoline: TrampolineIndex,
    head: Head<RuntimeImportIndex, OptionsId>,
) -> Head<LoweredIndex, OptionsIndex>
    requires numbered { All (HasNumber finish.now) (in_head trampoline head) }
    ensures { result ≡ head_in finish.now trampoline head }
{
    match head {
        Head::Lowering(_, ty, options) => Head::Lowering(
            finish.numbers.lowerings.at(trampoline),
            ty,
            finish.numbers.options.at(options),
        ),
        Head::Builtin(instance) => Head::Builtin(instance),
        Head::Helper => Head::Helper,
        Head::Transcoding(op, from64, to64) => Head::Transcoding(op, from64, to64),
        Head::Trapping(code) => Head::Trapping(code),
    }
}

/// A trampoline, by its number.
pub(crate) fn trampoline_of(
    finish: &Finish,
    number: TrampolineIndex,
    trampoline: &(ModuleInternedTypeIndex, Trampoline),
) -> pc_info::Trampoline
    requires numbered { All (HasNumber finish.now) (in_trampoline number (trampoline_entry trampoline.now)) }
    ensures { parts_of result ≡ parts_in finish.now number (parts_of trampoline.now.1) }
{
    let Parts { kind, head, parts } = trampoline.1.parts();
    let made_of = Parts {
        kind,
        head: head_of(finish, number, head),
        parts: list_of_parts(finish, parts),
    };
    match pc_info::Trampoline::from_parts(made_of) {
        Some(trampoline) => trampoline,
        None => unreachable!(),
    }
}
