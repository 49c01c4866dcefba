//! Giving an id its number, where all that it depends on has one.

mod entries;
mod slots;
mod steps;

ghost use Rattle.std.specs.Prelude.{◌≡◌, All, None, OnOk, length, Err};
ghost use Rattle.pc_dfg.specs.Held.{AreHeld};
ghost use Rattle.pc_dfg_linearize.specs.declared.error.FinishError.TheVariants as refusal;
ghost use Rattle.pc_dfg_linearize.specs.Added.{IsFull};
ghost use Rattle.pc_dfg_linearize.specs.Closed.{Closed, Fits};
ghost use Rattle.pc_dfg_linearize.specs.Parts.{HasNumber, number_of, parts};
ghost use Rattle.pc_dfg_linearize.specs.Ready.{CanClose};

use crate::FinishError;
use crate::id::Id;
use crate::state::Finish;
use pc_dfg::ComponentDfg;
use std::alloc::Global;

/// Gives an id its number: the step, the options entry or the trampoline that it stands for is made.
pub(crate) fn close(
    alloc: Global,
    graph: &ComponentDfg,
    finish: &mut Finish,
    id: Id,
) -> Result<(), FinishError>
    requires held { AreHeld graph.now }
    requires fresh { number_of finish.old id ≡ None }
    requires can { CanClose graph.now (length finish.old.instances) id }
    requires numbered { All (HasNumber finish.old) (parts graph.now id) }
    requires fits { Fits graph.now finish.old }
    ensures closed { OnOk result (Closed graph.now finish.old finish.new id) }
    ensures full { result ≡ Err refusal.TooMany → IsFull finish.old id }
{
    match id {
        Id::Memory(memory) => slots::close_memory(alloc, graph, finish, memory),
        Id::Table(table) => slots::close_table(alloc, graph, finish, table),
        Id::Realloc(realloc) => slots::close_realloc(alloc, graph, finish, realloc),
        Id::Callback(callback) => slots::close_callback(alloc, graph, finish, callback),
        Id::PostReturn(post_return) => slots::close_post_return(alloc, graph, finish, post_return),
        Id::Options(options) => entries::close_options(graph, finish, options),
        Id::Lowering(trampoline) => steps::close_lowering(graph, finish, trampoline),
        Id::Trampoline(trampoline) => entries::close_trampoline(graph, finish, trampoline),
        Id::Intrinsic(signature, intrinsic) => {
            entries::close_intrinsic(graph, finish, signature, intrinsic);
            Ok(())
        }
        Id::AdapterModule(module) => steps::close_adapter_module(alloc, graph, finish, module),
    }
}
