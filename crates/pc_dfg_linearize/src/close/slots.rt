//! Slots that get their numbers.

ghost use Rattle.std.specs.Prelude.{◌≡◌, All, None, OnOk, length, Err};
ghost use Rattle.pc_dfg.specs.Held.{AreHeld};
ghost use Rattle.pc_dfg_linearize.specs.declared.error.FinishError.TheVariants as refusal;
ghost use Rattle.pc_dfg_linearize.specs.declared.id.Id.TheVariants as id;
ghost use Rattle.pc_dfg_linearize.specs.Added.{IsFull};
ghost use Rattle.pc_dfg_linearize.specs.Closed.{Closed, Fits};
ghost use Rattle.pc_dfg_linearize.specs.Parts.{HasNumber, number_of, parts};
ghost use Rattle.pc_dfg_linearize.specs.Ready.{CanClose};

use crate::FinishError;
use crate::convert::{def_of, export_of};
use crate::state::Finish;
use pc_dfg::{CallbackId, ComponentDfg, MemoryId, PostReturnId, ReallocId, TableId};
use std::alloc::Global;

/// Fills the slot of a memory.
pub(crate) fn close_memory(
    alloc: Global,
    graph: &ComponentDfg,
    finish: &mut Finish,
    memory: MemoryId,
) -> Result<(), FinishError>
    requires held { AreHeld graph.now }
    requires fresh { number_of finish.old (id.Memory memory) ≡ None }
    requires can { CanClose graph.now (length finish.old.instances) (id.Memory memory) }
    requires numbered { All (HasNumber finish.old) (parts graph.now (id.Memory memory)) }
    requires fits { Fits graph.now finish.old }
    ensures closed { OnOk result (Closed graph.now finish.old finish.new (id.Memory memory)) }
    ensures full { result ≡ Err refusal.TooMany → IsFull finish.old (id.Memory memory) }
{
    let export = export_of(alloc, finish, &graph.memories[memory])?;
    finish.fill_memory(memory, export)
}

/// Fills the slot of a table.
pub(crate) fn close_table(
    alloc: Global,
    graph: &ComponentDfg,
    finish: &mut Finish,
    table: TableId,
) -> Result<(), FinishError>
    requires held { AreHeld graph.now }
    requires fresh { number_of finish.old (id.Table table) ≡ None }
    requires can { CanClose graph.now (length finish.old.instances) (id.Table table) }
    requires numbered { All (HasNumber finish.old) (parts graph.now (id.Table table)) }
    requires fits { Fits graph.now finish.old }
    ensures closed { OnOk result (Closed graph.now finish.old finish.new (id.Table table)) }
    ensures full { result ≡ Err refusal.TooMany → IsFull finish.old (id.Table table) }
{
    let export = export_of(alloc, finish, &graph.tables[table])?;
    finish.fill_table(table, export)
}

/// Fills the slot of a function that makes room for values.
pub(crate) fn close_realloc(
    alloc: Global,
    graph: &ComponentDfg,
    finish: &mut Finish,
    realloc: ReallocId,
) -> Result<(), FinishError>
    requires held { AreHeld graph.now }
    requires fresh { number_of finish.old (id.Realloc realloc) ≡ None }
    requires can { CanClose graph.now (length finish.old.instances) (id.Realloc realloc) }
    requires numbered { All (HasNumber finish.old) (parts graph.now (id.Realloc realloc)) }
    requires fits { Fits graph.now finish.old }
    ensures closed { OnOk result (Closed graph.now finish.old finish.new (id.Realloc realloc)) }
    ensures full { result ≡ Err refusal.TooMany → IsFull finish.old (id.Realloc realloc) }
{
    let def = def_of(alloc, graph, finish, &graph.reallocs[realloc])?;
    finish.fill_realloc(realloc, def)
}

/// Fills the slot of a function that goes on with an asynchronous call.
pub(crate) fn close_callback(
    alloc: Global,
    graph: &ComponentDfg,
    finish: &mut Finish,
    callback: CallbackId,
) -> Result<(), FinishError>
    requires held { AreHeld graph.now }
    requires fresh { number_of finish.old (id.Callback callback) ≡ None }
    requires can { CanClose graph.now (length finish.old.instances) (id.Callback callback) }
    requires numbered { All (HasNumber finish.old) (parts graph.now (id.Callback callback)) }
    requires fits { Fits graph.now finish.old }
    ensures closed { OnOk result (Closed graph.now finish.old finish.new (id.Callback callback)) }
    ensures full { result ≡ Err refusal.TooMany → IsFull finish.old (id.Callback callback) }
{
    let def = def_of(alloc, graph, finish, &graph.callbacks[callback])?;
    finish.fill_callback(callback, def)
}

/// Fills the slot of a function that is called when results are read.
pub(crate) fn close_post_return(
    alloc: Global,
    graph: &ComponentDfg,
    finish: &mut Finish,
    post_return: PostReturnId,
) -> Result<(), FinishError>
    requires held { AreHeld graph.now }
    requires fresh { number_of finish.old (id.PostReturn post_return) ≡ None }
    requires can { CanClose graph.now (length finish.old.instances) (id.PostReturn post_return) }
    requires numbered { All (HasNumber finish.old) (parts graph.now (id.PostReturn post_return)) }
    requires fits { Fits graph.now finish.old }
    ensures closed { OnOk result (Closed graph.now finish.old finish.new (id.PostReturn post_return)) }
    ensures full { result ≡ Err refusal.TooMany → IsFull finish.old (id.PostReturn post_return) }
{
    let def = def_of(alloc, graph, finish, &graph.post_returns[post_return])?;
    finish.fill_post_return(post_return, def)
}
