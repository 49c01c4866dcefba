//! Giving an id its number, with all that it leads to.
//!
//! Upstream does this by recursion, as deep as the graph. Here what is still to be done lies on a stack: an id that is
//! opened waits, below its parts, to be closed. An id that two others need is on the stack twice at most, and passed
//! over where it has its number by then.

ghost use Rattle.std.specs.Prelude.{◌≡◌, ◌∷◌, [], Err, IfOk, OnOk, length};
ghost use Rattle.pc_dfg.specs.Held.{AreHeld};
ghost use Rattle.pc_dfg.specs.Ordered.{IsOrdered};
ghost use Rattle.pc_dfg_linearize.specs.declared.error.FinishError.TheVariants as refusal;
ghost use Rattle.pc_dfg_linearize.specs.Closed.{Closed, Fits};
ghost use Rattle.pc_dfg_linearize.specs.Grouped.{IsGrouped};
ghost use Rattle.pc_dfg_linearize.specs.Outgrown.{IsLeftOver, Outgrows};
ghost use Rattle.pc_dfg_linearize.specs.Ready.{IsReady};
ghost use Rattle.pc_dfg_linearize.specs.Stack.{CanTake, Takes, id_of};

use crate::FinishError;
use crate::close::close;
use crate::id::{Id, Task};
use crate::open::{open, put};
use crate::state::Finish;
use pc_dfg::ComponentDfg;
use pc_entity::NoMemory;
use std::alloc::Global;

/// The stack on which an id is to be opened.
fn begin(alloc: Global, id: Id) -> Result<Vec<Task>, NoMemory>
    ensures { IfOk result (λ tasks. tasks.items ≡ Task.Open id ∷ []) }
{
    let mut tasks = Vec::new(alloc);
    put(&mut tasks, Task::Open(id))?;
    Ok(tasks)
}

/// Does what a task says.
fn take(
    alloc: Global,
    graph: &ComponentDfg,
    finish: &mut Finish,
    tasks: &mut Vec<Task>,
    task: Task,
) -> Result<(), FinishError>
    requires held { AreHeld graph.now }
    requires can { CanTake graph.now finish.old task }
    requires fits { Fits graph.now finish.old }
    ensures taken { OnOk result
        (Takes graph.now finish.old finish.new tasks.old.items tasks.new.items task) }
    ensures full { result ≡ Err refusal.TooMany → IsLeftOver graph.now finish.old (id_of task) }
{
    match task {
        Task::Open(id) => Ok(open(graph, finish, tasks, id)?),
        Task::Close(id) => close(alloc, graph, finish, id),
    }
}

/// Gives an id its number, after all that it leads to, unless it has one.
pub fn number(
    alloc: Global,
    graph: &ComponentDfg,
    finish: &mut Finish,
    id: Id,
) -> Result<(), FinishError>
    requires ordered { IsOrdered graph.now }
    requires grouped { IsGrouped graph.now }
    requires ready { IsReady graph.now (length finish.old.instances) id }
    requires fits { Fits graph.now finish.old }
    ensures closed { OnOk result (Closed graph.now finish.old finish.new id) }
    ensures full { result ≡ Err refusal.TooMany → Outgrows graph.now finish.old }
{
    let mut tasks = begin(alloc, id)?;
    'tasks: while let Some(task) = tasks.pop() {
        take(alloc, graph, finish, &mut tasks, task)?;
    }
    Ok(())
}
