//! Arguments of core modules. All that they depend on gets its number first; then they are looked up, so that nothing
//! has to be carried over what the plan grows by.

ghost use Rattle.std.specs.Prelude.{◌≡◌, ◌++◌, ◌∷◌, [], None, All, Err, IfOk, OnOk, length};
ghost use Rattle.pc_entity.specs.Lists.{value_of};
ghost use Rattle.pc_dfg.specs.Ordered.{IsOrdered};
ghost use Rattle.pc_dfg_linearize.specs.declared.error.FinishError.TheVariants as refusal;
ghost use Rattle.pc_dfg_linearize.specs.Arguments.{CanNumber, IsNumbered, NumbersAll, named_defs, host_defs};
ghost use Rattle.pc_dfg_linearize.specs.Arguments.{named_in, host_in};
ghost use Rattle.pc_dfg_linearize.specs.Closed.{Fits};
ghost use Rattle.pc_dfg_linearize.specs.Grouped.{IsGrouped};
ghost use Rattle.pc_dfg_linearize.specs.Outgrown.{Outgrows};

use pc_dfg::{ComponentDfg, CoreDef};
use pc_dfg_linearize::{Finish, FinishError, def_of, id_in, number};
use pc_entity::{NoMemory, Text, TextMap};
use std::alloc::Global;

/// Gives what a definition depends on its number.
pub(crate) fn number_def(
    alloc: Global,
    graph: &ComponentDfg,
    finish: &mut Finish,
    def: &CoreDef,
) -> Result<(), FinishError>
    requires ordered { IsOrdered graph.now }
    requires grouped { IsGrouped graph.now }
    requires ready { CanNumber graph.now (length finish.old.instances) def.now }
    requires fits { Fits graph.now finish.old }
    ensures numbers { OnOk result (NumbersAll graph.now finish.old finish.new (def.now ∷ [])) }
    ensures full { result ≡ Err refusal.TooMany → Outgrows graph.now finish.old }
{
    match id_in(graph, def) {
        Some(id) => number(alloc, graph, finish, id),
        None => Ok(()),
    }
}

/// Gives what these definitions depend on its numbers.
pub(crate) fn number_all(
    alloc: Global,
    graph: &ComponentDfg,
    finish: &mut Finish,
    defs: &[CoreDef],
) -> Result<(), FinishError>
    requires ordered { IsOrdered graph.now }
    requires grouped { IsGrouped graph.now }
    requires ready { All (CanNumber graph.now (length finish.old.instances)) defs.now }
    requires fits { Fits graph.now finish.old }
    ensures numbers { OnOk result (NumbersAll graph.now finish.old finish.new defs.now) }
    ensures full { result ≡ Err refusal.TooMany → Outgrows graph.now finish.old }
{
    for def in defs {
        number_def(alloc, graph, finish, def)?;
    }
    Ok(())
}

/// Gives what arguments of a host module under one module name depend on its numbers.
fn number_named(
    alloc: Global,
    graph: &ComponentDfg,
    finish: &mut Finish,
    args: &TextMap<CoreDef>,
) -> Result<(), FinishError>
    requires ordered { IsOrdered graph.now }
    requires grouped { IsGrouped graph.now }
    requires ready { All (CanNumber graph.now (length finish.old.instances)) (named_defs args.now) }
    requires fits { Fits graph.now finish.old }
    ensures numbers { OnOk result (NumbersAll graph.now finish.old finish.new (named_defs args.now)) }
    ensures full { result ≡ Err refusal.TooMany → Outgrows graph.now finish.old }
{
    for place in 0..args.len() {
        let (_, def) = args.entry_at(place);
        number_def(alloc, graph, finish, def)?;
    }
    Ok(())
}

/// Gives what the arguments of a host module depend on its numbers.
pub(crate) fn number_host(
    alloc: Global,
    graph: &ComponentDfg,
    finish: &mut Finish,
    args: &TextMap<TextMap<CoreDef>>,
) -> Result<(), FinishError>
    requires ordered { IsOrdered graph.now }
    requires grouped { IsGrouped graph.now }
    requires ready { All (CanNumber graph.now (length finish.old.instances)) (host_defs args.now) }
    requires fits { Fits graph.now finish.old }
    ensures numbers { OnOk result (NumbersAll graph.now finish.old finish.new (host_defs args.now)) }
    ensures full { result ≡ Err refusal.TooMany → Outgrows graph.now finish.old }
{
    for place in 0..args.len() {
        let (_, named) = args.entry_at(place);
        number_named(alloc, graph, finish, named)?;
    }
    Ok(())
}

/// Adds a value under a copy of a name that is absent.
fn push_copy<V: Drop>(all: &mut TextMap<V>, name: &Text, value: V) -> Result<(), NoMemory>
    requires absent { value_of name.now all.old ≡ None }
    ensures { OnOk result (all.new ≡ all.old ++ (name.now, value) ∷ []) }
{
    all.push(name.share()?, value)
}

/// Arguments of a host module under one module name, as the plan has them.
fn named_of(
    alloc: Global,
    graph: &ComponentDfg,
    finish: &Finish,
    args: &TextMap<CoreDef>,
) -> Result<TextMap<pc_info::CoreDef>, NoMemory>
    requires ready { All (CanNumber graph.now (length finish.now.instances)) (named_defs args.now) }
    requires numbered { All (IsNumbered graph.now finish.now) (named_defs args.now) }
    ensures { IfOk result (λ all. all ≡ named_in graph.now finish.now args.now) }
{
    args.names_are_distinct();
    let mut all = TextMap::new(alloc, args.seed());
    for place in 0..args.len() {
        let (name, def) = args.entry_at(place);
        let def = def_of(alloc, graph, finish, def)?;
        push_copy(&mut all, name, def)?;
    }
    Ok(all)
}

/// The arguments of a host module as the plan has them.
pub(crate) fn host_of(
    alloc: Global,
    graph: &ComponentDfg,
    finish: &Finish,
    args: &TextMap<TextMap<CoreDef>>,
) -> Result<TextMap<TextMap<pc_info::CoreDef>>, NoMemory>
    requires ready { All (CanNumber graph.now (length finish.now.instances)) (host_defs args.now) }
    requires numbered { All (IsNumbered graph.now finish.now) (host_defs args.now) }
    ensures { IfOk result (λ all. all ≡ host_in graph.now finish.now args.now) }
{
    args.names_are_distinct();
    let mut all = TextMap::new(alloc, args.seed());
    for place in 0..args.len() {
        let (name, named) = args.entry_at(place);
        let named = named_of(alloc, graph, finish, named)?;
        push_copy(&mut all, name, named)?;
    }
    Ok(all)
}
