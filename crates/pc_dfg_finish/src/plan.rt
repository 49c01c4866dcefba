//! The plan of a graph, from nothing to the whole.
//!
//! The side effects become steps, each after what it needs, and last come the exports with what they need.

ghost use Rattle.std.specs.Prelude.{◌≡◌, [], None, All, Err, IfOk, OnOk, length, replicate};
ghost use Rattle.pc_dfg.specs.Ordered.{IsOrdered};
ghost use Rattle.pc_dfg_linearize.specs.declared.error.FinishError.TheVariants as refusal;
ghost use Rattle.pc_dfg_linearize.specs.Full.{HasTooMany};
ghost use Rattle.pc_dfg_linearize.specs.Grouped.{IsGrouped};
ghost use Rattle.pc_dfg_finish.specs.Finishes.{Finishes};
ghost use Rattle.pc_dfg_finish.specs.ModuleTypes.{IsTyped, module_mark};
ghost use Rattle.pc_dfg_finish.specs.Taken.{without_exports};
ghost use Rattle.pc_dfg_finish.specs.Whole.{IsMade, empty_plan};

use crate::effects::do_effects;
use crate::exports::{Exported, exports};
use crate::module_types::ModuleTypes;
use crate::translation::into_translation;
use pc_dfg::ComponentDfg;
use pc_dfg_linearize::{Counts, Finish, FinishError, INTRINSICS, NumberMap, Numbers};
use pc_entity::{NoMemory, PackedOption, PrimaryMap, Seq};
use pc_info::ComponentTranslation;
use std::alloc::Global;

/// No slot of the graph has its number yet.
fn no_slots(alloc: Global, graph: &ComponentDfg, numbers: &mut Numbers) -> Result<(), NoMemory>
    ensures { OnOk result (numbers.new ≡ record numbers.old {
      memories = replicate (length graph.now.memories) None;
      tables = replicate (length graph.now.tables) None;
      reallocs = replicate (length graph.now.reallocs) None;
      callbacks = replicate (length graph.now.callbacks) None;
      post_returns = replicate (length graph.now.post_returns) None;
    }) }
{
    numbers.memories.reset(alloc, graph.memories.len())?;
    numbers.tables.reset(alloc, graph.tables.len())?;
    numbers.reallocs.reset(alloc, graph.reallocs.len())?;
    numbers.callbacks.reset(alloc, graph.callbacks.len())?;
    numbers.post_returns.reset(alloc, graph.post_returns.len())?;
    Ok(())
}

/// No other entry of the graph has its number yet.
fn no_others(alloc: Global, graph: &ComponentDfg, numbers: &mut Numbers) -> Result<(), NoMemory>
    ensures { OnOk result (numbers.new ≡ record numbers.old {
      options = replicate (length graph.now.options) None;
      lowerings = replicate (length graph.now.trampolines) None;
      trampolines = replicate (length graph.now.trampolines) None;
      adapter_modules = replicate (length graph.now.adapter_modules) None;
    }) }
{
    numbers.options.reset(alloc, graph.options.len())?;
    numbers.lowerings.reset(alloc, graph.trampolines.len())?;
    numbers.trampolines.reset(alloc, graph.trampolines.len())?;
    numbers
        .adapter_modules
        .reset(alloc, graph.adapter_modules.len())?;
    Ok(())
}

/// The numbers of the entries of a graph that has none.
fn empty_numbers(alloc: Global) -> Numbers
    ensures { result ≡ record {
      memories = [];
      tables = [];
      reallocs = [];
      callbacks = [];
      post_returns = [];
      options = [];
      lowerings = [];
      trampolines = [];
      adapter_modules = [];
    } }
{
    Numbers {
        memories: NumberMap::new(alloc),
        tables: NumberMap::new(alloc),
        reallocs: NumberMap::new(alloc),
        callbacks: NumberMap::new(alloc),
        post_returns: NumberMap::new(alloc),
        options: NumberMap::new(alloc),
        lowerings: NumberMap::new(alloc),
        trampolines: NumberMap::new(alloc),
        adapter_modules: NumberMap::new(alloc),
    }
}

/// A plan with nothing in it, in which no entry of the graph has its number. Its maps are empty first, so that what a
/// refusal drops is the plan and not each of them.
fn start(alloc: Global, graph: &ComponentDfg) -> Result<Finish, NoMemory>
    ensures { IfOk result (λ f. f ≡ empty_plan graph.now) }
{
    let mut finish = Finish {
        steps: Seq::new(alloc),
        signatures: PrimaryMap::new(alloc),
        trampolines: PrimaryMap::new(alloc),
        options: PrimaryMap::new(alloc),
        intrinsics: [PackedOption::None; INTRINSICS],
        resources: PrimaryMap::new(alloc),
        instances: PrimaryMap::new(alloc),
        counts: Counts {
            instances: 0,
            lowerings: 0,
            memories: 0,
            tables: 0,
            reallocs: 0,
            callbacks: 0,
            post_returns: 0,
        },
        numbers: empty_numbers(alloc),
    };
    no_slots(alloc, graph, &mut finish.numbers)?;
    no_others(alloc, graph, &mut finish.numbers)?;
    Ok(finish)
}

/// All that a plan of a graph consists of: its steps and lists, and its exports, which the graph has no more then.
fn make(
    alloc: Global,
    graph: &mut ComponentDfg,
    types: &ModuleTypes,
) -> Result<(Finish, Exported), FinishError>
    requires ordered { IsOrdered graph.old }
    requires grouped { IsGrouped graph.old }
    requires typed { All (IsTyped types.now) graph.old.export_items }
    ensures full { result ≡ Err refusal.TooMany → HasTooMany graph.old }
    ensures made { IfOk result (λ m. IsMade graph.old types.now m.0 m.1.names m.1.items) }
    ensures rest { OnOk result (graph.new ≡ without_exports graph.old) }
{
    graph.entries_are_distinct();
    let mut finish = start(alloc, graph)?;
    do_effects(alloc, graph, &mut finish)?;
    let exported = exports(alloc, graph, &mut finish, types)?;
    Ok((finish, exported))
}

/// The plan of a graph whose adapters are grouped. The handed-in modules that it exports have these types.
pub fn finish(
    alloc: Global,
    graph: ComponentDfg,
    types: &ModuleTypes,
) -> Result<ComponentTranslation, FinishError>
    requires ordered { IsOrdered graph }
    requires grouped { IsGrouped graph }
    requires typed { All (IsTyped types.now) graph.export_items }
    ensures full { result ≡ Err refusal.TooMany → HasTooMany graph }
    ensures plan { IfOk result (λ p. Finishes graph (module_mark types.now) p) }
{
    let mut graph = graph;
    let (finish, exported) = make(alloc, &mut graph, types)?;
    into_translation(finish, alloc, graph, exported)
}
