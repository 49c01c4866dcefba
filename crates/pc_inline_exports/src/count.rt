//! The exports of the root are counted before a node of them is made.

ghost use Rattle.std.specs.Prelude.{◌≡◌, ◌<◌, []};
ghost use Rattle.pc_spec_reading.specs.Scope.{Scope};
ghost use Rattle.pc_spec_reading.specs.World.{World};
ghost use Rattle.pc_inline_state.specs.Points.{IsInput};
ghost use Rattle.pc_inline_state.specs.Tables.{tables_of};
ghost use Rattle.pc_inline_counts.specs.Counts.{AreCounts};
ghost use Rattle.pc_inline_exports.specs.Counting.{CountsExport, CountsExports, CountsMore, type_count};
ghost use Rattle.pc_inline_exports.specs.Exporting.{RootStands};

use crate::exports::item_definition;
use pc_inline_counts::{NodeCount, NodeCounts};
use pc_inline_state::{Context, Frame, State};
use pc_parsed::{ExternName, ItemKind};
use pc_types::{Error, Place};

/// The number that a total may not reach. Each node counts eight in it.
const FULL: u64 = pc_weights::FULL as u64;

/// A type that is exported is one node, if its number is held.
fn type_count(context: &Context<'_>, index: u32) -> Option<NodeCount>
    ensures { result ≡ type_count context.now.table.now index }
{
    match context.table.entry(index) {
        Some(_) => Some(NodeCount::one()),
        None => None,
    }
}

/// How many nodes an export of the root has, if it is there, and what is refused of it.
fn export_count(
    context: &Context<'_>,
    state: &State<'_>,
    frame: &Frame,
    counts: &NodeCounts,
    kind: ItemKind,
    index: u32,
) -> Option<NodeCount>
    requires input { IsInput context.now.table.now context.now.modules }
    requires counts { AreCounts (tables_of state.now) counts.now }
    ensures { CountsExport context.now.table.now context.now.modules state.now frame.now kind index result }
{
    match kind {
        ItemKind::Type_ => type_count(context, index),
        _ => match item_definition(state, frame, kind, index) {
            Some(definition) => Some(counts.of(&definition)),
            None => None,
        },
    }
}

/// The nodes so far with those of one export more, unless they are too many then for the total, or it is refused.
fn count_more(total: u32, nodes: u32, count: NodeCount, number: u64) -> Result<u32, Error>
    ensures { CountsMore total nodes count number result }
{
    let nodes = nodes.saturating_add(count.nodes);
    if u64::from(total) + 8 * u64::from(nodes) >= FULL {
        return Err(Error::TooMany);
    }
    match count.refusal {
        Some(what) => Err(Error::Unsupported(what, Place::Export(number))),
        None => Ok(nodes),
    }
}

/// The exports are counted in their order, up to the first that is refused or whose nodes are too many for the total.
pub(crate) fn count_exports(
    context: &Context<'_>,
    state: &State<'_>,
    frame: &Frame,
    exports: &[(ExternName, ItemKind, u32)],
    total: u32,
) -> Result<(), Error>
    requires input { IsInput context.now.table.now context.now.modules }
    requires root { (s : Scope) × (w : World)
        × RootStands context.now.table.now context.now.modules state.now frame.now s w [] }
    requires below { total < 4294967295 }
    ensures { CountsExports context.now.table.now context.now.modules exports.now total state.now frame.now result }
{
    let counts = NodeCounts::new(context.alloc, state)?;
    let mut nodes: u32 = 0;
    let mut number: u64 = 0;
    for export in exports {
        if let Some(count) = export_count(context, state, frame, &counts, export.1, export.2) {
            nodes = count_more(total, nodes, count, number)?;
            number += 1;
        }
    }
    Ok(())
}
