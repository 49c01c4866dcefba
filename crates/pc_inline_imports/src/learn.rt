//! The resources that an import leads to become known, and its type is converted.

ghost use Rattle.std.specs.Prelude.{◌≡◌, ◌<◌, ◌++◌, ◌∷◌, [], None, true, if◌then◌else◌, IfErr, IfOk, OnOk, filter};
ghost use Rattle.pc_types.specs.Table.{table_fault};
ghost use Rattle.pc_types_builder.specs.Converted.{AreConverted};
ghost use Rattle.pc_types_lists.specs.Adds.{most_types};
ghost use Rattle.pc_spec_reading.specs.Types.{names_entry};
ghost use Rattle.pc_inline_state.specs.Adds.{Adds};
ghost use Rattle.pc_inline_state.specs.Points.{IsInput, IsPoint};
ghost use Rattle.pc_inline_state.specs.Ready.{IsReady};
ghost use Rattle.pc_inline_state.specs.Refused.{LacksRoom};
ghost use Rattle.pc_inline_state.specs.Tables.{Keeps, tables_of};
ghost use Rattle.pc_inline_imports.specs.Learns.{IsRegistered, Learns, Registers, is_free};

use crate::entity::entity_type;
use crate::trim::trim;
use pc_entity::{NoMemory, ResourceIndex, Seq};
use pc_inline_resources::make_known;
use pc_inline_state::{Context, Frame, ItemError, State};
use pc_types::{Entity, TypeDef};
use pc_types_walk::{Found, Place};
use std::alloc::Global;

/// No resource has this number or a greater one. There is no want of numbers but that of memory: so many resources
/// don't fit in one.
const MAX_RESOURCES: usize = 4294967295;

/// What is learnt of an import: the places that its type leads to, the resources there that weren't known before, and
/// the builder's type.
#[derive(Drop)]
pub(crate) struct Learnt {
    pub(crate) places: Seq<Place>,
    pub(crate) found: Seq<Found>,
    pub(crate) ty: TypeDef,
}

/// A resource goes to the end of others, if it isn't known.
fn keep_unknown(state: &State<'_>, kept: &mut Seq<Found>, found: Found) -> Result<(), NoMemory>
    ensures { OnOk result (kept.new ≡ kept.old
        ++ (if is_free state.now.types.resources.known found then found ∷ [] else [])) }
{
    if state.types.resources().lookup(found.number).is_none() {
        kept.push(found)?;
        return Ok(());
    }
    Ok(())
}

/// Those of the resources that aren't known.
fn unknown(alloc: Global, state: &State<'_>, found: &[Found]) -> Result<Seq<Found>, NoMemory>
    ensures { IfOk result (λ kept. kept ≡ filter (is_free state.now.types.resources.known) found.now) }
{
    let mut kept = Seq::new(alloc);
    for one in found {
        keep_unknown(state, &mut kept, *one)?;
    }
    Ok(kept)
}

/// A resource becomes known under a number of the graph.
fn register_one(
    context: &Context<'_>,
    state: &mut State<'_>,
    frame: &mut Frame,
    found: &Found,
    number: usize,
) -> Result<(), ItemError>
    requires sound { table_fault context.now.table.now ≡ None }
    requires converted { AreConverted state.old.types context.now.table.now frame.old.converted }
    ensures registers { Registers context.now.table.now state.old frame.old state.new frame.new }
    ensures within { OnOk result (number < 4294967295) }
    ensures known { OnOk result (IsRegistered number (found.now ∷ []) state.old state.new) }
    ensures err { IfErr result (LacksRoom state.new) }
{
    if number >= MAX_RESOURCES {
        return Err(ItemError::NoMemory);
    }
    make_known(
        context,
        state,
        frame,
        found.number,
        ResourceIndex(number as u32),
    )
}

/// Resources become known under numbers of the graph, from one on.
fn register_all(
    context: &Context<'_>,
    state: &mut State<'_>,
    frame: &mut Frame,
    found: &[Found],
    first: usize,
) -> Result<(), ItemError>
    requires sound { table_fault context.now.table.now ≡ None }
    requires converted { AreConverted state.old.types context.now.table.now frame.old.converted }
    ensures registers { Registers context.now.table.now state.old frame.old state.new frame.new }
    ensures known { OnOk result (IsRegistered first found.now state.old state.new) }
    ensures err { IfErr result (LacksRoom state.new) }
{
    let mut number = first;
    for one in found {
        register_one(context, state, frame, one, number)?;
        number += 1;
    }
    Ok(())
}

/// The resources that an entity leads to become known, each with the number that it gets in the graph, and the entity's
/// type is converted.
pub(crate) fn learn(
    context: &Context<'_>,
    state: &mut State<'_>,
    frame: &mut Frame,
    entity: Entity,
) -> Result<Learnt, ItemError>
    requires input { IsInput context.now.table.now context.now.modules }
    requires ready { IsReady context.now }
    requires here { IsPoint context.now.table.now context.now.modules state.old frame.old }
    requires named { names_entry context.now.table.now entity ≡ true }
    ensures keeps { Keeps (tables_of state.old) (tables_of state.new) }
    ensures adds { Adds context.now.table.now (most_types context.now.table.now)
        (tables_of state.old) (tables_of state.new) }
    ensures same { frame.new.component_instance ≡ frame.old.component_instance }
    ensures learns { IfOk result
        (Learns context.now.table.now context.now.modules entity state.old frame.old state.new frame.new) }
    ensures err { IfErr result (LacksRoom state.new) }
{
    let walk = context.leads.walk(context.alloc, context.table, entity)?;
    let found = unknown(context.alloc, state, walk.found.as_slice())?;
    let trimmed = trim(context.alloc, walk.places.as_slice(), found.as_slice())?;
    let first = state.graph.imported_resources.len();
    register_all(context, state, frame, trimmed.found.as_slice(), first)?;
    let ty = entity_type(context, state, &mut frame.converted, entity)?;
    Ok(Learnt {
        places: trimmed.places,
        found: trimmed.found,
        ty,
    })
}
