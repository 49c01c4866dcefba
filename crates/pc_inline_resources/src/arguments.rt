//! The resources of an argument, and of what a child exports.

ghost use Rattle.std.specs.Prelude.{◌≡◌, ℕ, List, Option, Ok};
ghost use Rattle.std.specs.List.{AllZip};
ghost use Rattle.pc_types.specs.TypeTree.{Identity};
ghost use Rattle.pc_spec_reading.specs.Outcome.{bad_type, found};
ghost use Rattle.pc_spec_reading.specs.Resource.{ResourcePath, along, through};
ghost use Rattle.pc_spec_reading.specs.Scope.{Moment};
ghost use Rattle.pc_spec_reading.specs.Value.{NamedValues, Value};
ghost use Rattle.pc_inline_state.specs.Adds.{Adds};
ghost use Rattle.pc_inline_state.specs.Points.{Follows, IsInput, IsPoint, PointStands, Steps};
ghost use Rattle.pc_inline_state.specs.Ready.{IsReady};
ghost use Rattle.pc_inline_state.specs.Stands.{MembersStand, Stands};
ghost use Rattle.pc_inline_state.specs.Tables.{Keeps, tables_of};
ghost use Rattle.pc_inline_state.specs.Trails.{Trails};
ghost use Rattle.pc_inline_resources.specs.Learns.{Learns};
ghost use Rattle.pc_inline_resources.specs.Registers.{known_if, returned, taken, with_found};
ghost use Rattle.pc_inline_resources.specs.Walked.{IsMet, StartIs};

use crate::known::register;
use crate::walked::{Met, Start, new_resources};
use pc_inline_names::AtomMap;
use pc_inline_state::{Context, DefinitionId, Frame, ItemError, ItemFault, Member, State};
use pc_types::Entity;

/// A number stands for the resource that was met from now on. `BadType` where none was.
fn register_met(
    context: &Context<'_>,
    state: &mut State<'_>,
    frame: &mut Frame,
    met: Met,
) -> Result<(), ItemError>
    requires input { IsInput context.now.table.now context.now.modules }
    requires here { IsPoint context.now.table.now context.now.modules state.old frame.old }
    ensures learns { Learns context.now.table.now state.old frame.old state.new frame.new }
    ensures steps { (find : List (List ℕ) → Option Identity) (p : ResourcePath)
        → IsMet state.old.graph find met p
        → Steps context.now.table.now context.now.modules (known_if find p)
        state.old frame.old state.new frame.new result }
{
    match met.resource {
        Some(r) => register(context, state, frame, met.number, r),
        None => Err(ItemError::Fault(ItemFault::BadType)),
    }
}

/// The same of each, as far as the first number for which no resource was met.
fn register_each(
    context: &Context<'_>,
    state: &mut State<'_>,
    frame: &mut Frame,
    all: &[Met],
) -> Result<(), ItemError>
    requires input { IsInput context.now.table.now context.now.modules }
    requires here { IsPoint context.now.table.now context.now.modules state.old frame.old }
    requires met { (find : List (List ℕ) → Option Identity) × (ps : List ResourcePath)
        × AllZip (IsMet state.old.graph find) all.now ps }
    ensures learns { Learns context.now.table.now state.old frame.old state.new frame.new }
    ensures follows { (find : List (List ℕ) → Option Identity) (ps : List ResourcePath) (now : Moment)
        → AllZip (IsMet state.old.graph find) all.now ps
        → PointStands context.now.table.now context.now.modules state.old frame.old now
        → Follows context.now.table.now context.now.modules state.new frame.new
        (with_found now (through (along (λ names. found bad_type (find names) Ok) ps now.scope.known))) result }
{
    for one in all {
        register_met(context, state, frame, *one)?;
    }
    Ok(())
}

/// The resources that a type leads to from a start become known, but those that are.
fn register_all(
    context: &Context<'_>,
    state: &mut State<'_>,
    frame: &mut Frame,
    start: Start<'_>,
    entity: Entity,
) -> Result<(), ItemError>
    requires input { IsInput context.now.table.now context.now.modules }
    requires ready { IsReady context.now }
    requires here { IsPoint context.now.table.now context.now.modules state.old frame.old }
    requires start { (v : Value) × StartIs context.now.modules (tables_of state.old) start v }
    ensures learns { Learns context.now.table.now state.old frame.old state.new frame.new }
    ensures steps { (v : Value) → StartIs context.now.modules (tables_of state.old) start.entry v
        → Steps context.now.table.now context.now.modules (taken context.now.table.now entity v)
        state.old frame.old state.new frame.new result }
{
    let met = new_resources(context, state, start, entity)?;
    register_each(context, state, frame, met.as_slice())
}

/// The resources that an import's type leads to become known by their paths in the argument, but those that are known.
/// `BadType` where a path doesn't end at a resource that is known where it comes from.
pub fn take_resources(
    context: &Context<'_>,
    state: &mut State<'_>,
    frame: &mut Frame,
    entity: Entity,
    value: DefinitionId,
) -> Result<(), ItemError>
    requires input { IsInput context.now.table.now context.now.modules }
    requires ready { IsReady context.now }
    requires here { IsPoint context.now.table.now context.now.modules state.old frame.old }
    requires value { (v : Value) × Stands context.now.modules (tables_of state.old) value v }
    ensures keeps { Keeps (tables_of state.old) (tables_of state.new) }
    ensures adds { Adds context.now.table.now 0 (tables_of state.old) (tables_of state.new) }
    ensures trail { Trails frame.old.changes state.old.types.resources frame.new.changes state.new.types.resources }
    ensures same { frame.new.component_instance ≡ frame.old.component_instance }
    ensures rest { state.new
        ≡ record state.old { types = record state.old.types { resources = state.new.types.resources } } }
    ensures frame { frame.new
        ≡ record frame.old { converted = frame.new.converted; changes = frame.new.changes } }
    ensures steps { (v : Value) → Stands context.now.modules (tables_of state.old) value v
        → Steps context.now.table.now context.now.modules (taken context.now.table.now entity v)
        state.old frame.old state.new frame.new result }
{
    register_all(context, state, frame, Start::Value(value), entity)
}

/// The resources that the type of an instance leads to become known by their paths in what a child exports, but those
/// that are known. Refused as those of an argument are.
pub fn return_resources(
    context: &Context<'_>,
    state: &mut State<'_>,
    frame: &mut Frame,
    exports: &AtomMap<Member>,
    ty: u32,
) -> Result<(), ItemError>
    requires input { IsInput context.now.table.now context.now.modules }
    requires ready { IsReady context.now }
    requires here { IsPoint context.now.table.now context.now.modules state.old frame.old }
    requires members { (vs : NamedValues)
        × MembersStand context.now.modules (tables_of state.old) exports.now vs }
    ensures keeps { Keeps (tables_of state.old) (tables_of state.new) }
    ensures adds { Adds context.now.table.now 0 (tables_of state.old) (tables_of state.new) }
    ensures trail { Trails frame.old.changes state.old.types.resources frame.new.changes state.new.types.resources }
    ensures same { frame.new.component_instance ≡ frame.old.component_instance }
    ensures rest { state.new
        ≡ record state.old { types = record state.old.types { resources = state.new.types.resources } } }
    ensures frame { frame.new
        ≡ record frame.old { converted = frame.new.converted; changes = frame.new.changes } }
    ensures steps { (vs : NamedValues)
        → MembersStand context.now.modules (tables_of state.old) exports.now vs
        → Steps context.now.table.now context.now.modules (returned context.now.table.now ty vs)
        state.old frame.old state.new frame.new result }
{
    register_all(
        context,
        state,
        frame,
        Start::Exports(exports),
        Entity::Instance(ty),
    )
}
