//! Component instances one inside another, on a stack: an instantiation goes into the items of its component, and the
//! component instance that it stands in goes on when these have been read.

ghost use Rattle.std.specs.Prelude.{◌≡◌, ◌<◌, ◌≤◌, ◌+◌, ◌*◌, ◌++◌, ◌∷◌, ℕ, List, [], false, true, length, map, reverse};
ghost use Rattle.std.specs.Prelude.{None, Some, slice_get, option_and_then, OnOk, unwrap_or};
ghost use Rattle.pc_types.specs.Names.{distinct_names};
ghost use Rattle.pc_types.specs.declared.parsed.TypeTable.{TypeTable};
ghost use Rattle.pc_types.specs.Table.{is_instance, table_fault};
ghost use Rattle.pc_types_lists.specs.Adds.{most_types};
ghost use Rattle.pc_types_lists.specs.Known.{resource_of};
ghost use Rattle.pc_types_lists.specs.Types.{KeepsTypes, Resources, Types};
ghost use Rattle.pc_types_builder.specs.Converted.{AreConverted};
ghost use Rattle.pc_spec_reading.specs.Section.{argument_of};
ghost use Rattle.pc_spec_reading.specs.Types.{has_entry};
ghost use Rattle.pc_spec_reading.specs.Value.{NamedValue, pack_values};
ghost use Rattle.pc_local.specs.Sound.{IsSoundBody, export_name};
ghost use Rattle.pc_local.specs.declared.item.LocalInitializer.TheVariants as local;
ghost use Rattle.pc_inline_names.specs.Named.{argument_name, item_names};
ghost use Rattle.pc_inline_names.specs.Numbers.{AreNumbersOf};
ghost use Rattle.pc_inline_state.specs.Adds.{Adds, most_converted, types_among};
ghost use Rattle.pc_inline_state.specs.Definitions.{component_parts};
ghost use Rattle.pc_inline_state.specs.Points.{IsInput, IsPoint};
ghost use Rattle.pc_inline_state.specs.Ready.{IsReady};
ghost use Rattle.pc_inline_state.specs.Stands.{MembersStand};
ghost use Rattle.pc_inline_state.specs.Tables.{Keeps, tables_of};
ghost use Rattle.pc_inline_state.specs.Trails.{Trails, undone};
ghost use Rattle.pc_inline_stack.specs.Begins.{converting_for};
ghost use Rattle.pc_inline_stack.specs.Calls.{AddsChild, Calls, GivesBack, IsReturn, Stays, TrailsBack};
ghost use Rattle.pc_inline_stack.specs.Driving.{AddsCounted, Runs};
ghost use Rattle.pc_inline_stack.specs.Reads.{AreItems};
ghost use Rattle.pc_inline_stack.specs.Stacks.{AreCounted, AreUnderway, AreWeights, Moved, Turns, begins_child};
ghost use Rattle.pc_inline_stack.specs.Stacks.{Ended, body_at};
ghost use Rattle.pc_inline_stack.specs.Stacks.{instance_type_at, items_of};

use crate::begin::begin_instance;
use pc_entity::{
    Atom, NoMemory, PrimaryMap, RuntimeComponentInstanceIndex, StaticComponentIndex, Text,
};
use pc_inline_items::{add_instance, are_there, are_typed, argument_values, export_members, step};
use pc_inline_names::AtomMap;
use pc_inline_resources::return_resources;
use pc_inline_state::{
    Change, ClosureId, Context, Definition, DefinitionId, Frame, ItemError, ItemFault, Member,
    State, error_at, is_instance_type,
};
use pc_local::{LocalInitializer, Translation};
use pc_parsed::{ExternName, ItemKind};
use pc_types::Error;
use pc_types_builder::{ComponentTypesBuilder, Converted};
use std::mem;

/// A component instance that is being read: what it captured, its body, and the number of its next item. The root
/// captured nothing, and its body has no number.
#[derive(Drop)]
pub struct Open {
    pub frame: Frame,
    pub closure: Option<ClosureId>,
    pub body: Option<StaticComponentIndex>,
    pub next: usize,
}

/// The component instances that are being read: the innermost, and those that wait for it, each at the item that began
/// the next; and the total of the reading so far.
#[derive(Drop)]
pub struct Stack {
    pub callers: Vec<Open>,
    pub top: Open,
    pub total: u32,
}

/// What a child begins with.
#[derive(Drop)]
pub struct Call {
    pub body: StaticComponentIndex,
    pub closure: ClosureId,
    pub arguments: AtomMap<DefinitionId>,
}

/// The body of this number, or that of the root.
fn body_at<'b>(
    bodies: &'b PrimaryMap<StaticComponentIndex, Translation>,
    root: &'b Translation,
    body: Option<StaticComponentIndex>,
) -> &'b Translation
    ensures { result.now ≡ body_at bodies.now root.now body }
{
    match body {
        // Each component that begins has its body among these, so the root never stands in for one.
        Some(index) => bodies.get(index).unwrap_or(root),
        None => root,
    }
}

/// A component instance waits for the one that is read next.
fn push_caller(callers: &mut Vec<Open>, caller: Open) -> Result<(), NoMemory>
    ensures { OnOk result (callers.new.items ≡ callers.old.items ++ caller ∷ []) }
{
    callers.push(caller)?;
    Ok(())
}

/// The body of the component that a definition is, and what it captured.
fn body_of(state: &State<'_>, id: DefinitionId) -> Option<(StaticComponentIndex, ClosureId)>
    ensures { result ≡ option_and_then component_parts (slice_get state.now.definitions id.0) }
{
    match state.definitions.get(id) {
        Some(Definition::Component { index, closure }) => Some((*index, *closure)),
        _ => None,
    }
}

/// What a child begins with. The types among its arguments are converted when nothing else can stop it.
fn call_of(
    context: &Context<'_>,
    state: &mut State<'_>,
    frame: &mut Frame,
    component: u32,
    args: &[(Text, ItemKind, u32)],
    numbers: &[Atom],
    ty: u32,
) -> Result<Call, ItemError>
    requires input { IsInput context.now.table.now context.now.modules }
    requires here { IsPoint context.now.table.now context.now.modules state.old frame.old }
    requires numbered { AreNumbersOf state.old.names.now.texts (map argument_name args.now) numbers.now }
    ensures keeps { Keeps (tables_of state.old) (tables_of state.new) }
    ensures adds { Adds context.now.table.now (types_among args.now * (1 + most_types context.now.table.now))
        (tables_of state.old) (tables_of state.new) }
    ensures resources { state.new.types.resources ≡ state.old.types.resources }
    ensures same { frame.new ≡ record frame.old { converted = frame.new.converted } }
    ensures stays { OnOk result
        (Stays context.now.table.now context.now.modules state.old frame.old state.new frame.new) }
    ensures calls { Calls context.now.table.now context.now.modules component (map argument_of args.now) ty
        state.old frame.old state.new result }
{
    if !are_typed(context.table, args) {
        return Err(ItemError::Fault(ItemFault::BadType));
    }
    if !is_instance_type(context.table, ty) {
        return Err(ItemError::Fault(ItemFault::BadType));
    }
    let Some(component) = frame.item(ItemKind::Component, component) else {
        return Err(ItemError::Fault(ItemFault::Invalid));
    };
    if !are_there(frame, args) {
        return Err(ItemError::Fault(ItemFault::Invalid));
    }
    // Never nothing: what stands among the components of a frame is a component, which the contract knows.
    let Some((body, closure)) = body_of(state, component) else {
        return Err(ItemError::Fault(ItemFault::Invalid));
    };
    let arguments = argument_values(context, state, frame, args, numbers)?;
    Ok(Call {
        body,
        closure,
        arguments,
    })
}

/// What a child has converted when it begins: the types that are the same in each component instance, and those that
/// the other entries had. Its caller has none of them while it waits.
fn child_types(context: &Context<'_>, frame: &mut Frame) -> Converted
    requires sound { table_fault context.now.table.now ≡ None }
    requires converted { (b : Types) × AreConverted b context.now.table.now frame.old.converted }
    ensures same { frame.new ≡ record frame.old { converted = frame.new.converted } }
    ensures stays { (b : Types) → AreConverted b context.now.table.now frame.old.converted
        → AreConverted b context.now.table.now frame.new.converted }
    ensures child { (b : Types) (k : Resources) → AreConverted b context.now.table.now frame.old.converted
        → AreConverted (record b { resources = k }) context.now.table.now result }
{
    let mut converted = Converted::new(context.alloc, context.table);
    frame.converted.exchange_plain(&mut converted);
    converted
}

/// A child that has ended gives back the types that are the same in each component instance, with those that it
/// converted, and those that the other entries had.
fn take_back(frame: &mut Frame, child: &mut Frame)
    requires room { length frame.old.converted.all ≡ length child.old.converted.all }
    ensures same { frame.new ≡ record frame.old { converted = frame.new.converted } }
    ensures converted { (t : TypeTable) (old new : Types) → table_fault t ≡ None → KeepsTypes old new
        → AreConverted old t child.old.converted → AreConverted new t frame.old.converted
        → AreConverted new t frame.new.converted }
{
    frame.converted.exchange_plain(&mut child.converted);
}

/// Types are converted for this component instance from now on.
fn convert_for(types: &mut ComponentTypesBuilder, instance: RuntimeComponentInstanceIndex)
    ensures { types.new ≡ converting_for types.old instance }
{
    types.resources_mut().set_current_instance(instance);
}

/// The weight of the body of this number.
fn weight_of(weights: &PrimaryMap<StaticComponentIndex, u32>, body: StaticComponentIndex) -> u32
    ensures { result ≡ unwrap_or (slice_get weights.now body.0) 4294967295 }
{
    // Each component has its weight among these.
    weights.get(body).copied().unwrap_or(u32::MAX)
}

/// An instantiation: the component instance waits at it while the items of its child are read.
fn enter(
    context: &Context<'_>,
    state: &mut State<'_>,
    root: &Translation,
    stack: &mut Stack,
    component: u32,
    args: &[(Text, ItemKind, u32)],
    numbers: &[Atom],
    ty: u32,
    limit: u32,
    weights: &PrimaryMap<StaticComponentIndex, u32>,
) -> Result<(), Error>
    requires input { IsInput context.now.table.now context.now.modules }
    requires weights { AreWeights context.now.table.now context.now.modules state.old.bodies.now weights.now }
    requires here { AreUnderway context.now.table.now context.now.modules limit root.now
        state.old (reverse stack.old.callers.items) stack.old.top stack.old.total }
    requires item { slice_get (items_of state.old.bodies.now root.now stack.old.top) stack.old.top.next
        ≡ Some (local.ComponentInstantiate component args.now ty) }
    requires numbered { AreNumbersOf state.old.names.now.texts (map argument_name args.now) numbers.now }
    requires next { stack.old.top.next < 18446744073709551615 }
    ensures { Moved context.now.table.now context.now.modules limit root.now
        state.old (reverse stack.old.callers.items) stack.old state.new stack.new result }
{
    let called = call_of(
        context,
        state,
        &mut stack.top.frame,
        component,
        args,
        numbers,
        ty,
    );
    let call = match called {
        Ok(call) => call,
        Err(error) => return Err(error_at(error, stack.top.frame.place_of(stack.top.next))),
    };
    let weight = weight_of(weights, call.body);
    let instance = begin_instance(&mut state.graph, limit, &mut stack.total, weight)?;
    let converted = child_types(context, &mut stack.top.frame);
    let child = Open {
        frame: Frame::new(context.alloc, converted, instance, call.arguments),
        closure: Some(call.closure),
        body: Some(call.body),
        next: 0,
    };
    let caller = mem::replace(&mut stack.top, child);
    push_caller(&mut stack.callers, caller)?;
    convert_for(&mut state.types, instance);
    Ok(())
}

/// An item that begins no component instance.
fn advance(
    context: &Context<'_>,
    state: &mut State<'_>,
    root: &Translation,
    stack: &mut Stack,
    item: &LocalInitializer,
    numbers: &[Atom],
    limit: u32,
) -> Result<(), Error>
    requires input { IsInput context.now.table.now context.now.modules }
    requires ready { IsReady context.now }
    requires sound { IsSoundBody (length context.now.modules) root.now }
    requires here { AreUnderway context.now.table.now context.now.modules limit root.now
        state.old (reverse stack.old.callers.items) stack.old.top stack.old.total }
    requires item { slice_get (items_of state.old.bodies.now root.now stack.old.top) stack.old.top.next
        ≡ Some item.now }
    requires numbered { AreNumbersOf state.old.names.now.texts (item_names item.now) numbers.now }
    requires plain { begins_child item.now ≡ false }
    requires next { stack.old.top.next < 18446744073709551615 }
    ensures { Moved context.now.table.now context.now.modules limit root.now
        state.old (reverse stack.old.callers.items) stack.old state.new stack.new result }
{
    let read = step(
        context,
        state,
        &mut stack.top.frame,
        stack.top.closure,
        item,
        numbers,
    );
    if let Err(error) = read {
        return Err(error_at(error, stack.top.frame.place_of(stack.top.next)));
    }
    stack.top.next += 1;
    Ok(())
}

/// What these numbers stood for before they were changed is known again. The oldest change stands first.
fn undo(types: &mut ComponentTypesBuilder, changes: &[Change]) -> Result<(), NoMemory>
    ensures known { OnOk result ((q : ℕ) → resource_of types.new.resources.known q
        ≡ undone changes.now (resource_of types.old.resources.known) q) }
    ensures rest { types.new ≡ record types.old {
      resources = record types.old.resources { known = types.new.resources.known };
    } }
{
    let mut left = changes.len();
    'back: while left > 0 {
        left -= 1;
        let change = changes[left];
        types.resources_mut().restore(change.number, change.was)?;
    }
    Ok(())
}

/// A component instance has an instance more, of what a child exports. First the resources of its type become known, by
/// their paths in that.
fn add_child(
    context: &Context<'_>,
    state: &mut State<'_>,
    frame: &mut Frame,
    members: AtomMap<Member>,
    ty: u32,
) -> Result<(), ItemError>
    requires input { IsInput context.now.table.now context.now.modules }
    requires ready { IsReady context.now }
    requires here { IsPoint context.now.table.now context.now.modules state.old frame.old }
    requires members { (exports : List NamedValue)
        × MembersStand context.now.modules (tables_of state.old) members (pack_values exports) }
    requires typed { has_entry context.now.table.now is_instance ty ≡ true }
    ensures keeps { Keeps (tables_of state.old) (tables_of state.new) }
    ensures adds { Adds context.now.table.now (most_converted context.now.table.now 1)
        (tables_of state.old) (tables_of state.new) }
    ensures trail { Trails frame.old.changes state.old.types.resources frame.new.changes state.new.types.resources }
    ensures same { frame.new.component_instance ≡ frame.old.component_instance }
    ensures adds_child { AddsChild context.now.table.now context.now.modules members ty
        state.old frame.old state.new frame.new result }
{
    return_resources(context, state, frame, &members, ty)?;
    add_instance(context, state, frame, members, ty)
}

/// A child has ended: what it changed is taken back, and its caller has an instance of what it exports.
fn end_child(
    context: &Context<'_>,
    state: &mut State<'_>,
    frame: &mut Frame,
    child: &mut Frame,
    exports: &[(ExternName, ItemKind, u32)],
    numbers: &[Atom],
    ty: u32,
) -> Result<(), ItemError>
    requires input { IsInput context.now.table.now context.now.modules }
    requires ready { IsReady context.now }
    requires returns { IsReturn context.now.table.now context.now.modules state.old child.old frame.old }
    requires named { distinct_names (map export_name exports.now) ≡ true }
    requires numbered { AreNumbersOf state.old.names.now.texts (map export_name exports.now) numbers.now }
    requires typed { has_entry context.now.table.now is_instance ty ≡ true }
    ensures keeps { Keeps (tables_of state.old) (tables_of state.new) }
    ensures adds { Adds context.now.table.now
        (types_among exports.now * (1 + most_types context.now.table.now) + most_converted context.now.table.now 1)
        (tables_of state.old) (tables_of state.new) }
    ensures trail { OnOk result (TrailsBack state.old child.old frame.old state.new frame.new) }
    ensures same { frame.new.component_instance ≡ frame.old.component_instance }
    ensures gives { GivesBack context.now.table.now context.now.modules exports.now ty
        state.old child.old frame.old state.new frame.new result }
{
    let members = export_members(context, state, child, exports, numbers)?;
    undo(&mut state.types, child.changes.as_slice())?;
    convert_for(&mut state.types, frame.component_instance);
    take_back(frame, child);
    add_child(context, state, frame, members, ty)
}

/// The type of the child for which a component instance waits.
fn type_at(
    bodies: &PrimaryMap<StaticComponentIndex, Translation>,
    root: &Translation,
    caller: &Open,
) -> Option<u32>
    ensures { result ≡ instance_type_at (items_of bodies.now root.now caller.now) caller.now.next }
{
    match body_at(bodies, root, caller.body)
        .initializers
        .as_slice()
        .get(caller.next)
    {
        Some(LocalInitializer::ComponentInstantiate { ty, .. }) => Some(*ty),
        _ => None,
    }
}

/// The items of a child have been read: the component instance that waits for it goes on.
fn leave(
    context: &Context<'_>,
    state: &mut State<'_>,
    root: &Translation,
    stack: &mut Stack,
    caller: Open,
    limit: u32,
) -> Result<(), Error>
    requires input { IsInput context.now.table.now context.now.modules }
    requires ready { IsReady context.now }
    requires sound { IsSoundBody (length context.now.modules) root.now }
    requires here { AreUnderway context.now.table.now context.now.modules limit root.now
        state.old (caller ∷ reverse stack.old.callers.items) stack.old.top stack.old.total }
    requires next { caller.next < 18446744073709551615 }
    requires ended { length (items_of state.old.bodies.now root.now stack.old.top) ≤ stack.old.top.next }
    ensures { Moved context.now.table.now context.now.modules limit root.now
        state.old (caller ∷ reverse stack.old.callers.items) stack.old state.new stack.new result }
{
    // Never nothing: what waits for a child is at the item that began it.
    let ty = type_at(state.bodies, root, &caller).unwrap_or(0);
    let mut child = mem::replace(&mut stack.top, caller);
    let exports = body_at(state.bodies, root, child.body).exports.as_slice();
    let numbers = state.names.body_exports(child.body);
    let ended = end_child(
        context,
        state,
        &mut stack.top.frame,
        &mut child.frame,
        exports,
        numbers,
        ty,
    );
    if let Err(error) = ended {
        return Err(error_at(error, stack.top.frame.place_of(stack.top.next)));
    }
    stack.top.next += 1;
    Ok(())
}

/// An item: one that begins a component instance, or another.
fn read_item(
    context: &Context<'_>,
    state: &mut State<'_>,
    root: &Translation,
    stack: &mut Stack,
    item: &LocalInitializer,
    numbers: &[Atom],
    limit: u32,
    weights: &PrimaryMap<StaticComponentIndex, u32>,
) -> Result<(), Error>
    requires input { IsInput context.now.table.now context.now.modules }
    requires ready { IsReady context.now }
    requires sound { IsSoundBody (length context.now.modules) root.now }
    requires weights { AreWeights context.now.table.now context.now.modules state.old.bodies.now weights.now }
    requires here { AreUnderway context.now.table.now context.now.modules limit root.now
        state.old (reverse stack.old.callers.items) stack.old.top stack.old.total }
    requires item { slice_get (items_of state.old.bodies.now root.now stack.old.top) stack.old.top.next
        ≡ Some item.now }
    requires numbered { AreNumbersOf state.old.names.now.texts (item_names item.now) numbers.now }
    requires next { stack.old.top.next < 18446744073709551615 }
    ensures { Moved context.now.table.now context.now.modules limit root.now
        state.old (reverse stack.old.callers.items) stack.old state.new stack.new result }
{
    match item {
        LocalInitializer::ComponentInstantiate {
            component,
            args,
            ty,
        } => enter(
            context,
            state,
            root,
            stack,
            *component,
            args.as_slice(),
            numbers,
            *ty,
            limit,
            weights,
        ),
        _ => advance(context, state, root, stack, item, numbers, limit),
    }
}

/// One move: an item is read, a child begins, or it ends. Whether there was one, or the root has ended.
fn turn(
    context: &Context<'_>,
    state: &mut State<'_>,
    root: &Translation,
    stack: &mut Stack,
    limit: u32,
    weights: &PrimaryMap<StaticComponentIndex, u32>,
) -> Result<bool, Error>
    requires input { IsInput context.now.table.now context.now.modules }
    requires ready { IsReady context.now }
    requires sound { IsSoundBody (length context.now.modules) root.now }
    requires weights { AreWeights context.now.table.now context.now.modules state.old.bodies.now weights.now }
    requires here { AreUnderway context.now.table.now context.now.modules limit root.now
        state.old (reverse stack.old.callers.items) stack.old.top stack.old.total }
    requires waits { AreCounted stack.old.callers.items }
    ensures { Turns context.now.table.now context.now.modules limit root.now
        state.old stack.old state.new stack.new result }
{
    let body = body_at(state.bodies, root, stack.top.body);
    match body.initializers.as_slice().get(stack.top.next) {
        Some(item) => {
            let numbers = state.names.item(stack.top.body, stack.top.next);
            read_item(context, state, root, stack, item, numbers, limit, weights)?;
            Ok(true)
        }
        None => match stack.callers.pop() {
            Some(caller) => {
                leave(context, state, root, stack, caller, limit)?;
                Ok(true)
            }
            None => Ok(false),
        },
    }
}

/// All moves, until the root has ended.
fn turns(
    context: &Context<'_>,
    state: &mut State<'_>,
    root: &Translation,
    stack: &mut Stack,
    limit: u32,
    weights: &PrimaryMap<StaticComponentIndex, u32>,
) -> Result<(), Error>
    requires input { IsInput context.now.table.now context.now.modules }
    requires ready { IsReady context.now }
    requires sound { IsSoundBody (length context.now.modules) root.now }
    requires weights { AreWeights context.now.table.now context.now.modules state.old.bodies.now weights.now }
    requires here { AreUnderway context.now.table.now context.now.modules limit root.now
        state.old (reverse stack.old.callers.items) stack.old.top stack.old.total }
    requires waits { AreCounted stack.old.callers.items }
    ensures { Ended context.now.table.now context.now.modules limit root.now
        state.old stack.old state.new stack.new result }
{
    'moves: while turn(context, state, root, stack, limit, weights)? {}
    Ok(())
}

/// The items of the root are read in order, with those of all component instances that they begin: the root after
/// them.
///
/// Each component instance counts one in the total, and the weight of its body, when it begins. `weights` are those of
/// the bodies, by number, cut where a total is full.
pub fn run(
    context: &Context<'_>,
    state: &mut State<'_>,
    root: &Translation,
    frame: Frame,
    limit: u32,
    weights: &PrimaryMap<StaticComponentIndex, u32>,
    total: &mut u32,
) -> Result<Frame, Error>
    requires input { IsInput context.now.table.now context.now.modules }
    requires ready { IsReady context.now }
    requires sound { IsSoundBody (length context.now.modules) root.now }
    requires weights { AreWeights context.now.table.now context.now.modules state.old.bodies.now weights.now }
    requires here { IsPoint context.now.table.now context.now.modules state.old frame }
    requires items { AreItems state.old.bodies.now root.now.initializers }
    requires rooted { state.old.names.now.root ≡ root.now }
    requires begun { 0 < state.old.graph.num_runtime_component_instances }
    requires within { state.old.graph.num_runtime_component_instances ≤ limit }
    requires below { total.old < 4294967295 }
    ensures keeps { Keeps (tables_of state.old) (tables_of state.new) }
    ensures adds { AddsCounted context.now.table.now root.now.initializers total.old total.new state.old state.new }
    ensures runs { Runs context.now.table.now context.now.modules limit root.now.initializers
        state.old frame total.old state.new total.new result }
{
    let mut stack = Stack {
        callers: Vec::new(context.alloc),
        top: Open {
            frame,
            closure: None,
            body: None,
            next: 0,
        },
        total: *total,
    };
    let ended = turns(context, state, root, &mut stack, limit, weights);
    *total = stack.total;
    ended?;
    Ok(stack.top.frame)
}
