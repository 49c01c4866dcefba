//! Instances that are exported, one inside another, on a stack: an instance waits while the node of a part of it is
//! reached that is an instance itself.

ghost use Rattle.std.specs.Prelude.{◌≡◌, ◌++◌, ◌∷◌, [], None, false, length, true, OnOk, IfOk};
ghost use Rattle.pc_entity.specs.Lists.{value_of};
ghost use Rattle.pc_inline_state.specs.declared.definition.Definition.{Definition};
ghost use Rattle.pc_inline_state.specs.declared.state.State.{State};
ghost use Rattle.pc_inline_state.specs.Points.{IsInput};
ghost use Rattle.pc_inline_exports.specs.Building.{AddsLeaf, Advances, Closes, Enters, GoesOn, IsApart, IsWorking};
ghost use Rattle.pc_inline_exports.specs.Building.{Leaves, Turned};
ghost use Rattle.pc_inline_exports.specs.Building.{Working};
ghost use Rattle.pc_inline_exports.specs.Building.{opened, with_item};
ghost use Rattle.pc_inline_exports.specs.Found.{nests};
ghost use Rattle.pc_inline_exports.specs.Reaching.{IsReachable, Reaches};

use crate::item::{push_item, reach_leaf};
use crate::part::{Found, nests, part_at};
use pc_dfg::Export;
use pc_entity::{ExportIndex, NoMemory, Text, TextMap};
use pc_inline_state::{Context, Definition, ItemError, State};
use pc_types::ComponentExternData;
use std::mem;

/// The most nodes of one export: more have no numbers.
const MAX_NODES: u32 = 4294967295;

/// An instance whose parts are being reached: its name in the instance around it, what it is, the place of the next
/// part and the items of those before it.
#[derive(Drop)]
pub struct Open {
    pub name: Text,
    pub data_: ComponentExternData,
    pub instance: Definition,
    pub next: usize,
    pub items: TextMap<(ExportIndex, ComponentExternData)>,
}

/// The instances whose parts are being reached: the innermost, and those that wait for it; and how many nodes have been
/// reached so far.
#[derive(Drop)]
pub struct Stack {
    pub callers: Vec<Open>,
    pub top: Open,
    pub nodes: u32,
}

/// An instance of which no part has been reached.
fn opened(context: &Context<'_>, found: Found) -> Open
    ensures { result ≡ opened found }
{
    Open {
        name: found.name,
        data_: found.data_,
        instance: found.definition,
        next: 0,
        items: TextMap::new(context.alloc, context.seed),
    }
}

/// What an instance has stands under names of their own.
fn names_are_apart(context: &Context<'_>, state: &State<'_>, instance: Definition)
    requires input { IsInput context.now.table.now context.now.modules }
    requires table { state.now.table.now ≡ context.now.table.now }
    ensures { IsApart context.now.table.now context.now.modules state.now instance }
{
    state.names.are_distinct();
    if let Definition::Instance { exports, .. } = instance {
        if let Some(members) = state.instances.get(exports) {
            members.numbers_are_distinct();
        }
    }
}

/// The next part of an instance has its item.
fn put(
    open: &mut Open,
    name: Text,
    item: ExportIndex,
    data_: ComponentExternData,
) -> Result<(), NoMemory>
    requires absent { value_of name open.old.items ≡ None }
    requires next { open.old.next ≡ length open.old.items }
    ensures { OnOk result (open.new ≡ with_item open.old name item data_) }
{
    open.items.push(name, (item, data_))?;
    open.next = open.items.len();
    Ok(())
}

/// An instance waits for the one that is reached next.
fn push_caller(callers: &mut Vec<Open>, caller: Open) -> Result<(), NoMemory>
    ensures { OnOk result (callers.new.items ≡ callers.old.items ++ caller ∷ []) }
{
    callers.push(caller)?;
    Ok(())
}

/// An instance all parts of which have items becomes an item itself.
fn close(
    state: &mut State<'_>,
    instance: Definition,
    items: TextMap<(ExportIndex, ComponentExternData)>,
) -> Result<ExportIndex, ItemError>
    requires is { nests instance ≡ true }
    ensures { Closes state.old instance items state.new result }
{
    let ty = match instance {
        Definition::Instance { ty, .. } | Definition::HostInstance { ty, .. } => ty,
        _ => unreachable!(),
    };
    push_item(state, Export::Instance { ty, exports: items })
}

/// A part that is no instance gets its item.
fn add_leaf(
    context: &Context<'_>,
    state: &mut State<'_>,
    open: &mut Open,
    part: Found,
) -> Result<(), ItemError>
    requires is { IsReachable context.now.table.now context.now.modules state.old part.definition }
    requires leaf { nests part.definition ≡ false }
    requires absent { value_of part.name open.old.items ≡ None }
    requires next { open.old.next ≡ length open.old.items }
    ensures { AddsLeaf context.now.table.now context.now.modules state.old open.old part state.new open.new result }
{
    let item = reach_leaf(context, state, part.definition)?;
    put(open, part.name, item, part.data_)?;
    Ok(())
}

/// The parts of a part that is an instance are reached next.
fn enter(context: &Context<'_>, stack: &mut Stack, part: Found) -> Result<(), NoMemory>
    ensures { OnOk result (Enters stack.old part stack.new) }
{
    let caller = mem::replace(&mut stack.top, opened(context, part));
    push_caller(&mut stack.callers, caller)
}

/// All parts of an instance have items: it gets its own, and the instance around it goes on.
fn leave(state: &mut State<'_>, stack: &mut Stack, caller: Open) -> Result<(), ItemError>
    requires is { nests stack.old.top.instance ≡ true }
    requires absent { value_of stack.old.top.name caller.items ≡ None }
    requires next { caller.next ≡ length caller.items }
    ensures { Leaves state.old stack.old caller state.new stack.new result }
{
    let child = mem::replace(&mut stack.top, caller);
    let item = close(state, child.instance, child.items)?;
    put(&mut stack.top, child.name, item, child.data_)?;
    Ok(())
}

/// A part of the innermost instance is reached: it gets its item, or its own parts are reached next.
fn advance(
    context: &Context<'_>,
    state: &mut State<'_>,
    stack: &mut Stack,
    part: Found,
) -> Result<(), ItemError>
    requires input { IsInput context.now.table.now context.now.modules }
    requires is { IsReachable context.now.table.now context.now.modules state.old part.definition }
    requires absent { value_of part.name stack.old.top.items ≡ None }
    requires next { stack.old.top.next ≡ length stack.old.top.items }
    ensures { Advances context.now.table.now context.now.modules state.old stack.old part state.new stack.new result }
{
    if stack.nodes >= MAX_NODES {
        return Err(ItemError::TooMany);
    }
    stack.nodes += 1;
    if nests(part.definition) {
        names_are_apart(context, state, part.definition);
        enter(context, stack, part)?;
        return Ok(());
    }
    add_leaf(context, state, &mut stack.top, part)
}

/// One turn: a part is reached, or an instance has all its items. Whether there was one, or the outermost has them all.
fn turn(context: &Context<'_>, state: &mut State<'_>, stack: &mut Stack) -> Result<bool, ItemError>
    requires input { IsInput context.now.table.now context.now.modules }
    requires working { IsWorking context.now.table.now context.now.modules state.old stack.old }
    ensures goes { (old : State) (d : Definition)
        → Working context.now.table.now context.now.modules old d state.old stack.old
        → GoesOn context.now.table.now context.now.modules old d state.new stack.new result }
    ensures turned { IfOk result (Turned context.now.table.now context.now.modules
        state.old stack.old state.new stack.new) }
{
    match part_at(context, state, stack.top.instance, stack.top.next)? {
        Some(part) => advance(context, state, stack, part)?,
        None => match stack.callers.pop() {
            Some(caller) => leave(state, stack, caller)?,
            None => return Ok(false),
        },
    }
    Ok(true)
}

/// What is exported becomes an item of the graph: an instance behind the items of what it exports itself.
pub(crate) fn reach_node(
    context: &Context<'_>,
    state: &mut State<'_>,
    found: Found,
) -> Result<ExportIndex, ItemError>
    requires input { IsInput context.now.table.now context.now.modules }
    requires is { IsReachable context.now.table.now context.now.modules state.old found.definition }
    ensures { Reaches context.now.table.now context.now.modules state.old found.definition state.new result }
{
    if !nests(found.definition) {
        return reach_leaf(context, state, found.definition);
    }
    names_are_apart(context, state, found.definition);
    let mut stack = Stack {
        callers: Vec::new(context.alloc),
        top: opened(context, found),
        nodes: 1,
    };
    'parts: while turn(context, state, &mut stack)? {}
    let top = stack.top;
    close(state, top.instance, top.items)
}
