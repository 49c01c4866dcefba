//! Items of a component instance under names: what it exports, and what a child is given. A type among them is
//! converted, and becomes a definition.

ghost use Rattle.std.specs.Prelude.{◌≡◌, true, map, IfErr, IfOk, OnOk};
ghost use Rattle.std.specs.List.{filter_map};
ghost use Rattle.pc_types.specs.Names.{distinct_names};
ghost use Rattle.pc_parsed.specs.declared.payload.ItemKind.TheVariants as kind;
ghost use Rattle.pc_spec_reading.specs.Items.{argument_value, exports_at, value_at};
ghost use Rattle.pc_spec_reading.specs.Nodes.{extern_data};
ghost use Rattle.pc_spec_reading.specs.Scope.{Moment};
ghost use Rattle.pc_spec_reading.specs.Section.{argument_of, named_item};
ghost use Rattle.pc_spec_reading.specs.Value.{pack_values};
ghost use Rattle.pc_inline_names.specs.Both.{Both};
ghost use Rattle.pc_inline_names.specs.Named.{argument_name};
ghost use Rattle.pc_inline_names.specs.Numbers.{AreNumbersOf, SameNamed};
ghost use Rattle.pc_inline_state.specs.Adds.{types_among};
ghost use Rattle.pc_inline_state.specs.Named.{export_name};
ghost use Rattle.pc_inline_state.specs.Points.{IsInput, IsPoint, PointStands};
ghost use Rattle.pc_inline_state.specs.Refused.{LacksRoom};
ghost use Rattle.pc_inline_state.specs.Stands.{MembersStand, Stands};
ghost use Rattle.pc_inline_state.specs.Tables.{tables_of};
ghost use Rattle.pc_inline_items.specs.Members.{AddsItem, TakesTypes, are_there, are_typed, if_type, is_held, is_there};
ghost use Rattle.pc_inline_items.specs.Members.{is_typed, member_of};

use pc_entity::{Atom, NoMemory, Text, TryClone};
use pc_inline_names::AtomMap;
use pc_inline_state::{Context, Definition, DefinitionId, Frame, ItemError, Member, State};
use pc_parsed::{ExternName, ItemKind};
use pc_types::{ComponentExternData, TypeTable};
use std::alloc::Global;

/// Whether a number is one of the type table.
pub(crate) fn is_held(table: &TypeTable, n: u32) -> bool
    ensures { result ≡ is_held table.now n }
{
    table.entry(n).is_some()
}

/// Whether an item is no type, or one whose number the table holds.
pub(crate) fn is_typed(table: &TypeTable, kind: ItemKind, index: u32) -> bool
    ensures { result ≡ is_typed table.now kind index }
{
    match kind {
        ItemKind::Type_ => is_held(table, index),
        _ => true,
    }
}

/// Whether a component instance has an item; a type isn't looked for.
fn is_there(frame: &Frame, kind: ItemKind, index: u32) -> bool
    ensures { result ≡ is_there frame.now kind index }
{
    match kind {
        ItemKind::Type_ => true,
        _ => frame.item(kind, index).is_some(),
    }
}

/// Whether the table holds the numbers of all types among these.
pub fn are_typed<N>(table: &TypeTable, items: &[(N, ItemKind, u32)]) -> bool
    ensures { result ≡ are_typed table.now items.now }
{
    items.iter().all(|item| is_typed(table, item.1, item.2))
}

/// Whether a component instance has all of these items that are no types.
pub fn are_there<N>(frame: &Frame, items: &[(N, ItemKind, u32)]) -> bool
    ensures { result ≡ are_there frame.now items.now }
{
    items.iter().all(|item| is_there(frame, item.1, item.2))
}

/// What a name says of itself.
fn extern_data(alloc: Global, name: &ExternName) -> Result<ComponentExternData, NoMemory>
    ensures { IfOk result (λ said. said ≡ extern_data name.now) }
{
    Ok(ComponentExternData {
        implements: name.implements.try_clone(alloc)?,
        external_id: name.external_id.try_clone(alloc)?,
    })
}

/// A type as a definition, if its number is held.
fn type_id(
    context: &Context<'_>,
    state: &mut State<'_>,
    frame: &mut Frame,
    n: u32,
) -> Result<Option<DefinitionId>, ItemError>
    requires input { IsInput context.now.table.now context.now.modules }
    requires here { IsPoint context.now.table.now context.now.modules state.old frame.old }
    ensures takes { TakesTypes context.now.table.now context.now.modules 1 state.old frame.old state.new frame.new }
    ensures lacks { IfErr result (LacksRoom state.new) }
    ensures value { (now : Moment)
        → PointStands context.now.table.now context.now.modules state.old frame.old now
        → IfOk result (λ id. Both (Stands context.now.modules (tables_of state.new)) id
        (value_at context.now.table.now now.scope kind.Type_ n)) }
{
    if !is_held(context.table, n) {
        return Ok(None);
    }
    let ty = context.entry_type(state, &mut frame.converted, n)?;
    let id = state.push_definition(Definition::Type_(ty))?;
    Ok(Some(id))
}

/// The definition of an item, if it is there.
fn value_id(
    context: &Context<'_>,
    state: &mut State<'_>,
    frame: &mut Frame,
    kind: ItemKind,
    index: u32,
) -> Result<Option<DefinitionId>, ItemError>
    requires input { IsInput context.now.table.now context.now.modules }
    requires here { IsPoint context.now.table.now context.now.modules state.old frame.old }
    ensures takes { TakesTypes context.now.table.now context.now.modules (if_type kind)
        state.old frame.old state.new frame.new }
    ensures lacks { IfErr result (LacksRoom state.new) }
    ensures value { (now : Moment)
        → PointStands context.now.table.now context.now.modules state.old frame.old now
        → IfOk result (λ id. Both (Stands context.now.modules (tables_of state.new)) id
        (value_at context.now.table.now now.scope kind index)) }
{
    match kind {
        ItemKind::Type_ => type_id(context, state, frame, index),
        _ => Ok(frame.item(kind, index)),
    }
}

/// An export is a member under the number of its name, if it is there.
fn add_export(
    context: &Context<'_>,
    state: &mut State<'_>,
    frame: &mut Frame,
    members: &mut AtomMap<Member>,
    export: &(ExternName, ItemKind, u32),
    number: Atom,
) -> Result<(), ItemError>
    requires input { IsInput context.now.table.now context.now.modules }
    requires here { IsPoint context.now.table.now context.now.modules state.old frame.old }
    ensures takes { TakesTypes context.now.table.now context.now.modules (if_type export.now.1)
        state.old frame.old state.new frame.new }
    ensures lacks { IfErr result (LacksRoom state.new) }
    ensures adds { OnOk result (AddsItem context.now.table.now context.now.modules (member_of export.now.0)
        number export.now.1 export.now.2 state.old frame.old state.new members.old members.new) }
{
    let found = value_id(context, state, frame, export.1, export.2)?;
    if let Some(item) = found {
        let data_ = extern_data(context.alloc, &export.0)?;
        members.insert_first(number, Member { item, data_ })?;
    }
    Ok(())
}

/// What a component instance exports: the items that are there, under the numbers of their names. What isn't there is
/// passed over.
pub fn export_members(
    context: &Context<'_>,
    state: &mut State<'_>,
    frame: &mut Frame,
    exports: &[(ExternName, ItemKind, u32)],
    numbers: &[Atom],
) -> Result<AtomMap<Member>, ItemError>
    requires input { IsInput context.now.table.now context.now.modules }
    requires here { IsPoint context.now.table.now context.now.modules state.old frame.old }
    requires named { distinct_names (map export_name exports.now) ≡ true }
    requires numbered { AreNumbersOf state.old.names.now.texts (map export_name exports.now) numbers.now }
    ensures takes { TakesTypes context.now.table.now context.now.modules (types_among exports.now)
        state.old frame.old state.new frame.new }
    ensures lacks { IfErr result (LacksRoom state.new) }
    ensures members { (now : Moment)
        → PointStands context.now.table.now context.now.modules state.old frame.old now
        → IfOk result (λ members. MembersStand context.now.modules (tables_of state.new) members
        (pack_values (exports_at context.now.table.now now.scope (map named_item exports.now)))) }
{
    let mut members = AtomMap::new(context.alloc, context.seed);
    for (place, export) in exports.iter().enumerate() {
        add_export(context, state, frame, &mut members, export, numbers[place])?;
    }
    Ok(members)
}

/// An argument is a value under the number of its name, if it is there and the number is new.
fn add_argument(
    context: &Context<'_>,
    state: &mut State<'_>,
    frame: &mut Frame,
    values: &mut AtomMap<DefinitionId>,
    arg: &(Text, ItemKind, u32),
    number: Atom,
) -> Result<(), ItemError>
    requires input { IsInput context.now.table.now context.now.modules }
    requires here { IsPoint context.now.table.now context.now.modules state.old frame.old }
    ensures takes { TakesTypes context.now.table.now context.now.modules (if_type arg.now.1)
        state.old frame.old state.new frame.new }
    ensures lacks { IfErr result (LacksRoom state.new) }
    ensures adds { OnOk result (AddsItem context.now.table.now context.now.modules (λ id. id)
        number arg.now.1 arg.now.2 state.old frame.old state.new values.old values.new) }
{
    let found = value_id(context, state, frame, arg.1, arg.2)?;
    if let Some(item) = found {
        values.insert_first(number, item)?;
    }
    Ok(())
}

/// What a child is given: the items that are there, under the numbers of the names that they are given for. What isn't
/// there is passed over, and of a name that stands twice the first counts.
pub fn argument_values(
    context: &Context<'_>,
    state: &mut State<'_>,
    frame: &mut Frame,
    args: &[(Text, ItemKind, u32)],
    numbers: &[Atom],
) -> Result<AtomMap<DefinitionId>, ItemError>
    requires input { IsInput context.now.table.now context.now.modules }
    requires here { IsPoint context.now.table.now context.now.modules state.old frame.old }
    requires numbered { AreNumbersOf state.old.names.now.texts (map argument_name args.now) numbers.now }
    ensures takes { TakesTypes context.now.table.now context.now.modules (types_among args.now)
        state.old frame.old state.new frame.new }
    ensures lacks { IfErr result (LacksRoom state.new) }
    ensures values { (now : Moment)
        → PointStands context.now.table.now context.now.modules state.old frame.old now
        → IfOk result (λ values. SameNamed state.old.names.now.texts
        (Stands context.now.modules (tables_of state.new)) values
        (filter_map (argument_value context.now.table.now now.scope) (map argument_of args.now))) }
{
    let mut values = AtomMap::new(context.alloc, context.seed);
    for (place, arg) in args.iter().enumerate() {
        add_argument(context, state, frame, &mut values, arg, numbers[place])?;
    }
    Ok(values)
}
