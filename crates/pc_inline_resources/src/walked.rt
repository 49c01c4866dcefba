//! What stands at the places of a walk.
//!
//! A walk of the type table finds the resources of a type, each at the end of a path. Here the same paths are followed
//! from a value: a place costs the look-up of one number, that of the name of its export.

ghost use Rattle.std.specs.Prelude.{◌≡◌, ℕ, List, Option, Some, length, slice_get, option_and_then, IfOk, OnOk};
ghost use Rattle.std.specs.List.{AllZip};
ghost use Rattle.pc_types.specs.declared.parsed.Entity.{Entity};
ghost use Rattle.pc_types.specs.TypeTree.{Path, TypeTree};
ghost use Rattle.pc_types_lists.specs.Known.{resource_of};
ghost use Rattle.pc_types_walk.specs.Walks.{AreNamed, export_at};
ghost use Rattle.pc_spec_reading.specs.Member.{resource_at, value_in};
ghost use Rattle.pc_spec_reading.specs.Resource.{newly, resource_paths};
ghost use Rattle.pc_spec_reading.specs.Scope.{Scope};
ghost use Rattle.pc_spec_reading.specs.Value.{Value, host_instance, instance_value};
ghost use Rattle.pc_inline_names.specs.Numbers.{IsNumber};
ghost use Rattle.pc_inline_state.specs.KnowsSame.{KnowsSame};
ghost use Rattle.pc_inline_state.specs.Points.{IsInput, IsSoundState};
ghost use Rattle.pc_inline_state.specs.Ready.{IsReady};
ghost use Rattle.pc_inline_state.specs.Tables.{tables_of};
ghost use Rattle.pc_inline_hosts.specs.HostStands.{IsInstanceType};
ghost use Rattle.pc_inline_resources.specs.Walked.{AreItems, InstanceIs, IsMet, ItemIs, ParentIs, StartIs};
ghost use Rattle.pc_inline_resources.specs.Walked.{definition_resource, exported_item, found_item, handled};
ghost use Rattle.pc_inline_resources.specs.Walked.{instance_in};
ghost use Rattle.pc_inline_resources.specs.Walked.{instance_of, item_resource, met_all, met_with, place_resource};
ghost use Rattle.pc_inline_resources.specs.Walked.{start_resource, type_resource};

use pc_entity::{Atom, NoMemory, ResourceIndex, Seq};
use pc_inline_hosts::{HostMember, host_export};
use pc_inline_names::AtomMap;
use pc_inline_state::{Context, Definition, DefinitionId, ExportsId, Member, State};
use pc_types::{
    Entity, TypeComponentInstanceIndex, TypeDef, TypeKind, TypeResourceTable,
    TypeResourceTableIndex,
};
use pc_types_builder::ComponentTypesBuilder;
use pc_types_walk::{Found, Place};
use std::alloc::Global;

/// What stands at a place: nothing, a definition, or what a host instance has there.
#[derive(Clone, Copy)]
pub(crate) enum Item {
    Nothing,
    Defined(DefinitionId),
    Host(HostMember),
}

/// An instance by what it exports, or by its type where the host gives it; or nothing.
#[derive(Clone, Copy)]
pub(crate) enum InstanceOf {
    Nothing,
    Exports(ExportsId),
    Host {
        ty: TypeComponentInstanceIndex,
        entry: u32,
    },
}

/// Where a walk starts: at a definition, or at what an instance exports.
#[derive(Clone, Copy)]
pub(crate) enum Start<'s> {
    Value(DefinitionId),
    Exports(&'s AtomMap<Member>),
}

/// A number that a walk came to, and the resource that stands there, if one does that is known.
#[derive(Clone, Copy)]
pub(crate) struct Met {
    pub number: u32,
    pub resource: Option<ResourceIndex>,
}

/// What a host instance has under a name, by the number of the name.
fn host_item(
    context: &Context<'_>,
    state: &State<'_>,
    ty: TypeComponentInstanceIndex,
    entry: u32,
    number: Atom,
) -> Item
    requires input { IsInput context.now.table.now context.now.modules }
    requires sound { IsSoundState context.now.table.now context.now.modules state.now }
    requires typed { (tree : TypeTree)
        × IsInstanceType context.now.modules (tables_of state.now) ty entry tree }
    ensures { (name : List ℕ) → IsNumber state.now.names.now.texts number name → (tree : TypeTree) (path : Path)
        → IsInstanceType context.now.modules (tables_of state.now) ty entry tree
        → ItemIs context.now.modules (tables_of state.now) result
        (value_in name (instance_value (host_instance path tree))) }
{
    match host_export(context, state, ty, entry, number) {
        Some(member) => Item::Host(member),
        None => Item::Nothing,
    }
}

/// A definition that was found, as an item.
fn found_item(found: Option<DefinitionId>) -> Item
    ensures { result ≡ found_item found }
{
    match found {
        Some(id) => Item::Defined(id),
        None => Item::Nothing,
    }
}

/// What an instance exports under a name, by the number of the name.
fn exported_item(exports: &AtomMap<Member>, number: Atom) -> Item
    ensures { result ≡ exported_item exports.now number }
{
    match exports.get(number) {
        Some(member) => Item::Defined(member.item),
        None => Item::Nothing,
    }
}

/// The instance that a definition is, if it is one.
fn instance_at(state: &State<'_>, id: DefinitionId) -> InstanceOf
    ensures { result ≡ instance_in (slice_get state.now.definitions id.0) }
{
    match state.definitions.get(id) {
        Some(Definition::Instance { exports, .. }) => InstanceOf::Exports(*exports),
        Some(Definition::HostInstance { ty, entry, .. }) => InstanceOf::Host {
            ty: *ty,
            entry: *entry,
        },
        _ => InstanceOf::Nothing,
    }
}

/// The instance that an item is, if it is one.
fn instance_of(state: &State<'_>, item: Item) -> InstanceOf
    ensures { result ≡ instance_of state.now.definitions item }
{
    match item {
        Item::Defined(id) => instance_at(state, id),
        Item::Host(HostMember::Instance { ty, entry }) => InstanceOf::Host { ty, entry },
        _ => InstanceOf::Nothing,
    }
}

/// What an instance has under a name, by the number of the name.
fn instance_item(
    context: &Context<'_>,
    state: &State<'_>,
    instance: InstanceOf,
    number: Atom,
) -> Item
    requires input { IsInput context.now.table.now context.now.modules }
    requires sound { IsSoundState context.now.table.now context.now.modules state.now }
    requires is { (v : Option Value) × InstanceIs context.now.modules (tables_of state.now) instance v }
    ensures { (name : List ℕ) → IsNumber state.now.names.now.texts number name
        → (v : Option Value) → InstanceIs context.now.modules (tables_of state.now) instance v
        → ItemIs context.now.modules (tables_of state.now) result (option_and_then (value_in name) v) }
{
    match instance {
        InstanceOf::Nothing => Item::Nothing,
        InstanceOf::Exports(id) => found_item(state.member(id, number)),
        InstanceOf::Host { ty, entry } => host_item(context, state, ty, entry, number),
    }
}

/// What stands one name further than an item, by the number of the name.
fn member_item(context: &Context<'_>, state: &State<'_>, item: Item, number: Atom) -> Item
    requires input { IsInput context.now.table.now context.now.modules }
    requires sound { IsSoundState context.now.table.now context.now.modules state.now }
    requires is { (v : Option Value) × ItemIs context.now.modules (tables_of state.now) item v }
    ensures { (name : List ℕ) → IsNumber state.now.names.now.texts number name
        → (v : Option Value) → ItemIs context.now.modules (tables_of state.now) item v
        → ItemIs context.now.modules (tables_of state.now) result (option_and_then (value_in name) v) }
{
    instance_item(context, state, instance_of(state, item), number)
}

/// What stands one name further than the start, by the number of the name.
fn first_item(context: &Context<'_>, state: &State<'_>, start: Start<'_>, number: Atom) -> Item
    requires input { IsInput context.now.table.now context.now.modules }
    requires sound { IsSoundState context.now.table.now context.now.modules state.now }
    requires is { (v : Value) × StartIs context.now.modules (tables_of state.now) start v }
    ensures { (name : List ℕ) → IsNumber state.now.names.now.texts number name
        → (v : Value) → StartIs context.now.modules (tables_of state.now) start.entry v
        → ItemIs context.now.modules (tables_of state.now) result (value_in name v) }
{
    match start {
        Start::Value(id) => instance_item(context, state, instance_at(state, id), number),
        Start::Exports(exports) => exported_item(exports, number),
    }
}

/// What stands at a place of a walk, where what stands at the places before it is known.
fn place_item(
    context: &Context<'_>,
    state: &State<'_>,
    start: Start<'_>,
    items: &[Item],
    place: &Place,
) -> Item
    requires input { IsInput context.now.table.now context.now.modules }
    requires sound { IsSoundState context.now.table.now context.now.modules state.now }
    requires parent { (v : Option Value)
        × ParentIs context.now.modules (tables_of state.now) start items.now place.now.parent v }
    ensures { (v : Option Value) (x : List ℕ × Entity)
        → ParentIs context.now.modules (tables_of state.now) start.entry items.now place.now.parent v
        → export_at context.now.table.now place.now.entry place.now.export ≡ Some x
        → ItemIs context.now.modules (tables_of state.now) result (option_and_then (value_in x.0) v) }
{
    let Some(number) = state.names.export_number(place.entry, place.export) else {
        return Item::Nothing;
    };
    if place.parent == 0 {
        return first_item(context, state, start, number);
    }
    match items.get(place.parent - 1) {
        Some(item) => member_item(context, state, *item, number),
        None => Item::Nothing,
    }
}

/// What stands at each place of a walk.
fn items_at(
    context: &Context<'_>,
    state: &State<'_>,
    start: Start<'_>,
    places: &[Place],
) -> Result<Seq<Item>, NoMemory>
    requires input { IsInput context.now.table.now context.now.modules }
    requires sound { IsSoundState context.now.table.now context.now.modules state.now }
    requires start { (v : Value) × StartIs context.now.modules (tables_of state.now) start v }
    requires named { (names : List (List (List ℕ))) × AreNamed context.now.table.now places.now names }
    ensures { IfOk result (λ items. (v : Value)
        → StartIs context.now.modules (tables_of state.now) start.entry v
        → (names : List (List (List ℕ))) → AreNamed context.now.table.now places.now names
        → AreItems context.now.modules (tables_of state.now) names items v × (length items ≡ length places.now)) }
{
    let mut items = Seq::with_capacity(context.alloc, places.len())?;
    for place in places {
        let item = place_item(context, state, start, items.as_slice(), place);
        items.push(item)?;
    }
    Ok(items)
}

/// The resource of handles, if they are those of one that is known.
fn handled(handles: &TypeResourceTable) -> Option<ResourceIndex>
    ensures { result ≡ handled handles.now }
{
    match handles {
        TypeResourceTable::Concrete { ty, .. } => Some(*ty),
        TypeResourceTable::Abstract(_) => None,
    }
}

/// The resource of the handles of a number, if they are those of one that is known.
fn table_resource(types: &ComponentTypesBuilder, i: TypeResourceTableIndex) -> Option<ResourceIndex>
    ensures { result ≡ option_and_then handled (slice_get types.now.resource_tables i.0) }
{
    if (i.0 as usize) < types.held(TypeKind::ResourceTable) {
        return handled(types.resource_table(i));
    }
    None
}

/// The resource that a type is, if it is one that is known.
fn type_resource(state: &State<'_>, d: TypeDef) -> Option<ResourceIndex>
    ensures { result ≡ type_resource state.now.types d }
{
    match d {
        TypeDef::Resource(i) => table_resource(&state.types, i),
        _ => None,
    }
}

/// The resource that a definition is, if it is one that is known.
fn definition_resource(state: &State<'_>, id: DefinitionId) -> Option<ResourceIndex>
    ensures { result ≡ definition_resource state.now.types (slice_get state.now.definitions id.0) }
{
    match state.definitions.get(id) {
        Some(Definition::Type_(d)) => type_resource(state, *d),
        _ => None,
    }
}

/// The resource that an item is, if it is one that is known.
fn item_resource(state: &State<'_>, item: Item) -> Option<ResourceIndex>
    ensures { result ≡ item_resource state.now.types state.now.definitions (Some item) }
{
    match item {
        Item::Defined(id) => definition_resource(state, id),
        Item::Host(HostMember::Type_(d)) => type_resource(state, d),
        _ => None,
    }
}

/// The resource that a walk starts at, if it starts at one that is known.
fn start_resource(state: &State<'_>, start: Start<'_>) -> Option<ResourceIndex>
    ensures { result ≡ start_resource state.now.types state.now.definitions start.entry }
{
    match start {
        Start::Value(id) => definition_resource(state, id),
        Start::Exports(_) => None,
    }
}

/// The resource at a place, if one that is known stands there.
fn place_resource(
    state: &State<'_>,
    start: Start<'_>,
    items: &[Item],
    place: usize,
) -> Option<ResourceIndex>
    ensures { result ≡ place_resource state.now.types state.now.definitions start.entry items.now place }
{
    if place == 0 {
        return start_resource(state, start);
    }
    match items.get(place - 1) {
        Some(item) => item_resource(state, *item),
        None => None,
    }
}

/// A number that a walk came to is met, with the resource at its place, unless it is known already.
fn meet(
    state: &State<'_>,
    start: Start<'_>,
    items: &[Item],
    found: Found,
    met: &mut Seq<Met>,
) -> Result<(), NoMemory>
    ensures { OnOk result (met.new ≡ met_with (resource_of state.now.types.resources.known found.number) found.number
        (place_resource state.now.types state.now.definitions start.entry items.now found.place) met.old) }
{
    match state.types.resources().lookup(found.number) {
        Some(_) => Ok(()),
        None => {
            let resource = place_resource(state, start, items, found.place);
            met.push(Met {
                number: found.number,
                resource,
            })
        }
    }
}

/// The numbers that a walk came to and that aren't known, each with the resource at its place.
fn meet_all(
    alloc: Global,
    state: &State<'_>,
    start: Start<'_>,
    items: &[Item],
    found: &[Found],
) -> Result<Seq<Met>, NoMemory>
    ensures { IfOk result (λ met. met
        ≡ met_all state.now.types state.now.definitions start.entry items.now found.now) }
{
    let mut met = Seq::new(alloc);
    for one in found {
        meet(state, start, items, *one, &mut met)?;
    }
    Ok(met)
}

/// The numbers that a type leads to and that aren't known, each with the resource at the end of its path.
pub(crate) fn new_resources(
    context: &Context<'_>,
    state: &State<'_>,
    start: Start<'_>,
    entity: Entity,
) -> Result<Seq<Met>, NoMemory>
    requires input { IsInput context.now.table.now context.now.modules }
    requires ready { IsReady context.now }
    requires sound { IsSoundState context.now.table.now context.now.modules state.now }
    requires start { (v : Value) × StartIs context.now.modules (tables_of state.now) start v }
    ensures { IfOk result (λ met. (s : Scope) → KnowsSame state.now.graph state.now.types.resources s
        → (v : Value) → StartIs context.now.modules (tables_of state.now) start.entry v
        → AllZip (IsMet state.now.graph (λ names. resource_at names v)) met
        (newly s.known (resource_paths context.now.table.now entity))) }
{
    let walk = context.leads.walk(context.alloc, context.table, entity)?;
    let items = items_at(context, state, start, walk.places.as_slice())?;
    let met = meet_all(
        context.alloc,
        state,
        start,
        items.as_slice(),
        walk.found.as_slice(),
    )?;
    Ok(met)
}
