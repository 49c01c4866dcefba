//! An import comes into the graph, and behind it the resources that it leads to.

ghost use Rattle.std.specs.Prelude.{◌≡◌, ◌<◌, ◌+◌, ◌∷◌, [], List, ℕ, IfErr, IfOk, OnOk, Some, length, map};
ghost use Rattle.pc_types.specs.declared.parsed.Entity.{Entity};
ghost use Rattle.pc_types_walk.specs.Walks.{AreNamed, export_at};
ghost use Rattle.pc_inline_state.specs.AddsEach.{AddsEach, nowhere};
ghost use Rattle.pc_inline_state.specs.Points.{IsSoundState};
ghost use Rattle.pc_inline_state.specs.Refused.{LacksRoom};
ghost use Rattle.pc_inline_state.specs.Tables.{Keeps, tables_of};
ghost use Rattle.pc_inline_state.specs.TakesPath.{SoundWithPaths};
ghost use Rattle.pc_inline_imports.specs.Brings.{AllBelow, AllHeld, ArePaths, Brings, Gives, GoesFurther, in_brought};
ghost use Rattle.pc_inline_imports.specs.Brings.{in_given, path_at};

use crate::entity::{host_definition, import_of};
use crate::learn::Learnt;
use pc_entity::{ImportIndex, NoMemory};
use pc_inline_canon::use_host;
use pc_inline_paths::PathId;
use pc_inline_state::{Context, DefinitionId, ItemError, State};
use pc_parsed::ExternName;
use pc_types::Entity;
use pc_types_walk::{Found, Place};

/// The path of a place more, which goes one name further than an earlier one.
fn push_place(
    context: &Context<'_>,
    state: &mut State<'_>,
    paths: &mut Vec<PathId>,
    place: &Place,
) -> Result<(), NoMemory>
    requires sound { IsSoundState context.now.table.now context.now.modules state.old }
    requires there { (x : List ℕ × Entity)
        × (export_at context.now.table.now place.now.entry place.now.export ≡ Some x) }
    requires parent { place.now.parent < length paths.old.items }
    requires held { AllHeld paths.old.items state.old.paths.held }
    ensures further { OnOk result (GoesFurther context.now.table.now place.now state.old.paths.held paths.old.items
        state.new.paths.held paths.new.items) }
    ensures sound { OnOk result (SoundWithPaths state.old state.new) }
    ensures keeps { Keeps (tables_of state.old) (tables_of state.new) }
    ensures adds { AddsEach nowhere 0 0 (tables_of state.old) (tables_of state.new) }
    ensures rest { state.new ≡ record state.old { paths = state.new.paths; used = state.new.used } }
{
    match state.names.export_number(place.entry, place.export) {
        Some(number) => {
            let path = state.path_to_member(paths[place.parent], number)?;
            paths.push(path)?;
            Ok(())
        }
        None => unreachable!(),
    }
}

/// The paths of the places of a walk that starts at an import: that of the import itself, then one for each.
fn place_paths(
    context: &Context<'_>,
    state: &mut State<'_>,
    import: ImportIndex,
    places: &[Place],
) -> Result<Vec<PathId>, NoMemory>
    requires sound { IsSoundState context.now.table.now context.now.modules state.old }
    requires there { import.0 < length state.old.graph.import_types }
    requires named { (names : List (List (List ℕ))) × AreNamed context.now.table.now places.now names }
    ensures paths { IfOk result (λ ids. (names : List (List (List ℕ)))
        → AreNamed context.now.table.now places.now names → ArePaths import.0 names state.new.paths.held ids.items) }
    ensures count { IfOk result (λ ids. length ids.items ≡ length places.now + 1) }
    ensures sound { OnOk result (SoundWithPaths state.old state.new) }
    ensures keeps { Keeps (tables_of state.old) (tables_of state.new) }
    ensures adds { AddsEach nowhere 0 0 (tables_of state.old) (tables_of state.new) }
    ensures rest { state.new ≡ record state.old { paths = state.new.paths; used = state.new.used } }
{
    let mut paths = Vec::new(context.alloc);
    let first = state.path_to_import(import)?;
    paths.push(first)?;
    for place in places {
        push_place(context, state, &mut paths, place)?;
    }
    Ok(paths)
}

/// A resource comes into the graph, by the path of its place.
fn bring_one(
    context: &Context<'_>,
    state: &mut State<'_>,
    paths: &[PathId],
    found: &Found,
) -> Result<(), ItemError>
    requires sound { IsSoundState context.now.table.now context.now.modules state.old }
    requires undeclared { state.old.graph.resources ≡ [] }
    requires there { found.now.place < length paths.now }
    requires held { AllHeld paths.now state.old.paths.held }
    ensures keeps { Keeps (tables_of state.old) (tables_of state.new) }
    ensures adds { AddsEach (in_brought 1) 0 0 (tables_of state.old) (tables_of state.new) }
    ensures brings { OnOk result (Brings context.now.table.now context.now.modules
        (path_at paths.now state.old.paths.held found.now ∷ []) state.old state.new) }
    ensures err { IfErr result (LacksRoom state.new) }
{
    let host = use_host(context, state, paths[found.place])?;
    state.graph.push_imported_resource(host)?;
    Ok(())
}

/// Resources come into the graph, each by the path of its place.
fn bring_all(
    context: &Context<'_>,
    state: &mut State<'_>,
    paths: &[PathId],
    found: &[Found],
) -> Result<(), ItemError>
    requires sound { IsSoundState context.now.table.now context.now.modules state.old }
    requires undeclared { state.old.graph.resources ≡ [] }
    requires there { AllBelow (length paths.now) found.now }
    requires held { AllHeld paths.now state.old.paths.held }
    ensures keeps { Keeps (tables_of state.old) (tables_of state.new) }
    ensures adds { AddsEach (in_brought (length found.now)) 0 0 (tables_of state.old) (tables_of state.new) }
    ensures brings { OnOk result (Brings context.now.table.now context.now.modules
        (map (path_at paths.now state.old.paths.held) found.now) state.old state.new) }
    ensures err { IfErr result (LacksRoom state.new) }
{
    for one in found {
        bring_one(context, state, paths, one)?;
    }
    Ok(())
}

/// One import more, with the resources that it leads to, and what the host gives for it.
pub(crate) fn push_given(
    context: &Context<'_>,
    state: &mut State<'_>,
    name: &ExternName,
    entity: Entity,
    learnt: &Learnt,
) -> Result<DefinitionId, ItemError>
    requires sound { IsSoundState context.now.table.now context.now.modules state.old }
    requires undeclared { state.old.graph.resources ≡ [] }
    requires named { (names : List (List (List ℕ))) × AreNamed context.now.table.now learnt.now.places names
        × AllBelow (length names) learnt.now.found }
    ensures keeps { Keeps (tables_of state.old) (tables_of state.new) }
    ensures adds { AddsEach (in_given (length learnt.now.found)) 0 1 (tables_of state.old) (tables_of state.new) }
    ensures gives { IfOk result
        (Gives context.now.table.now context.now.modules name.now entity learnt.now state.old state.new) }
    ensures err { IfErr result (LacksRoom state.new) }
{
    let (text, import) = import_of(context.alloc, name, learnt.ty)?;
    let number = state.graph.push_import_type(text, import)?;
    let paths = place_paths(context, state, number, learnt.places.as_slice())?;
    let ids = paths.as_slice();
    bring_all(context, state, ids, learnt.found.as_slice())?;
    let definition = host_definition(ids[0], entity, learnt.ty);
    state.push_definition(definition)
}
