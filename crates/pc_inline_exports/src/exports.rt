//! The exports of the root.

ghost use Rattle.std.specs.Prelude.{◌≡◌, ◌<◌, [], map, true, None, IfOk};
ghost use Rattle.pc_entity.specs.Lists.{value_of};
ghost use Rattle.pc_types.specs.Names.{distinct_names};
ghost use Rattle.pc_parsed.specs.declared.payload.ItemKind.TheVariants as kind;
ghost use Rattle.pc_spec_reading.specs.Nodes.{extern_data};
ghost use Rattle.pc_spec_reading.specs.Scope.{Scope};
ghost use Rattle.pc_spec_reading.specs.World.{World};
ghost use Rattle.pc_inline_state.specs.Named.{export_name};
ghost use Rattle.pc_inline_state.specs.Points.{IsInput};
ghost use Rattle.pc_inline_state.specs.Worlds.{HasNoExports};
ghost use Rattle.pc_inline_exports.specs.Exporting.{ExportsAll, MakesExports, RootStands};
ghost use Rattle.pc_inline_exports.specs.OneExport.{ExportsOne, FindsExport, IsRoot, item_definition};
ghost use Rattle.pc_inline_exports.specs.Reaching.{IsReachable};

use crate::build::reach_node;
use crate::count::count_exports;
use crate::part::Found;
use pc_entity::{NoMemory, TryClone};
use pc_inline_state::{Context, Definition, Frame, ItemError, State, error_at};
use pc_parsed::{ExternName, ItemKind};
use pc_types::{ComponentExternData, Error, Place};
use std::alloc::Global;

/// What a name says of itself.
fn extern_data(alloc: Global, name: &ExternName) -> Result<ComponentExternData, NoMemory>
    ensures { IfOk result (λ said. said ≡ extern_data name.now) }
{
    Ok(ComponentExternData {
        implements: name.implements.try_clone(alloc)?,
        external_id: name.external_id.try_clone(alloc)?,
    })
}

/// The definition of an item of a component instance, but a type.
pub(crate) fn item_definition(
    state: &State<'_>,
    frame: &Frame,
    kind: ItemKind,
    index: u32,
) -> Option<Definition>
    ensures { result ≡ item_definition state.now frame.now kind index }
{
    match frame.item(kind, index) {
        Some(id) => match state.definitions.get(id) {
            Some(definition) => Some(*definition),
            None => None,
        },
        None => None,
    }
}

/// A type that is exported, if its number is held: it is converted.
fn exported_type(
    context: &Context<'_>,
    state: &mut State<'_>,
    frame: &mut Frame,
    n: u32,
) -> Result<Option<Definition>, ItemError>
    requires input { IsInput context.now.table.now context.now.modules }
    requires root { IsRoot context.now.table.now context.now.modules state.old frame.old }
    ensures { FindsExport context.now.table.now context.now.modules kind.Type_ n
        state.old frame.old state.new frame.new result }
{
    if context.table.entry(n).is_none() {
        return Ok(None);
    }
    let ty = context.entry_type(state, &mut frame.converted, n)?;
    Ok(Some(Definition::Type_(ty)))
}

/// What a kind and an index name in the root, if it is there.
fn exported(
    context: &Context<'_>,
    state: &mut State<'_>,
    frame: &mut Frame,
    kind: ItemKind,
    index: u32,
) -> Result<Option<Definition>, ItemError>
    requires input { IsInput context.now.table.now context.now.modules }
    requires root { IsRoot context.now.table.now context.now.modules state.old frame.old }
    ensures { FindsExport context.now.table.now context.now.modules kind index
        state.old frame.old state.new frame.new result }
{
    match kind {
        ItemKind::Type_ => exported_type(context, state, frame, index),
        _ => Ok(item_definition(state, frame, kind, index)),
    }
}

/// What the root exports under a name, with what the name says of itself.
fn named(alloc: Global, name: &ExternName, definition: Definition) -> Result<Found, NoMemory>
    ensures name { IfOk result (λ found. found.name ≡ name.now.name) }
    ensures said { IfOk result (λ found. found.data_ ≡ extern_data name.now) }
    ensures definition { IfOk result (λ found. found.definition ≡ definition) }
{
    Ok(Found {
        name: name.name.share()?,
        data_: extern_data(alloc, name)?,
        definition,
    })
}

/// One export of the root becomes an item of the graph, under its name. A refusal has the number of the export.
fn export_node(
    context: &Context<'_>,
    state: &mut State<'_>,
    name: &ExternName,
    definition: Definition,
    number: u64,
) -> Result<(), Error>
    requires input { IsInput context.now.table.now context.now.modules }
    requires is { IsReachable context.now.table.now context.now.modules state.old definition }
    requires absent { value_of name.now.name state.old.graph.exports ≡ None }
    ensures { ExportsOne context.now.table.now context.now.modules name.now number definition
        state.old state.new result }
{
    let found = named(context.alloc, name, definition)?;
    let item = match reach_node(context, state, found) {
        Ok(item) => item,
        Err(error) => return Err(error_at(error, Place::Export(number))),
    };
    let data_ = extern_data(context.alloc, name)?;
    let name = name.name.share()?;
    state.graph.push_export(name, item, data_)?;
    Ok(())
}

/// The exports of the root become items of the graph, in order. One that names nothing is passed over, and the number
/// of an export counts those that are there.
fn make_exports(
    context: &Context<'_>,
    state: &mut State<'_>,
    frame: &mut Frame,
    exports: &[(ExternName, ItemKind, u32)],
) -> Result<(), Error>
    requires input { IsInput context.now.table.now context.now.modules }
    requires root { (s : Scope) × (w : World)
        × RootStands context.now.table.now context.now.modules state.old frame.old s w [] }
    requires unexported { HasNoExports state.old.graph }
    requires distinct { distinct_names (map export_name exports.now) ≡ true }
    ensures { MakesExports context.now.table.now context.now.modules exports.now 0
        state.old frame.old state.new frame.new result }
{
    let mut number: u64 = 0;
    for export in exports {
        let found = match exported(context, state, frame, export.1, export.2) {
            Ok(found) => found,
            Err(error) => return Err(error_at(error, Place::Export(number))),
        };
        if let Some(definition) = found {
            export_node(context, state, &export.0, definition, number)?;
            number += 1;
        }
    }
    Ok(())
}

/// The exports of the root. They are counted before a node is made, each node as eight in the total: what is refused
/// among them, and that their nodes are too many, is answered with nothing done.
pub fn export_all(
    context: &Context<'_>,
    state: &mut State<'_>,
    frame: &mut Frame,
    exports: &[(ExternName, ItemKind, u32)],
    total: u32,
) -> Result<(), Error>
    requires input { IsInput context.now.table.now context.now.modules }
    requires root { (s : Scope) × (w : World)
        × RootStands context.now.table.now context.now.modules state.old frame.old s w [] }
    requires unexported { HasNoExports state.old.graph }
    requires distinct { distinct_names (map export_name exports.now) ≡ true }
    requires below { total < 4294967295 }
    ensures { ExportsAll context.now.table.now context.now.modules exports.now total
        state.old frame.old state.new frame.new result }
{
    count_exports(context, state, frame, exports, total)?;
    make_exports(context, state, frame, exports)
}
