//! What component instances of the host export.

ghost use Rattle.std.specs.Prelude.{◌≡◌, ◌<◌, ℕ, List, Some, length, slice_get};
ghost use Rattle.pc_types.specs.declared.parsed.TypeTable.{TypeTable};
ghost use Rattle.pc_spec_reading.specs.Value.{Value};
ghost use Rattle.pc_inline_names.specs.Numbers.{IsNumber};
ghost use Rattle.pc_inline_state.specs.Adds.{Adds};
ghost use Rattle.pc_inline_state.specs.Points.{IsInput, IsPoint};
ghost use Rattle.pc_inline_state.specs.Stands.{DefinitionStands};
ghost use Rattle.pc_inline_state.specs.Tables.{Keeps, tables_of};
ghost use Rattle.pc_inline_state.specs.Trails.{Trails};
ghost use Rattle.pc_inline_state.specs.declared.definition.Definition.TheVariants as definition;
ghost use Rattle.pc_inline_items.specs.Aliases.{HostAlias, HostMemberAlias};

use pc_entity::Atom;
use pc_inline_hosts::{HostMember, host_export};
use pc_inline_paths::PathId;
use pc_inline_state::{Context, Frame, ItemError, ItemFault, State};
use pc_parsed::ItemKind;
use pc_types::{TypeComponentInstanceIndex, Unsupported};

/// What the host has one name further than `parent` is an item now, if it is of the kind. A type adds nothing.
fn add_member(
    state: &mut State<'_>,
    frame: &mut Frame,
    kind: ItemKind,
    parent: PathId,
    number: Atom,
    member: HostMember,
) -> Result<(), ItemError>
    requires held { parent.0 < length state.old.paths.held }
    requires named { number.0 < length state.old.paths.names }
    ensures keeps { Keeps (tables_of state.old) (tables_of state.new) }
    ensures adds { (t : TypeTable) → Adds t 4 (tables_of state.old) (tables_of state.new) }
    ensures resources { state.new.types.resources ≡ state.old.types.resources }
    ensures changes { frame.new.changes ≡ frame.old.changes }
    ensures same { frame.new.component_instance ≡ frame.old.component_instance }
    ensures follows { (name : List ℕ) → slice_get state.old.paths.names number.0 ≡ Some name
        → HostMemberAlias kind parent name member state.old frame.old state.new frame.new result }
{
    let path = state.path_to_member(parent, number)?;
    let Some(definition) = member.definition(path) else {
        return Err(ItemError::Fault(ItemFault::Unsupported(Unsupported::ComponentImport)));
    };
    if !definition.is_of_kind(kind) {
        return Err(ItemError::Fault(ItemFault::Invalid));
    }
    let id = state.push_definition(definition)?;
    frame.push_item(kind, id)?;
    Ok(())
}

/// An item that a component instance of the host exports, by the number of its name.
pub(crate) fn alias_host(
    context: &Context<'_>,
    state: &mut State<'_>,
    frame: &mut Frame,
    kind: ItemKind,
    path: PathId,
    ty: TypeComponentInstanceIndex,
    entry: u32,
    number: Atom,
) -> Result<(), ItemError>
    requires input { IsInput context.now.table.now context.now.modules }
    requires here { IsPoint context.now.table.now context.now.modules state.old frame.old }
    requires stands { (v : Value) × DefinitionStands context.now.modules (tables_of state.old)
        (definition.HostInstance path ty entry) v }
    requires named { number.0 < length state.old.names.now.texts }
    ensures keeps { Keeps (tables_of state.old) (tables_of state.new) }
    ensures adds { Adds context.now.table.now 4 (tables_of state.old) (tables_of state.new) }
    ensures trail { Trails frame.old.changes state.old.types.resources frame.new.changes state.new.types.resources }
    ensures same { frame.new.component_instance ≡ frame.old.component_instance }
    ensures follows { (name : List ℕ) → IsNumber state.old.names.now.texts number name
        → HostAlias context.now.table.now context.now.modules kind path ty entry name
        state.old frame.old state.new frame.new result }
{
    match host_export(context, state, ty, entry, number) {
        Some(member) => add_member(state, frame, kind, path, number, member),
        None => Err(ItemError::Fault(ItemFault::Invalid)),
    }
}
