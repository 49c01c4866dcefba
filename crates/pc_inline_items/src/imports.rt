//! An import of a component instance takes its argument.

ghost use Rattle.std.specs.Prelude.{◌≡◌, ◌<◌, length};
ghost use Rattle.pc_parsed.specs.declared.payload.ExternName.{ExternName};
ghost use Rattle.pc_spec_reading.specs.Item.{import_item};
ghost use Rattle.pc_spec_reading.specs.Types.{is_plain_type, names_entry};
ghost use Rattle.pc_inline_names.specs.Numbers.{IsNumber};
ghost use Rattle.pc_inline_state.specs.Adds.{Adds};
ghost use Rattle.pc_inline_state.specs.Points.{IsInput, IsPoint, StepsItem};
ghost use Rattle.pc_inline_state.specs.Ready.{IsReady};
ghost use Rattle.pc_inline_state.specs.Tables.{Keeps, tables_of};
ghost use Rattle.pc_inline_state.specs.Trails.{Trails};
ghost use Rattle.pc_inline_items.specs.Kinds.{kind_of};

use pc_entity::Atom;
use pc_inline_resources::take_resources;
use pc_inline_state::{
    Context, Frame, ItemError, ItemFault, State, is_func_type, is_instance_type, is_module_type,
};
use pc_parsed::ItemKind;
use pc_types::{Entity, TypeTable};

/// The kind of item that an import takes.
fn kind_of(entity: Entity) -> ItemKind
    ensures { result ≡ kind_of entity }
{
    match entity {
        Entity::Func(_) => ItemKind::Func,
        Entity::Instance(_) => ItemKind::Instance,
        Entity::Component(_) => ItemKind::Component,
        Entity::Module(_) => ItemKind::Module,
        Entity::Type_(_) => ItemKind::Type_,
        Entity::Value => ItemKind::Value,
    }
}

/// Whether an entity names an entry of its kind. A type may be any entry.
fn names_entry(table: &TypeTable, entity: Entity) -> bool
    ensures { result ≡ names_entry table.now entity }
{
    match entity {
        Entity::Func(ty) => is_func_type(table, ty),
        Entity::Instance(ty) => is_instance_type(table, ty),
        Entity::Component(ty) => table.entry(ty).is_some_and(|entry| entry.is_component()),
        Entity::Module(ty) => is_module_type(table, ty),
        Entity::Type_(ty) => table.entry(ty).is_some(),
        Entity::Value => false,
    }
}

/// Whether an entity is a type that is no resource, for which nothing need be given.
fn is_plain_type(table: &TypeTable, entity: Entity) -> bool
    ensures { result ≡ is_plain_type table.now entity }
{
    match entity {
        Entity::Type_(ty) => !table.entry(ty).is_some_and(|entry| entry.is_resource()),
        _ => false,
    }
}

/// An import takes the argument under the number of its name, whose resources become known. One of a plain type takes
/// none.
pub(crate) fn step_import(
    context: &Context<'_>,
    state: &mut State<'_>,
    frame: &mut Frame,
    number: Atom,
    entity: Entity,
) -> Result<(), ItemError>
    requires input { IsInput context.now.table.now context.now.modules }
    requires ready { IsReady context.now }
    requires here { IsPoint context.now.table.now context.now.modules state.old frame.old }
    requires named { number.0 < length state.old.names.now.texts }
    ensures keeps { Keeps (tables_of state.old) (tables_of state.new) }
    ensures adds { Adds context.now.table.now 4 (tables_of state.old) (tables_of state.new) }
    ensures trail { Trails frame.old.changes state.old.types.resources frame.new.changes state.new.types.resources }
    ensures same { frame.new.component_instance ≡ frame.old.component_instance }
    ensures steps { (name : ExternName) → IsNumber state.old.names.now.texts number name.name
        → StepsItem context.now.table.now context.now.modules (import_item name entity)
        state.old frame.old state.new frame.new result }
{
    if !names_entry(context.table, entity) {
        return Err(ItemError::Fault(ItemFault::BadType));
    }
    let Some(id) = frame.arguments.get(number).copied() else {
        if is_plain_type(context.table, entity) {
            return Ok(());
        }
        return Err(ItemError::Fault(ItemFault::Invalid));
    };
    let kind = kind_of(entity);
    if !state.is_of_kind(id, kind) {
        return Err(ItemError::Fault(ItemFault::Invalid));
    }
    take_resources(context, state, frame, entity, id)?;
    frame.push_item(kind, id)?;
    Ok(())
}
