//! What a host instance has at a place, and under a name.

ghost use Rattle.std.specs.Prelude.{◌≡◌, ◌<◌, ℕ, List, None, length, option_map, slice_get};
ghost use Rattle.pc_types.specs.declared.module_record.ModuleRecord.{ModuleRecord};
ghost use Rattle.pc_types.specs.Table.{table_fault};
ghost use Rattle.pc_types.specs.TypeTree.{TypeTree};
ghost use Rattle.pc_types_walk.specs.Walks.{export_at};
ghost use Rattle.pc_spec_reading.specs.Member.{field_under};
ghost use Rattle.pc_spec_reading.specs.Types.{instance_fields};
ghost use Rattle.pc_inline_names.specs.Numbers.{IsNumber};
ghost use Rattle.pc_inline_state.specs.Frames.{Both};
ghost use Rattle.pc_inline_state.specs.Tables.{tables_of};
ghost use Rattle.pc_inline_hosts.specs.HostMembers.{entry_of, export_type, member_at};
ghost use Rattle.pc_inline_hosts.specs.HostStands.{HostFieldStands, HostMemberStands, IsInstanceType, field_at};

use crate::member::{HostMember, entry_of, member_of};
use pc_entity::{Atom, Text};
use pc_inline_state::{Context, State};
use pc_types::{DeclType, TypeComponentInstanceIndex, TypeDef, TypeTable};
use pc_types_builder::ComponentTypesBuilder;

/// The entry that an export of an instance entry names, by the place of the export.
fn export_entry(table: &TypeTable, entry: u32, place: usize) -> Option<u32>
    ensures { result ≡ option_map (λ e. entry_of e.1) (export_at table.now entry place) }
{
    match table.entry(entry) {
        Some(DeclType::Instance { exports }) => match exports.as_slice().get(place) {
            Some(export) => Some(entry_of(export.1)),
            None => None,
        },
        _ => None,
    }
}

/// The type of an export, by its place.
fn type_at(exports: &[(Text, TypeDef)], place: usize) -> Option<TypeDef>
    ensures { result ≡ option_map (λ e. e.1) (slice_get exports.now place) }
{
    match exports.get(place) {
        Some(export) => Some(export.1),
        None => None,
    }
}

/// The type of an export of an instance type, by the place of the export.
fn export_type(
    types: &ComponentTypesBuilder,
    ty: TypeComponentInstanceIndex,
    place: usize,
) -> Option<TypeDef>
    requires held { ty.0 < length types.now.instances }
    ensures { result ≡ export_type types.now ty place }
{
    type_at(types.instance(ty).exports.as_slice(), place)
}

/// What an instance has at a place.
fn member_at(
    table: &TypeTable,
    types: &ComponentTypesBuilder,
    ty: TypeComponentInstanceIndex,
    entry: u32,
    place: usize,
) -> Option<HostMember>
    requires held { ty.0 < length types.now.instances }
    ensures { result ≡ member_at table.now types.now ty entry place }
{
    let Some(named) = export_entry(table, entry, place) else {
        return None;
    };
    match export_type(types, ty, place) {
        Some(export) => Some(member_of(export, named)),
        None => None,
    }
}

/// What a host instance has at a place, by its type; nothing past the end.
pub fn host_member(
    context: &Context<'_>,
    state: &State<'_>,
    ty: TypeComponentInstanceIndex,
    entry: u32,
    place: usize,
) -> Option<HostMember>
    requires sound { table_fault context.now.table.now ≡ None }
    requires table { state.now.table.now ≡ context.now.table.now }
    requires held { ty.0 < length state.now.types.instances }
    ensures { (ms : List ModuleRecord) (tree : TypeTree)
        → IsInstanceType ms (tables_of state.now) ty entry tree
        → Both (HostFieldStands ms (tables_of state.now)) result (field_at tree place) }
{
    member_at(context.table, &state.types, ty, entry, place)
}

/// What a host instance has under the name of a number, by its type: of a name that stands twice the first.
pub fn host_export(
    context: &Context<'_>,
    state: &State<'_>,
    ty: TypeComponentInstanceIndex,
    entry: u32,
    number: Atom,
) -> Option<HostMember>
    requires sound { table_fault context.now.table.now ≡ None }
    requires named { state.now.names.now.table ≡ context.now.table.now }
    requires table { state.now.table.now ≡ context.now.table.now }
    requires held { ty.0 < length state.now.types.instances }
    ensures { (name : List ℕ) → IsNumber state.now.names.now.texts number name
        → (ms : List ModuleRecord) (tree : TypeTree) → IsInstanceType ms (tables_of state.now) ty entry tree
        → Both (HostMemberStands ms (tables_of state.now)) result (field_under name (instance_fields tree)) }
{
    match state.names.type_export(entry, number) {
        Some(place) => member_at(context.table, &state.types, ty, entry, place),
        None => None,
    }
}
