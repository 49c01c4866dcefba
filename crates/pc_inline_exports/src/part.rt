//! What an instance has at a place.

ghost use Rattle.std.specs.Prelude.{◌≡◌, IfOk, OnOk};
ghost use Rattle.pc_inline_state.specs.declared.definition.Definition.TheVariants as definition;
ghost use Rattle.pc_inline_exports.specs.Building.{AddsPath, Finds, StillStands};
ghost use Rattle.pc_inline_exports.specs.Found.{made_part, nests};
ghost use Rattle.pc_inline_exports.specs.Reaching.{HasSomeParts};
ghost use Rattle.pc_inline_state.specs.Points.{IsInput, IsSoundState};
ghost use Rattle.pc_inline_state.specs.Tables.{tables_of};

use pc_entity::{NoMemory, Text, TryClone};
use pc_inline_hosts::{HostMember, host_member};
use pc_inline_paths::PathId;
use pc_inline_state::{Context, Definition, ExportsId, ItemError, ItemFault, State};
use pc_types::{ComponentExternData, TypeComponentInstanceIndex, Unsupported};

/// What an instance has at a place: its name, what the name says of itself, and what it is.
#[derive(Drop)]
pub struct Found {
    pub name: Text,
    pub data_: ComponentExternData,
    pub definition: Definition,
}

/// Whether this is an instance that is exported with what it exports itself. The unsafe intrinsics are refused whole.
pub(crate) fn nests(definition: Definition) -> bool
    ensures { result ≡ nests definition }
{
    matches!(
        definition,
        Definition::Instance { .. } | Definition::HostInstance { .. }
    )
}

/// What an instance that was made has at a place.
fn made_part(
    context: &Context<'_>,
    state: &State<'_>,
    exports: ExportsId,
    place: usize,
) -> Result<Option<Found>, NoMemory>
    ensures { IfOk result (λ found. found ≡ made_part state.now exports place) }
{
    let Some(members) = state.instances.get(exports) else {
        return Ok(None);
    };
    let Some((number, member)) = members.get_index(place) else {
        return Ok(None);
    };
    let Some(name) = state.names.text(number) else {
        return Ok(None);
    };
    let Some(definition) = state.definitions.get(member.item) else {
        return Ok(None);
    };
    Ok(Some(Found {
        name: name.share()?,
        data_: member.data_.try_clone(context.alloc)?,
        definition: *definition,
    }))
}

/// What a host instance has at a place, under its name in the type table. A component is refused.
fn host_part(
    context: &Context<'_>,
    state: &mut State<'_>,
    path: PathId,
    ty: TypeComponentInstanceIndex,
    entry: u32,
    place: usize,
) -> Result<Option<Found>, ItemError>
    requires input { IsInput context.now.table.now context.now.modules }
    requires sound { IsSoundState context.now.table.now context.now.modules state.old }
    requires has { HasSomeParts context.now.modules (tables_of state.old) (definition.HostInstance path ty entry) }
    ensures adds { AddsPath context.now.table.now context.now.modules state.old state.new }
    ensures stands { OnOk result (StillStands context.now.table.now context.now.modules state.old state.new) }
    ensures finds { Finds context.now.table.now context.now.modules state.old
        (definition.HostInstance path ty entry) place state.new result }
{
    let Some(member) = host_member(context, state, ty, entry, place) else {
        return Ok(None);
    };
    if let HostMember::Component = member {
        return Err(ItemError::Fault(ItemFault::Unsupported(Unsupported::ComponentImport)));
    }
    let Some(number) = state.names.export_number(entry, place) else {
        return Ok(None);
    };
    let Some(label) = state.names.text(number) else {
        return Ok(None);
    };
    let name = label.share()?;
    let path = state.path_to_member(path, number)?;
    let data_ = ComponentExternData {
        implements: None,
        external_id: None,
    };
    match member.definition(path) {
        Some(definition) => Ok(Some(Found {
            name,
            data_,
            definition,
        })),
        None => unreachable!(),
    }
}

/// What an instance has at a place; nothing past the end.
pub(crate) fn part_at(
    context: &Context<'_>,
    state: &mut State<'_>,
    instance: Definition,
    place: usize,
) -> Result<Option<Found>, ItemError>
    requires input { IsInput context.now.table.now context.now.modules }
    requires sound { IsSoundState context.now.table.now context.now.modules state.old }
    requires has { HasSomeParts context.now.modules (tables_of state.old) instance }
    ensures adds { AddsPath context.now.table.now context.now.modules state.old state.new }
    ensures stands { OnOk result (StillStands context.now.table.now context.now.modules state.old state.new) }
    ensures finds { Finds context.now.table.now context.now.modules state.old instance place state.new result }
{
    match instance {
        Definition::Instance { exports, .. } => Ok(made_part(context, state, exports, place)?),
        Definition::HostInstance { path, ty, entry } => {
            host_part(context, state, path, ty, entry, place)
        }
        _ => Ok(None),
    }
}
