//! What the component instances among the items of a component are made of.

ghost use Rattle.std.specs.Prelude.{◌≡◌, option_and_then, slice_get};
ghost use Rattle.pc_inline_items.specs.Sources.{instance_source};

use pc_inline_paths::PathId;
use pc_inline_state::{Definition, DefinitionId, ExportsId, State};
use pc_types::TypeComponentInstanceIndex;

/// What a component instance is: named items, one of the host, or the unsafe intrinsics.
#[derive(Clone, Copy)]
pub(crate) enum InstanceSource {
    /// What an instance from items, or of a component, exports.
    Made(ExportsId),
    /// An instance of the host, by its path, with its type.
    Host {
        path: PathId,
        ty: TypeComponentInstanceIndex,
        entry: u32,
    },
    /// The unsafe intrinsics.
    Intrinsics,
}

/// What a definition is that is a component instance.
pub(crate) fn source_of(state: &State<'_>, id: DefinitionId) -> Option<InstanceSource>
    ensures { result ≡ option_and_then instance_source (slice_get state.now.definitions id.0) }
{
    match state.definitions.get(id) {
        Some(Definition::Instance { exports, .. }) => Some(InstanceSource::Made(*exports)),
        Some(Definition::HostInstance { path, ty, entry }) => Some(InstanceSource::Host {
            path: *path,
            ty: *ty,
            entry: *entry,
        }),
        Some(Definition::Intrinsics) => Some(InstanceSource::Intrinsics),
        _ => None,
    }
}
