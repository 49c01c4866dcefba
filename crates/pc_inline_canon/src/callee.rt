//! What the functions among the items of a component can be lowered from.

ghost use Rattle.std.specs.Prelude.{◌≡◌, option_and_then, slice_get};
ghost use Rattle.pc_inline_canon.specs.Callees.{callee_of};

use pc_inline_paths::PathId;
use pc_inline_state::{CoreId, Definition, DefinitionId, Options, State};
use pc_types::{TypeFuncIndex, UnsafeIntrinsic};

/// A function that can be lowered.
#[derive(Clone, Copy)]
pub(crate) enum Callee {
    /// A function of the host, by its path.
    Host(PathId),
    /// A core function that was lifted, with its type and options.
    Lifted {
        ty: TypeFuncIndex,
        func: CoreId,
        options: Options,
    },
    Intrinsic(UnsafeIntrinsic),
}

/// What a definition is that can be lowered, if it is a function.
pub(crate) fn callee_of(state: &State<'_>, id: DefinitionId) -> Option<Callee>
    ensures { result ≡ option_and_then callee_of (slice_get state.now.definitions id.0) }
{
    match state.definitions.get(id) {
        Some(Definition::HostFunc { path, .. }) => Some(Callee::Host(*path)),
        Some(Definition::LiftedFunc { ty, func, options }) => Some(Callee::Lifted {
            ty: *ty,
            func: *func,
            options: *options,
        }),
        Some(Definition::IntrinsicFunc { intrinsic }) => Some(Callee::Intrinsic(*intrinsic)),
        _ => None,
    }
}
