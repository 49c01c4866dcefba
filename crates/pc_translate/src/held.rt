//! How many types a builder holds, of all kinds.

ghost use Rattle.std.specs.Prelude.{◌≡◌, ◌≤◌};
ghost use Rattle.pc_types_lists.specs.Types.{held, types_held};

use pc_types::TypeKind;
use pc_types_builder::ComponentTypesBuilder;

/// How many types of a kind are held: no more than there are numbers.
fn held(types: &ComponentTypesBuilder, kind: TypeKind) -> usize
    ensures held { result ≡ held types.now kind }
    ensures numbered { result ≤ 4294967294 }
{
    // No list is past its bound.
    types.types_are_distinct();
    types.held(kind)
}

/// How many types are held, of all kinds.
pub(crate) fn types_held(types: &ComponentTypesBuilder) -> usize
    ensures { result ≡ types_held types.now }
{
    held(types, TypeKind::Func)
        + held(types, TypeKind::Tuple)
        + held(types, TypeKind::Record)
        + held(types, TypeKind::Variant)
        + held(types, TypeKind::List)
        + held(types, TypeKind::Option)
        + held(types, TypeKind::Result)
        + held(types, TypeKind::Flags)
        + held(types, TypeKind::Enum)
        + held(types, TypeKind::ResourceTable)
        + held(types, TypeKind::FutureTable)
        + held(types, TypeKind::StreamTable)
        + held(types, TypeKind::ErrorContextTable)
        + held(types, TypeKind::Instance)
        + held(types, TypeKind::Component)
        + held(types, TypeKind::Module)
        + held(types, TypeKind::Signature)
}
