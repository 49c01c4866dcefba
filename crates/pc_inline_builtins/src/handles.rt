//! Types that are of the kind that a builtin asks for.

ghost use Rattle.std.specs.Prelude.{◌≡◌, is_some};
ghost use Rattle.pc_numbers.specs.declared.runtime.ResourceIndex.{ResourceIndex};
ghost use Rattle.pc_types.specs.declared.types.TypeDef.TheVariants as def;
ghost use Rattle.pc_types.specs.TypeTree.{Identity, TypeTree};
ghost use Rattle.pc_types_lists.specs.Primitive.{plain_type};
ghost use Rattle.pc_types_lists.specs.Trees.{HasTree};
ghost use Rattle.pc_inline_builtins.specs.declared.builtin.Handle.TheVariants as handle;
ghost use Rattle.pc_inline_builtins.specs.Reads.{of_handle};

use crate::builtin::Handle;
use pc_types::{InterfaceType, PrimType, TypeDef, TypeResourceTable, TypeResourceTableIndex};
use pc_types_builder::ComponentTypesBuilder;

/// Whether handles are those of a resource that is known.
fn are_known(types: &ComponentTypesBuilder, handles: TypeResourceTableIndex) -> bool
    requires typed { (who : ResourceIndex → Identity) × (tree : TypeTree)
        × HasTree types.now who (def.Resource handles) tree }
    ensures { (who : ResourceIndex → Identity) (tree : TypeTree)
        → HasTree types.now who (def.Resource handles) tree → result ≡ is_some (of_handle handle.Resource tree) }
{
    match types.resource_table(handles) {
        TypeResourceTable::Concrete { .. } => true,
        TypeResourceTable::Abstract(_) => false,
    }
}

/// Whether a type is one of a kind.
pub(crate) fn is_of(types: &ComponentTypesBuilder, wanted: Handle, ty: TypeDef) -> bool
    requires typed { (who : ResourceIndex → Identity) × (tree : TypeTree) × HasTree types.now who ty tree }
    ensures { (who : ResourceIndex → Identity) (tree : TypeTree)
        → HasTree types.now who ty tree → result ≡ is_some (of_handle wanted tree) }
{
    match wanted {
        Handle::Resource => match ty {
            TypeDef::Resource(handles) => are_known(types, handles),
            _ => false,
        },
        Handle::Stream => matches!(ty, TypeDef::Interface(InterfaceType::Stream(_))),
        Handle::Future => matches!(ty, TypeDef::Interface(InterfaceType::Future(_))),
    }
}

/// The value type of a primitive that needs no table.
pub(crate) fn plain_type(p: PrimType) -> Option<InterfaceType>
    ensures { result ≡ plain_type p }
{
    match p {
        PrimType::Bool => Some(InterfaceType::Bool),
        PrimType::S8 => Some(InterfaceType::S8),
        PrimType::U8 => Some(InterfaceType::U8),
        PrimType::S16 => Some(InterfaceType::S16),
        PrimType::U16 => Some(InterfaceType::U16),
        PrimType::S32 => Some(InterfaceType::S32),
        PrimType::U32 => Some(InterfaceType::U32),
        PrimType::S64 => Some(InterfaceType::S64),
        PrimType::U64 => Some(InterfaceType::U64),
        PrimType::F32 => Some(InterfaceType::F32),
        PrimType::F64 => Some(InterfaceType::F64),
        PrimType::Char => Some(InterfaceType::Char),
        PrimType::String => Some(InterfaceType::String),
        PrimType::ErrorContext => None,
    }
}
