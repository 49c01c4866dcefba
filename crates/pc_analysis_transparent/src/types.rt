//! What the types of functions tell.

ghost use Rattle.std.specs.Prelude.{◌≡◌, ◌<◌, ◌&&◌, length, not};
ghost use Rattle.pc_numbers.specs.declared.runtime.ResourceIndex.{ResourceIndex};
ghost use Rattle.pc_types.specs.declared.types.TypeDef.TheVariants as def;
ghost use Rattle.pc_types.specs.TypeTree.{Identity, TypeTree};
ghost use Rattle.pc_types_lists.specs.Trees.{HasTree};
ghost use Rattle.pc_parsed.specs.Mark.{of_type};
ghost use Rattle.pc_spec_wiring.specs.FunctionTypes.{has_handle, is_async_type};
ghost use Rattle.pc_analysis_transparent.specs.Opened.{is_async_in};

use pc_types::TypeFuncIndex;
use pc_types_builder::ComponentTypesBuilder;

/// Whether a function type is async.
pub(crate) fn is_async(types: &ComponentTypesBuilder, ty: TypeFuncIndex) -> bool
    requires held { ty.0 < length types.now.funcs }
    ensures { result ≡ is_async_in types.now ty.0 }
{
    types.func(ty).async_
}

/// Whether a function type is synchronous and has no handle inside.
pub(crate) fn is_plain(types: &ComponentTypesBuilder, ty: TypeFuncIndex) -> bool
    requires held { ty.0 < length types.now.funcs }
    ensures { (who : ResourceIndex → Identity) (tree : TypeTree) → HasTree types.now who (def.ComponentFunc ty) tree
        → result ≡ (not (is_async_type (of_type tree)) && not (has_handle (of_type tree))) }
{
    !is_async(types, ty) && !types.func_contains_any_handle(ty)
}
