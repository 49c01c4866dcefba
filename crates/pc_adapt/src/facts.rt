//! What stands in function types.

ghost use Rattle.std.specs.Prelude.{◌≡◌, ◌<◌, length};
ghost use Rattle.pc_numbers.specs.declared.runtime.ResourceIndex.{ResourceIndex};
ghost use Rattle.pc_types.specs.declared.types.TypeDef.TheVariants as def;
ghost use Rattle.pc_types.specs.TypeTree.{Identity, TypeTree};
ghost use Rattle.pc_types_lists.specs.Trees.{HasTree};
ghost use Rattle.pc_spec_adapt.specs.Asked.{function_facts};
ghost use Rattle.pc_adapt.specs.Asked.{facts_view};

use pc_types::TypeFuncIndex;
use pc_types_builder::ComponentTypesBuilder;
use pc_types_lists::TypeFacts;

/// What stands in the parameters and in the results of a function type, and whether the type is async.
#[derive(Clone, Copy)]
pub struct FunctionFacts {
    pub params: TypeFacts,
    pub results: TypeFacts,
    pub async_: bool,
}

/// The facts of a function type, which the builder keeps.
pub fn facts_of_function(types: &ComponentTypesBuilder, ty: TypeFuncIndex) -> FunctionFacts
    requires held { ty.0 < length types.now.funcs }
    ensures { (who : ResourceIndex → Identity) (tree : TypeTree) → HasTree types.now who (def.ComponentFunc ty) tree
        → facts_view result ≡ function_facts tree }
{
    let function = types.func(ty);
    FunctionFacts {
        params: types.tuple_facts(function.params),
        results: types.tuple_facts(function.results),
        async_: function.async_,
    }
}
