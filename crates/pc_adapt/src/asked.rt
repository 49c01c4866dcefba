//! Which adapters lack an option.

ghost use Rattle.std.specs.Prelude.{◌≡◌, ◌↔◌, ℕ, Some};
ghost use Rattle.pc_numbers.specs.declared.runtime.ResourceIndex.{ResourceIndex};
ghost use Rattle.pc_types.specs.TypeTree.{Identity, TypeTree};
ghost use Rattle.pc_dfg.specs.declared.ids.AdapterId.{AdapterId as Adapters};
ghost use Rattle.pc_spec_adapt.specs.Asked.{function_facts, in_memory};
ghost use Rattle.pc_adapt.specs.Asked.{AreTyped, HasTypes, HoldsTypes, HoldTypes, LacksFirst};
ghost use Rattle.pc_adapt.specs.Asked.{adapter_has_options, side_has_asked};

use crate::facts::facts_of_function;
use pc_dfg::{Adapter, AdapterId, ComponentDfg, DataModel};
use pc_types_builder::ComponentTypesBuilder;
use pc_types_lists::TypeFacts;

/// Whether values of these types go through a memory.
fn goes_through_memory(facts: TypeFacts) -> bool
    ensures { result ≡ in_memory facts }
{
    facts.string || facts.list
}

/// Whether a side of an adapter has what it is asked for, where it takes values of these types and gives some of those.
fn has_asked(taken: TypeFacts, given: TypeFacts, model: &DataModel) -> bool
    ensures { result ≡ side_has_asked taken given model.now }
{
    let takes = goes_through_memory(taken);
    let gives = goes_through_memory(given);
    match model {
        DataModel::Gc {} => true,
        DataModel::LinearMemory { memory, realloc } => {
            (!(takes || gives) || memory.is_some()) && (!takes || realloc.is_some())
        }
    }
}

/// Whether both sides of an adapter have what their types ask for.
pub fn has_options(types: &ComponentTypesBuilder, adapter: &Adapter) -> bool
    requires held { HoldsTypes types.now adapter.now }
    ensures { (who : ResourceIndex → Identity) (lift lower : TypeTree) → HasTypes types.now who adapter.now lift lower
        → result ≡ adapter_has_options (function_facts lift) (function_facts lower) adapter.now }
{
    let lift = facts_of_function(types, adapter.lift_ty);
    let lower = facts_of_function(types, adapter.lower_ty);
    has_asked(lift.params, lift.results, &adapter.lift_options.data_model)
        && has_asked(
            lower.results,
            lower.params,
            &adapter.lower_options.data_model,
        )
}

/// The first adapter that lacks an option which its types ask for, if one does.
pub fn first_lacking(graph: &ComponentDfg, types: &ComponentTypesBuilder) -> Option<AdapterId>
    requires held { HoldTypes types.now graph.now }
    ensures { (who : ResourceIndex → Identity) (lift lower : ℕ → TypeTree)
        → AreTyped types.now who graph.now lift lower
        → (a : Adapters) → (result ≡ Some a) ↔ LacksFirst graph.now lift lower a.0 }
{
    let adapters = graph.adapters.as_slice();
    for place in 0..graph.adapters.len() {
        if !has_options(types, &adapters[place]) {
            return Some(AdapterId(place as u32));
        }
    }
    None
}
