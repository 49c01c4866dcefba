//! Which adapters are transparent.

ghost use Rattle.std.specs.Prelude.{◌≡◌, ◌↔◌, ℕ, IfOk, true};
ghost use Rattle.std.specs.FinSet as set;
ghost use Rattle.pc_numbers.specs.declared.runtime.ResourceIndex.{ResourceIndex};
ghost use Rattle.pc_types.specs.TypeTree.{Identity, TypeTree};
ghost use Rattle.pc_analysis_transparent.specs.Opaque.{AreTyped, HasTypes, HoldsTypes, HoldTypes, IsTransparentIn};
ghost use Rattle.pc_analysis_transparent.specs.Opened.{keeps_out};

use crate::opaque::{Opaque, opaque_instances};
use crate::types::is_plain;
use pc_dfg::{Adapter, AdapterId, ComponentDfg};
use pc_entity::{EntitySet, NoMemory};
use pc_types_builder::ComponentTypesBuilder;
use std::alloc::Global;

/// Whether an adapter is transparent, where these instances are opaque.
fn is_transparent(opaque: &Opaque, types: &ComponentTypesBuilder, adapter: &Adapter) -> bool
    requires held { HoldsTypes types.now adapter.now }
    ensures { (who : ResourceIndex → Identity) (lift lower : TypeTree) → HasTypes types.now who adapter.now lift lower
        → result ≡ keeps_out opaque.now lift lower adapter.now }
{
    let lift = is_plain(types, adapter.lift_ty);
    let lower = is_plain(types, adapter.lower_ty);
    let are_async = adapter.lift_options.async_ | adapter.lower_options.async_;
    let is_opaque = opaque.contains(adapter.lift_options.instance);
    lift & lower & !are_async & !is_opaque
}

/// The adapters that need not keep the state of a thread: all of them, whatever order the graph is in. The types of the
/// adapters have to be held.
pub fn transparent_adapters(
    alloc: Global,
    dfg: &ComponentDfg,
    types: &ComponentTypesBuilder,
) -> Result<EntitySet<AdapterId>, NoMemory>
    requires held { HoldTypes types.now dfg.now }
    ensures { IfOk result (λ s. (who : ResourceIndex → Identity) (lift lower : ℕ → TypeTree)
        → AreTyped types.now who dfg.now lift lower
        → (k : ℕ) → (set.contains s k ≡ true) ↔ IsTransparentIn dfg.now lift lower k) }
{
    let opaque = opaque_instances(alloc, dfg, types)?;
    let adapters = dfg.adapters.as_slice();
    let mut transparent = EntitySet::new(alloc);
    for place in 0..dfg.adapters.len() {
        if is_transparent(&opaque, types, &adapters[place]) {
            transparent.insert(AdapterId(place as u32))?;
        }
    }
    Ok(transparent)
}
