//! In a graph that stands for a reading, an adapter is transparent exactly where the reading's is. The function does
//! nothing: its contract is the law.
#![tactic(auto)]

ghost use Rattle.std.specs.Prelude.{◌≡◌, ◌↔◌, ℕ, List, Some, slice_get};
ghost use Rattle.pc_numbers.specs.declared.runtime.ResourceIndex.{ResourceIndex};
ghost use Rattle.pc_types.specs.declared.parsed.TypeTable.{TypeTable};
ghost use Rattle.pc_types.specs.TypeTree.{Identity, TypeTree};
ghost use Rattle.pc_types_lists.specs.Types.{Types};
ghost use Rattle.pc_spec_plan.specs.CoreValue.{CoreValue};
ghost use Rattle.pc_spec_plan.specs.ExportNode.{NamedNode};
ghost use Rattle.pc_parsed.specs.Mark.{Mark};
ghost use Rattle.pc_spec_reading.specs.World.{World};
ghost use Rattle.pc_spec_adapt.specs.Needs.{adapters_of};
ghost use Rattle.pc_spec_wiring.specs.Opaque as reading;
ghost use Rattle.pc_dfg.specs.declared.dfg.ComponentDfg.{ComponentDfg};
ghost use Rattle.pc_analysis_transparent.specs.Opaque.{AreTyped, IsTransparentIn};
ghost use Rattle.pc_inline_state.specs.Fits.{Fits};
ghost use Rattle.pc_inline_state.specs.Worlds.{WorldStands};
ghost use Rattle.pc_inline_exports.specs.Exports.{ExportsStand};
ghost use Rattle.pc_analysis_reads.specs.Exported.{AreExported};

/// The graph has done what the log of this world says, exports these nodes, and has no item that isn't exported. The
/// types of its adapters have these trees.
pub fn adapters_are_transparent_as_read()
    ensures { (t : TypeTable) (types : Types) (g : ComponentDfg) (w : World) (nodes : List (NamedNode Mark))
        (who : ResourceIndex → Identity) (lift lower : ℕ → TypeTree) → WorldStands types g w
        → ExportsStand t types g nodes → AreExported g → Fits g who → AreTyped types who g lift lower
        → (k : ℕ) (v : CoreValue Mark) → slice_get (adapters_of w.log) k ≡ Some v
        → IsTransparentIn g lift lower k ↔ reading.IsTransparentIn w.log nodes v }
{}
