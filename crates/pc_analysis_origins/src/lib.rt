//! Laws of where the items of core instances come from. Each function does nothing: its contract is the law.
#![tactic(auto)]

ghost use Rattle.std.specs.Prelude.{ℕ, Bool, List, Option};
ghost use Rattle.pc_spec_wiring.specs.Origin.{Core};
ghost use Rattle.pc_spec_wiring.specs.Sharing.{ArePartitioned, Home};
ghost use Rattle.pc_analysis_origins.specs.Renumbered.{AreRenumbered, HasAll, HasNumber};

/// Which imports of a module share a context doesn't depend on how core instances are numbered, nor on instances that
/// only one list has, as long as both have all instances of that module.
pub fn renumbered_instances_share_alike<E, F>()
    ensures { (left_home : E → Option Home) (right_home : F → Option Home) (number_of : ℕ → Option ℕ)
        (left : List (Core E)) (right : List (Core F))
        → AreRenumbered left_home right_home (HasNumber number_of) left right → (m : ℕ)
        → HasAll left_home right_home (HasNumber number_of) left right m
        → (is_exported : Bool) (size : ℕ) (representative : ℕ → ℕ)
        → ArePartitioned left_home left is_exported m size representative
        → ArePartitioned right_home right is_exported m size representative }
{}
