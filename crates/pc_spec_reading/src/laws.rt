//! Laws of the reading's words. Each function does nothing: its contract is the law.

ghost use Rattle.std.specs.Prelude.{◌≡◌, ◌⊎◌, ℕ, List, Option, None, Some};
ghost use Rattle.std.specs.Bool.{Decides};
ghost use Rattle.pc_types.specs.declared.parsed.TypeTable.{TypeTable};
ghost use Rattle.pc_types.specs.TypeTree.{TypeTree};
ghost use Rattle.pc_spec_plan.specs.CoreValue.{CoreValue};
ghost use Rattle.pc_parsed.specs.declared.payload.Payload.{Payload};
ghost use Rattle.pc_parsed.specs.Mark.{Mark};
ghost use Rattle.pc_spec_reading.specs.Outcome.{Outcome, past};
ghost use Rattle.pc_spec_reading.specs.Reading.{Reading, reading};
ghost use Rattle.pc_spec_reading.specs.SameTypes.{same_type};
ghost use Rattle.pc_spec_reading.specs.SameValues.{same_value};
ghost use Rattle.pc_spec_reading.specs.Uncounted.{uncounted};

/// Two types are the same exactly where they are one.
pub fn types_are_one()
    ensures { (t u : TypeTree) → Decides (same_type t u) (t ≡ u) }
{}

/// A reading that counts a total is past it, or the reading that counts none but for the total itself.
pub fn totals_change_nothing()
    ensures { (t : TypeTable) (exposed : Option (List ℕ)) (limit n : ℕ) (ps : List Payload) (o : Outcome Reading)
        → reading t exposed limit (Some n) ps ≡ Some o
        → (o ≡ past) ⊎ (reading t exposed limit None ps ≡ Some (uncounted o)) }
{}

/// Two core values are the same exactly where they are one.
pub fn values_are_one()
    ensures { (v w : CoreValue Mark) → Decides (same_value v w) (v ≡ w) }
{}
