//! When an adapter counts as made before. The function does nothing: its contract is the law.
#![tactic(auto)]

ghost use Rattle.std.specs.Prelude.{List, Contains};
ghost use Rattle.std.specs.Bool.{Decides};
ghost use Rattle.pc_spec_plan.specs.CoreValue.{CoreValue};
ghost use Rattle.pc_spec_plan.specs.Log.{Entry, made};
ghost use Rattle.pc_parsed.specs.Mark.{Mark};
ghost use Rattle.pc_spec_reading.specs.SameValues.{was_made};

/// An adapter counts as made before exactly where the log says that this very one was made.
pub fn adapters_are_told()
    ensures { (v : CoreValue Mark) (log : List (Entry Mark)) → Decides (was_made v log) (Contains log (made v)) }
{}
