//! Laws of marks: what is planned for an adapter, and what it needs, follows the marks of values. Each function does
//! nothing: its contract is the law.
#![tactic(auto)]

ghost use Rattle.std.specs.Prelude.{◌≡◌, ℕ, Bool, List, map};
ghost use Rattle.pc_spec_plan.specs.CoreValue.{CoreValue, map_value};
ghost use Rattle.pc_spec_plan.specs.Log.{Entry, map_entry, trace};
ghost use Rattle.pc_trampoline.specs.declared.part.Mark.{Mark};
ghost use Rattle.pc_spec_adapt.specs.Asked.{FunctionFacts};
ghost use Rattle.pc_spec_adapt.specs.Import.{map_import};
ghost use Rattle.pc_spec_adapt.specs.Needs.{Needs, adapters_of};
ghost use Rattle.pc_spec_adapt.specs.Planned.{planned};

/// What is planned for an adapter with other marks is what is planned for it, with other marks.
pub fn what_is_planned_follows_marks()
    ensures { (f : Mark → ℕ) (lift lower : FunctionFacts) (is_transparent lift_wide lower_wide : Bool)
        (v : CoreValue Mark)
        → planned lift lower is_transparent lift_wide lower_wide (map_value f v)
        ≡ map (map_import f) (planned lift lower is_transparent lift_wide lower_wide v) }
{}

/// Where two logs have the same adapters and effects with different marks, and values that are one with the first marks
/// are one with the second, an adapter needs in the second log what it needs in the first.
pub fn needs_follow_marks()
    ensures { (f h : Mark → ℕ)
        → ((x y : CoreValue Mark) → map_value f x ≡ map_value f y → map_value h x ≡ map_value h y)
        → (adapters : List (CoreValue Mark)) (effects : List (Entry Mark)) (l m : List (Entry ℕ))
        → adapters_of l ≡ map (map_value f) adapters → adapters_of m ≡ map (map_value h) adapters
        → trace l ≡ map (map_entry f) effects → trace m ≡ map (map_entry h) effects
        → (a b : ℕ) → Needs l a b → Needs m a b }
{}
