//! Laws of what is planned for an adapter: it is short, it names nothing but what the adapter names, and the adapter
//! can be told from its record. Each function does nothing: its contract is the law.
#![tactic(auto)]

ghost use Rattle.std.specs.Prelude.{◌≡◌, ◌≤◌, ℕ, Bool, List, length, true, Contains, Some};
ghost use Rattle.pc_spec_plan.specs.CoreValue.{CoreValue};
ghost use Rattle.pc_spec_plan.specs.Machine.{adapter_from};
ghost use Rattle.pc_spec_plan.specs.PlanView.{AdapterRecord, PlanView};
ghost use Rattle.pc_trampoline.specs.declared.part.Mark.{Mark};
ghost use Rattle.pc_spec_adapt.specs.Asked.{FunctionFacts};
ghost use Rattle.pc_spec_adapt.specs.Named.{Named, in_adapter, named};
ghost use Rattle.pc_spec_adapt.specs.Planned.{planned};
ghost use Rattle.pc_spec_adapt.specs.Record.{record_at};
ghost use Rattle.pc_adapt_laws.specs.Found.{are_counted, HoldFrom, values_of};

/// A module imports at most 23 things for an adapter.
pub fn what_is_planned_is_short()
    ensures { (lift lower : FunctionFacts) (is_transparent lift_wide lower_wide : Bool) (v : CoreValue Mark)
        → length (planned lift lower is_transparent lift_wide lower_wide v) ≤ 23 }
{}

/// What is imported for an adapter names nothing but what the adapter names.
pub fn what_is_planned_is_named()
    ensures { (lift lower : FunctionFacts) (is_transparent lift_wide lower_wide : Bool) (v x : CoreValue Mark)
        (y : Named Mark)
        → Contains (values_of (planned lift lower is_transparent lift_wide lower_wide v)) x → Contains (named x) y
        → Contains (in_adapter v) y }
{}

/// An adapter is told from its record: over arguments that hold what is planned for it from the record's first place
/// on, the record stands for the adapter.
pub fn adapters_are_found()
    ensures { (p : PlanView Mark) (args : List (CoreValue Mark)) (core_module function first number : ℕ)
        (lift lower : FunctionFacts) (is_transparent lift_wide lower_wide : Bool) (v : CoreValue Mark)
        (r : AdapterRecord Mark)
        → HoldFrom args first (values_of (planned lift lower is_transparent lift_wide lower_wide v))
        → are_counted p v ≡ true → record_at core_module function first number v ≡ Some r
        → adapter_from p args r ≡ Some v }
{}
