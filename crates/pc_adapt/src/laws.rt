//! Laws of the planner, which tie its words on a graph to those on core values. Each function does nothing: its
//! contract is the law.

ghost use Rattle.std.specs.Prelude.{◌≡◌, ℕ, Bool, Some, slice_get};
ghost use Rattle.std.specs.List.{AllZip};
ghost use Rattle.pc_spec_plan.specs.CoreValue.{CoreValue};
ghost use Rattle.pc_trampoline.specs.declared.part.Mark.{Mark};
ghost use Rattle.pc_trampoline.specs.declared.part.Mark.TheVariants as mark;
ghost use Rattle.pc_info.specs.Modules.{adapter_view};
ghost use Rattle.pc_dfg.specs.declared.adapter.Adapter.{Adapter};
ghost use Rattle.pc_dfg.specs.declared.core_def.CoreDef.TheVariants as def;
ghost use Rattle.pc_dfg.specs.declared.dfg.ComponentDfg.{ComponentDfg};
ghost use Rattle.pc_dfg.specs.declared.ids.AdapterId.{AdapterId};
ghost use Rattle.pc_dfg.specs.Means.{Means};
ghost use Rattle.pc_spec_adapt.specs.Asked.{FunctionFacts, has_options};
ghost use Rattle.pc_spec_adapt.specs.Planned.{planned};
ghost use Rattle.pc_spec_adapt.specs.Record.{record_at};
ghost use Rattle.pc_adapt.specs.Asked.{adapter_has_options};
ghost use Rattle.pc_adapt.specs.Imports.{imports_of};
ghost use Rattle.pc_adapt.specs.Places.{record_of};
ghost use Rattle.pc_adapt.specs.Planned.{is_wide, StandsFor};

/// An adapter has what its types ask for exactly where its value has.
pub fn options_are_asked()
    ensures { (g : ComponentDfg) (a : AdapterId) (x : Adapter) (v : CoreValue Mark) (lift lower : FunctionFacts)
        → slice_get g.adapters a.0 ≡ Some x → Means g (def.Adapter a) v
        → adapter_has_options lift lower x ≡ has_options lift lower v }
{}

/// What is planned for an adapter stands for what is planned for its value, with the widths that its options say, be
/// the adapter transparent or not.
pub fn imports_are_planned()
    ensures { (g : ComponentDfg) (a : AdapterId) (x : Adapter) (v : CoreValue Mark) (lift lower : FunctionFacts)
        (transparent : Bool) → slice_get g.adapters a.0 ≡ Some x → Means g (def.Adapter a) v
        → AllZip (StandsFor g (mark.Signature x.lower_options.core_type)) (imports_of lift lower transparent x)
        (planned lift lower transparent (is_wide x.lift_options.data_model) (is_wide x.lower_options.data_model) v) }
{}

/// What is said of an adapter, once its function is known, is what is said of its value.
pub fn records_are_planned()
    ensures { (g : ComponentDfg) (a : AdapterId) (x : Adapter) (v : CoreValue Mark) (core_module function first : ℕ)
        → slice_get g.adapters a.0 ≡ Some x → Means g (def.Adapter a) v
        → record_at core_module function first a.0 v
        ≡ Some (adapter_view core_module (record (record_of first a.0 x) { func = record { 0 = function } })) }
{}
