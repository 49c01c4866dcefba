//! Laws of modules of adapters. Each function does nothing: its contract is the law.

ghost use Rattle.std.specs.Prelude.{◌≡◌, ℕ, Bool, List, length, map, Some, slice_get};
ghost use Rattle.pc_spec_plan.specs.CoreValue.{CoreValue};
ghost use Rattle.pc_trampoline.specs.declared.part.Mark.{Mark};
ghost use Rattle.pc_dfg.specs.declared.adapter.Adapter.{Adapter};
ghost use Rattle.pc_dfg.specs.declared.core_def.CoreDef.TheVariants as def;
ghost use Rattle.pc_dfg.specs.declared.dfg.ComponentDfg.{ComponentDfg};
ghost use Rattle.pc_dfg.specs.declared.ids.AdapterId.{AdapterId};
ghost use Rattle.pc_dfg.specs.Means.{Means};
ghost use Rattle.pc_dfg.specs.Ordered.{IsOrdered};
ghost use Rattle.pc_dfg_linearize.specs.Grouped.{IsGrouped};
ghost use Rattle.pc_spec_adapt.specs.Asked.{FunctionFacts};
ghost use Rattle.pc_spec_adapt.specs.Import.{entity_of};
ghost use Rattle.pc_spec_adapt.specs.Planned.{planned};
ghost use Rattle.pc_spec_adapt.specs.Record.{Member, module_of};
ghost use Rattle.pc_spec_adapt.specs.Split.{IsGoodSplit};
ghost use Rattle.pc_adapt.specs.Planned.{is_wide};
ghost use Rattle.pc_adapt_groups.specs.Needs.{Needs};
ghost use Rattle.pc_adapt_modules.specs.Entities.{all_entities, entities_for, signature_number};
ghost use Rattle.pc_adapt_modules.specs.Exports.{record_of_parts};
ghost use Rattle.pc_adapt_modules.specs.Members.{AreMembers, pairs, signatures_of};
ghost use Rattle.pc_adapt_modules.specs.Modules.{AreModules};

/// Where a graph gets a module for each run of a good split of its adapters, it is grouped: no side effect uses an
/// adapter before all is there that its module needs.
pub fn modules_are_grouped()
    ensures { (g h : ComponentDfg) (runs : List (List ℕ)) → IsOrdered g → AreModules g h runs
        → IsGoodSplit (Needs g) (length g.adapters) runs → IsGrouped h }
{}

/// The imports that are planned for an adapter are imported as `entities_for` has it.
pub fn entities_are_planned()
    ensures { (g : ComponentDfg) (a : AdapterId) (x : Adapter) (v : CoreValue Mark) (lift lower : FunctionFacts)
        (transparent : Bool) → slice_get g.adapters a.0 ≡ Some x → Means g (def.Adapter a) v
        → map (entity_of signature_number)
        (planned lift lower transparent (is_wide x.lift_options.data_model) (is_wide x.lower_options.data_model) v)
        ≡ entities_for x (length
        (planned lift lower transparent (is_wide x.lift_options.data_model) (is_wide x.lower_options.data_model) v)) }
{}

/// A record that is put together of adapters is that of a module of their values.
pub fn records_are_of_modules()
    ensures { (n : ℕ) (xs : List Adapter) (ms : List (Member Mark)) → AreMembers n xs ms
        → record_of_parts (all_entities n (pairs xs ms)) (signatures_of xs) n (length xs)
        ≡ module_of signature_number ms }
{}
