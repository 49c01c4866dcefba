//! What the analysis of contexts finds on a graph, carried over to the plan of the graph. The function does nothing:
//! its contract is the law.
#![tactic(auto)]

ghost use Rattle.std.specs.Prelude.{◌≡◌, ℕ, List, Option, map, length};
ghost use Rattle.pc_entity.specs.Lists.{AreDistinct};
ghost use Rattle.pc_types.specs.declared.module_record.ModuleRecord.{ModuleRecord};
ghost use Rattle.pc_trampoline.specs.declared.part.Mark.{Mark};
ghost use Rattle.pc_info.specs.declared.component.ComponentTranslation.{ComponentTranslation};
ghost use Rattle.pc_info.specs.declared.module.ModuleTranslation.{ModuleTranslation};
ghost use Rattle.pc_info.specs.Modules.{handed_in_view};
ghost use Rattle.pc_info.specs.View.{view};
ghost use Rattle.pc_spec_wiring.specs.Exported.{is_exported};
ghost use Rattle.pc_spec_wiring.specs.Facts.{IsInPlan, RecordsSharing};
ghost use Rattle.pc_dfg.specs.declared.dfg.ComponentDfg.{ComponentDfg};
ghost use Rattle.pc_dfg_linearize.specs.Wired.{IsWired};
ghost use Rattle.pc_dfg_finish.specs.Apart.{module_of};
ghost use Rattle.pc_dfg_finish.specs.Finishes.{Finishes};
ghost use Rattle.pc_analysis_contexts.specs.Cores.{is_exported_in};
ghost use Rattle.pc_analysis_contexts.specs.Recorded.{RecordsContexts};

/// Where contexts are recorded of a module by the core instances of a graph, they are so by those of the graph's plan,
/// for each module that the plan has. No two modules of adapters are one, and plan and graph export the same modules.
pub fn a_plan_shares_as_its_graph()
    ensures { (g : ComponentDfg) (converted : ℕ → Mark) (p : ComponentTranslation) (ms modules : List ModuleTranslation)
        → Finishes g converted p → IsWired g ms → AreDistinct (map module_of g.adapter_modules)
        → handed_in_view modules ≡ handed_in_view ms → (records : List ModuleRecord) (m : ℕ) (r : ModuleRecord)
        (recorded : ℕ → Option ℕ) → is_exported_in g m ≡ is_exported (view p modules) m
        → IsInPlan (view p modules) records m → RecordsContexts g records m r recorded
        → RecordsSharing (view p modules) records m r recorded }
{}
