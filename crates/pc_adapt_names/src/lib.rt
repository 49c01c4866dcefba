//! Laws of names: what a definition of a graph names stands for what its value names. Each function does nothing: its
//! contract is the law.
#![tactic(auto)]

ghost use Rattle.std.specs.Prelude.{◌≡◌, ◌∷◌, [], ℕ, List, Some, length, slice_get};
ghost use Rattle.pc_spec_plan.specs.CoreValue.{CoreValue};
ghost use Rattle.pc_spec_plan.specs.Log.{Entry};
ghost use Rattle.pc_trampoline.specs.declared.part.Mark.{Mark};
ghost use Rattle.pc_dfg.specs.declared.adapter.Adapter.{Adapter};
ghost use Rattle.pc_dfg.specs.declared.core_def.CoreDef.{CoreDef};
ghost use Rattle.pc_dfg.specs.declared.core_def.CoreDef.TheVariants as def;
ghost use Rattle.pc_dfg.specs.declared.dfg.ComponentDfg.{ComponentDfg};
ghost use Rattle.pc_dfg.specs.declared.ids.AdapterId.{AdapterId};
ghost use Rattle.pc_dfg.specs.declared.instance.SideEffect.{SideEffect};
ghost use Rattle.pc_dfg.specs.Effects.{MeansEffect};
ghost use Rattle.pc_dfg.specs.Means.{Means};
ghost use Rattle.pc_dfg.specs.Names as graph;
ghost use Rattle.pc_spec_adapt.specs.Named as value;
ghost use Rattle.pc_spec_adapt.specs.Needs as log;
ghost use Rattle.pc_spec_adapt.specs.Split.{IsFewest};
ghost use Rattle.pc_adapt_groups.specs.Needs as made;
ghost use Rattle.pc_adapt_names.specs.Made.{HasMade};
ghost use Rattle.pc_adapt_names.specs.Same.{SameNames};

/// A definition names what its value names.
pub fn definitions_name_alike()
    ensures { (g : ComponentDfg) (d : CoreDef) (v : CoreValue Mark) → Means g d v
        → SameNames g (d ∷ []) (value.named v) }
{}

/// An adapter names what its value names.
pub fn adapters_name_alike()
    ensures { (g : ComponentDfg) (a : AdapterId) (x : Adapter) (v : CoreValue Mark)
        → slice_get g.adapters a.0 ≡ Some x → Means g (def.Adapter a) v
        → SameNames g (graph.in_adapter x) (value.in_adapter v) }
{}

/// A side effect names what its entry of the log names.
pub fn effects_name_alike()
    ensures { (g : ComponentDfg) (e : SideEffect) (v : Entry Mark) → MeansEffect g e v
        → SameNames g (graph.in_effect g e) (value.in_entry v) }
{}

/// The fewest runs of a graph's adapters are the fewest runs of the adapters that its log makes.
pub fn runs_are_those_of_the_log()
    ensures { (g : ComponentDfg) (l : List (Entry Mark)) (runs : List (List ℕ)) → HasMade g l
        → IsFewest (made.Needs g) (length g.adapters) runs
        → IsFewest (log.Needs l) (length (log.adapters_of l)) runs }
{}
