//! Laws of graphs. Each function does nothing: its contract is the law.

ghost use Rattle.std.specs.Prelude.{◌≡◌, ℕ, List, Some};
ghost use Rattle.pc_dfg.specs.declared.ids.AdapterId.{AdapterId};
ghost use Rattle.pc_numbers.specs.declared.runtime.TrampolineIndex.{TrampolineIndex};
ghost use Rattle.pc_spec_plan.specs.CoreValue.{CoreValue, MaybeValue, Options};
ghost use Rattle.pc_spec_plan.specs.ExportNode.{ExportNode, NamedNode};
ghost use Rattle.pc_spec_plan.specs.Log as log;
ghost use Rattle.pc_spec_plan.specs.PlanView.{SlotKind};
ghost use Rattle.pc_trampoline.specs.declared.part.Mark.{Mark};
ghost use Rattle.pc_info.specs.declared.core_def.CoreDef as info;
ghost use Rattle.pc_dfg.specs.declared.core_def.CoreDef.{CoreDef};
ghost use Rattle.pc_dfg.specs.declared.core_def.CoreDef.TheVariants as def;
ghost use Rattle.pc_dfg.specs.declared.dfg.ComponentDfg.{ComponentDfg};
ghost use Rattle.pc_dfg.specs.declared.instance.SideEffect.{SideEffect};
ghost use Rattle.pc_dfg.specs.Effects.{MeansEffect, EffectsMean};
ghost use Rattle.pc_dfg.specs.Empty.{empty_graph};
ghost use Rattle.pc_dfg.specs.Grows.{Grows};
ghost use Rattle.pc_dfg.specs.Instantiations.{Known, joined, many, none, one};
ghost use Rattle.pc_dfg.specs.Means.{Means, MeansOptions, MeansSlot};
ghost use Rattle.pc_dfg.specs.Nodes.{MeansItem, ExportsMean};
ghost use Rattle.pc_dfg.specs.Ordered.{IsOrdered};
ghost use Rattle.pc_dfg.specs.Told.{AreInterned, IsSigned, IsTold, Unsaid};

/// A definition keeps its value as the graph grows.
pub fn value_is_kept()
    ensures { (g h : ComponentDfg) (d : CoreDef) (v : CoreValue Mark) → Grows g h → Means g d v → Means h d v }
{}

/// Options keep their value as the graph grows.
pub fn options_are_kept()
    ensures { (g h : ComponentDfg) (o : ℕ) (v : Options Mark) → Grows g h → MeansOptions g o v
        → MeansOptions h o v }
{}

/// A side effect does what it did as the graph grows.
pub fn effect_is_kept()
    ensures { (g h : ComponentDfg) (e : SideEffect) (v : log.Entry Mark) → Grows g h
        → MeansEffect g e v → MeansEffect h e v }
{}

/// An export is what it was as the graph grows.
pub fn export_is_kept()
    ensures { (g h : ComponentDfg) (converted : ℕ → Mark) (n : ℕ) (x : ExportNode Mark) → Grows g h
        → MeansItem g converted n x → MeansItem h converted n x }
{}

/// A definition has one value.
pub fn one_value()
    ensures { (g : ComponentDfg) (d : CoreDef) (v w : CoreValue Mark) → Means g d v → Means g d w → v ≡ w }
{}

/// Options have one value.
pub fn one_value_of_options()
    ensures { (g : ComponentDfg) (o : ℕ) (v w : Options Mark) → MeansOptions g o v → MeansOptions g o w
        → v ≡ w }
{}

/// The side effects do one thing.
pub fn one_trace()
    ensures { (g : ComponentDfg) (t u : List (log.Entry Mark)) → EffectsMean g t → EffectsMean g u → t ≡ u }
{}

/// The exports of the root are one list of nodes.
pub fn one_tree()
    ensures { (g : ComponentDfg) (converted : ℕ → Mark) (xs ys : List (NamedNode Mark))
        → ExportsMean g converted xs → ExportsMean g converted ys → xs ≡ ys }
{}

/// A definition is told by its value, where what values leave out is told.
pub fn one_definition()
    ensures { (g : ComponentDfg) (u : Unsaid) (d e : CoreDef) (v : CoreValue Mark) → AreInterned g → IsTold u g
        → IsSigned u d → IsSigned u e → Means g d v → Means g e v → d ≡ e }
{}

/// Of each kind of slot, one with a value has one number.
pub fn one_slot()
    ensures { (g : ComponentDfg) (u : Unsaid) (k : SlotKind) (m n : ℕ) (v : MaybeValue Mark) → AreInterned g
        → IsTold u g → MeansSlot g k (Some m) v → MeansSlot g k (Some n) v → m ≡ n }
{}

/// Options with a value have one number.
pub fn one_number_of_options()
    ensures { (g : ComponentDfg) (u : Unsaid) (m n : ℕ) (v : Options Mark) → AreInterned g → IsTold u g
        → MeansOptions g m v → MeansOptions g n v → m ≡ n }
{}

/// A trampoline with a value has one number.
pub fn one_trampoline()
    ensures { (g : ComponentDfg) (u : Unsaid) (s t : TrampolineIndex) (v : CoreValue Mark) → AreInterned g
        → IsTold u g → Means g (def.Trampoline s) v → Means g (def.Trampoline t) v → s ≡ t }
{}

/// An adapter with a value has one number.
pub fn one_adapter()
    ensures { (g : ComponentDfg) (u : Unsaid) (a b : AdapterId) (v : CoreValue Mark) → AreInterned g → IsTold u g
        → Means g (def.Adapter a) v → Means g (def.Adapter b) v → a ≡ b }
{}

/// A graph with nothing in it is ordered.
pub fn empty_is_ordered()
    ensures { IsOrdered empty_graph }
{}

/// What is known of instantiations is a lattice under `join`: `None` lies below each list of arguments, `Many` above,
/// and different lists have nothing but `Many` above them.
pub fn instantiations_are_a_lattice()
    ensures commutative { (a b : Known) → joined a b ≡ joined b a }
    ensures associative { (a b c : Known) → joined (joined a b) c ≡ joined a (joined b c) }
    ensures idempotent { (a : Known) → joined a a ≡ a }
    ensures none { (a : Known) → joined none a ≡ a }
    ensures many { (a : Known) → joined many a ≡ many }
    ensures apart { (m n : List info.CoreDef) → ¬ (m ≡ n) → joined (one m) (one n) ≡ many }
{}
