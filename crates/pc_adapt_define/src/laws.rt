//! Laws of the definitions that stand for the imports of an adapter. Each function does nothing: its contract is the
//! law.

ghost use Rattle.std.specs.Prelude.{◌≡◌, ℕ, Bool, List, All, Contains, Some, slice_get};
ghost use Rattle.std.specs.List.{AllZip};
ghost use Rattle.pc_numbers.specs.declared.entity_index.EntityIndex.{EntityIndex};
ghost use Rattle.pc_numbers.specs.declared.module_entity.ModuleInternedTypeIndex.{ModuleInternedTypeIndex};
ghost use Rattle.pc_spec_plan.specs.CoreValue.{CoreValue};
ghost use Rattle.pc_spec_plan.specs.PlanView.{SlotKind};
ghost use Rattle.pc_trampoline.specs.declared.part.Mark.{Mark};
ghost use Rattle.pc_dfg.specs.declared.adapter.Adapter.{Adapter};
ghost use Rattle.pc_dfg.specs.declared.core_def.CoreDef.{CoreDef};
ghost use Rattle.pc_dfg.specs.declared.core_def.CoreDef.TheVariants as def;
ghost use Rattle.pc_dfg.specs.declared.core_def.CoreExport.{CoreExport};
ghost use Rattle.pc_dfg.specs.declared.dfg.ComponentDfg.{ComponentDfg};
ghost use Rattle.pc_dfg.specs.declared.ids.AdapterId.{AdapterId};
ghost use Rattle.pc_dfg.specs.Held.{IsHeld};
ghost use Rattle.pc_dfg.specs.Means.{Means};
ghost use Rattle.pc_dfg.specs.Names.{in_adapter, OneNames, Thing};
ghost use Rattle.pc_dfg.specs.Ordered.{IsOrdered};
ghost use Rattle.pc_spec_adapt.specs.Asked.{FunctionFacts};
ghost use Rattle.pc_spec_adapt.specs.Planned.{planned};
ghost use Rattle.pc_adapt.specs.Imports.{imports_of};
ghost use Rattle.pc_adapt.specs.Planned.{is_wide};
ghost use Rattle.pc_adapt_define.specs.Adds.{Adds};
ghost use Rattle.pc_adapt_define.specs.Define.{AreDefined, in_import};
ghost use Rattle.pc_adapt_define.specs.Only.{AddsOwn, own_slots};

/// The imports of an adapter of an ordered graph are held, as `define_all` asks.
pub fn imports_are_held()
    ensures { (g : ComponentDfg) (a : ℕ) (x : Adapter) (lift lower : FunctionFacts) (transparent : Bool) → IsOrdered g
        → slice_get g.adapters a ≡ Some x
        → All (λ i. All (IsHeld g) (in_import i)) (imports_of lift lower transparent x) }
{}

/// What stands for the imports of an adapter has, one by one, the values that are planned for it.
pub fn arguments_are_planned()
    ensures { (g h : ComponentDfg) (a : AdapterId) (x : Adapter) (v : CoreValue Mark) (lift lower : FunctionFacts)
        (transparent : Bool)
        (before after : List CoreDef) → slice_get g.adapters a.0 ≡ Some x → Means g (def.Adapter a) v
        → (all : AreDefined g h x.lower_options.core_type (imports_of lift lower transparent x) before after)
        → AllZip (λ d p. Means h d p.value) all.defs
        (planned lift lower transparent (is_wide x.lift_options.data_model) (is_wide x.lower_options.data_model) v) }
{}

/// It names nothing but what the adapter named.
pub fn arguments_name_no_more()
    ensures { (g h : ComponentDfg) (x : Adapter) (lift lower : FunctionFacts) (transparent : Bool)
        (before after : List CoreDef) (y : Thing)
        → IsOrdered g → (all : AreDefined g h x.lower_options.core_type
        (imports_of lift lower transparent x) before after)
        → OneNames h all.defs y → OneNames g (in_adapter x) y }
{}

/// It costs few entries: at most nine memories, one callback, one post-return function and twelve trampolines.
pub fn arguments_add_few()
    ensures { (g h : ComponentDfg) (s : ModuleInternedTypeIndex) (x : Adapter) (lift lower : FunctionFacts)
        (transparent : Bool)
        (before after : List CoreDef) → AreDefined g h s (imports_of lift lower transparent x) before after
        → Adds 9 1 1 12 g h }
{}

/// It adds slots only for the memories of the adapter, and for callback and post-return function of the lift.
pub fn arguments_add_their_own()
    ensures { (g h : ComponentDfg) (a : ℕ) (x : Adapter) (lift lower : FunctionFacts) (transparent : Bool)
        (before after : List CoreDef)
        → slice_get g.adapters a ≡ Some x
        → AreDefined g h x.lower_options.core_type (imports_of lift lower transparent x) before after → AddsOwn g h }
{}

/// These stand in the adapter.
pub fn own_slots_stand()
    ensures { (x : Adapter) (k : SlotKind) (d : CoreDef) → Contains (own_slots x k) d → Contains (in_adapter x) d }
{}

/// What it takes from core instances stands in the adapter too.
pub fn arguments_take_their_own()
    ensures { (g h : ComponentDfg) (x : Adapter) (lift lower : FunctionFacts) (transparent : Bool)
        (before after : List CoreDef)
        (e : CoreExport EntityIndex)
        → (all : AreDefined g h x.lower_options.core_type (imports_of lift lower transparent x) before after)
        → Contains all.defs (def.Export e) → Contains (in_adapter x) (def.Export e) }
{}
