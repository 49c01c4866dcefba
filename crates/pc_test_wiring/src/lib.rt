//! Who gives what to whom on worked rows, in the words of `pc_spec_wiring`. A function here does nothing; its clauses
//! are the examples.
#![tactic(auto)]

ghost use Rattle.std.specs.Prelude.{◌≡◌, [], Some};
ghost use Rattle.pc_spec_wiring.specs.Confined.{IsConfined, IsConfinedRun};
ghost use Rattle.pc_spec_wiring.specs.Facts.{AreExact, RecordsSharing};
ghost use Rattle.pc_spec_wiring.specs.Known.{Known, KnownFunction, a_defined, a_function, the_flags, traps};
ghost use Rattle.pc_spec_wiring.specs.Opaque.{IsOpaqueIn, IsTransparentIn};
ghost use Rattle.pc_types.specs.declared.parsed.CoreKind.TheVariants as kind;
ghost use Rattle.pc_test_wiring.specs.Logs.{async_adapter, chain, first_adapter, handle_adapter, inner_adapter};
ghost use Rattle.pc_test_wiring.specs.Logs.{lifted_function, log, log_with_context, log_with_host, log_with_load};
ghost use Rattle.pc_test_wiring.specs.Logs.{outer_adapter};
ghost use Rattle.pc_test_wiring.specs.Memories.{IsFirstKnown, IsMemoryIn, MemoryComesFrom, steps, steps_with_host};
ghost use Rattle.pc_numbers.specs.declared.entity_index.EntityIndex.TheVariants as index;
ghost use Rattle.pc_spec_wiring.specs.FunctionTypes.{has_handle, is_async_type};
ghost use Rattle.pc_spec_wiring.specs.Origin.{defined_in};
ghost use Rattle.pc_spec_wiring.specs.Reached.{IsReached};
ghost use Rattle.pc_test_wiring.specs.OtherPlans.{exporting, making_more};
ghost use Rattle.pc_spec_plan.specs.Machine.{run};
ghost use Rattle.pc_test_wiring.specs.Runs.{last, with_adapters};
ghost use Rattle.pc_test_wiring.specs.TwoAdapters.{IsAmbiguousIn, IsFunctionIn, IsKnownIn, lowering, records};
ghost use Rattle.pc_test_wiring.specs.TwoAdapters.{adapting, facts, recorded, recorded_of_adapters, two_adapters};

/// What is known of a plan in which two adapters stand in one module: each line of its facts, and that these are all.
pub fn two_adapters_tell()
    ensures none_is_ambiguous { (x : Known) → ¬ (IsAmbiguousIn two_adapters x) }
    ensures lowered_0 { IsFunctionIn two_adapters 1 0 (a_function 2 0) }
    ensures lowered_1 { IsFunctionIn two_adapters 1 1 (a_function 2 1) }
    ensures callee_0 { IsFunctionIn two_adapters 2 0 (a_function 0 0) }
    ensures trap_0 { IsFunctionIn two_adapters 2 1 (traps 1) }
    ensures callee_1 { IsFunctionIn two_adapters 2 2 (a_function 0 0) }
    ensures trap_1 { IsFunctionIn two_adapters 2 3 (traps 1) }
    ensures lower_flags_0 { IsKnownIn two_adapters 2 kind.Global 0 (the_flags 3) }
    ensures lift_flags_0 { IsKnownIn two_adapters 2 kind.Global 1 (the_flags 1) }
    ensures lower_flags_1 { IsKnownIn two_adapters 2 kind.Global 2 (the_flags 3) }
    ensures lift_flags_1 { IsKnownIn two_adapters 2 kind.Global 3 (the_flags 2) }
    ensures exact { AreExact two_adapters records facts }
{}

/// What isn't known any longer where a module is instantiated a second way, or is exported.
pub fn less_is_known()
    ensures made_two_ways { (x : KnownFunction) → ¬ (IsFunctionIn making_more 1 0 x) }
    ensures exported { (x : KnownFunction) → ¬ (IsFunctionIn exporting 1 0 x) }
{}

/// Both function imports of the module that lowers are functions of the module of adapters. Of those of the module of
/// adapters the traps alone share a context.
pub fn contexts_are_shared()
    ensures together { RecordsSharing two_adapters records 1 lowering recorded }
    ensures exported { ¬ (RecordsSharing exporting records 1 lowering recorded) }
    ensures apart { RecordsSharing two_adapters records 2 adapting recorded_of_adapters }
{}

/// Nothing leaves a component instance but by an adapter, which is transparent unless its callee may see more.
pub fn two_adapters_are_confined()
    ensures confined { IsConfined log }
    ensures runs { run with_adapters ≡ Some last }
    ensures confined_run { IsConfinedRun with_adapters last }
    ensures transparent { IsTransparentIn log [] first_adapter }
    ensures lowers_host { IsOpaqueIn log_with_host [] 1 }
    ensures kept { ¬ (IsTransparentIn log_with_host [] first_adapter) }
{}

/// An adapter over an async function, or over one that takes a handle, keeps the state of a thread; so does one whose
/// callee may see the slots of a context.
pub fn some_adapters_are_kept()
    ensures lowered_async { ¬ (IsTransparentIn log [] async_adapter) }
    ensures takes_handle { ¬ (IsTransparentIn log [] handle_adapter) }
    ensures uses_context { IsOpaqueIn log_with_context [] 1 }
    ensures loads { ¬ (IsOpaqueIn log_with_load [] 1) }
{}

/// From an adapter its callee is reached, from there what that instance was given, and from a transparent adapter among
/// this its callee.
pub fn callees_are_reached()
    ensures callee { IsReached is_async_type has_handle chain [] outer_adapter (lifted_function 1) }
    ensures argument { IsReached is_async_type has_handle chain [] outer_adapter inner_adapter }
    ensures further { IsReached is_async_type has_handle chain [] outer_adapter (lifted_function 0) }
{}

/// A memory is known by the module that defines it, also where another module exports it again, but not where a module
/// of the host sees it.
pub fn memories_are_followed()
    ensures origin { MemoryComesFrom 1 (defined_in 0 0 (index.Memory (record { 0 = 0 }))) }
    ensures known { IsMemoryIn steps 2 (a_defined 0 kind.Memory 0) }
    ensures to_importers { IsFirstKnown steps }
    ensures seen_by_host { ¬ (IsMemoryIn steps_with_host 2 (a_defined 0 kind.Memory 0)) }
    ensures kept { ¬ (IsFirstKnown steps_with_host) }
{}
