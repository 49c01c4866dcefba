//! What an adapter is asked for, what its module imports for it, and what the module is, computed on worked rows by the
//! definitions of `pc_spec_adapt`. A function here does nothing; its clauses are the examples.
#![tactic(auto)]

ghost use Rattle.std.specs.Prelude.{◌≡◌, ◌∷◌, [], true, false};
ghost use Rattle.pc_spec_adapt.specs.Asked.{has_options};
ghost use Rattle.pc_spec_adapt.specs.Planned.{planned};
ghost use Rattle.pc_spec_adapt.specs.Record.{module_of, records_of};
ghost use Rattle.pc_test_adapt.specs.Async.{async_adapter, async_imports, handles};
ghost use Rattle.pc_test_adapt.specs.Strings.{no_realloc, of_strings, string_adapter, string_imports, string_module};
ghost use Rattle.pc_test_adapt.specs.Strings.{string_record};
ghost use Rattle.pc_test_adapt.specs.Two.{no_memory, of_nothing, sync_imports, two_members, two_module};
ghost use Rattle.pc_test_adapt.specs.Two.{two_records};
ghost use Rattle.pc_test_adapt.specs.Words.{same};

/// A lift of compact utf16 takes a string from a lowering of utf8: it is asked for a memory and a realloc.
pub fn strings_are_moved()
    ensures asked { has_options of_strings of_strings string_adapter ≡ true }
    ensures lacks { has_options of_strings of_strings no_realloc ≡ false }
    ensures imports { planned of_strings of_strings true false false string_adapter ≡ string_imports }
    ensures core_module { module_of same
        (record { number = 0; adapter = string_adapter; imports = string_imports } ∷ []) ≡ string_module }
    ensures places { records_of same 3
        (record { number = 0; adapter = string_adapter; imports = string_imports } ∷ []) ≡ string_record ∷ [] }
{}

/// Two adapters of functions that take and give nothing, in one module.
pub fn two_share_a_module()
    ensures asked { has_options of_nothing of_nothing no_memory ≡ true }
    ensures imports { planned of_nothing of_nothing false false false no_memory ≡ sync_imports }
    ensures core_module { module_of same two_members ≡ two_module }
    ensures places { records_of same 2 two_members ≡ two_records }
{}

/// An async call through an adapter of a function that takes handles of two kinds and gives one of a third.
pub fn async_calls_are_prepared()
    ensures imports { planned handles of_nothing false true false async_adapter ≡ async_imports }
{}
