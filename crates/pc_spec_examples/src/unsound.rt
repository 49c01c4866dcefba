//! Static faults: what is refused whatever it would do, and where.

ghost use Rattle.pc_types.specs.declared.error.Error.TheVariants as error;
ghost use Rattle.pc_types.specs.declared.error.Place.TheVariants as place;
ghost use Rattle.pc_types.specs.declared.error.Unsupported.TheVariants as refusal;
ghost use Rattle.pc_spec_examples.specs.Adapters.{two_adapters_text};
ghost use Rattle.pc_spec_examples.specs.Flat.{smallest_text, globals_at_the_limit_text};
ghost use Rattle.pc_spec_examples.specs.Functions.{intrinsic_aliased_text};
ghost use Rattle.pc_spec_examples.specs.Nested.{bad_capture_text};
ghost use Rattle.pc_spec_examples.specs.StaticRows.{IsFaulty, IsFaultless, malformed_at, unsupported_at, badly_declared};
ghost use Rattle.pc_spec_examples.specs.StaticRows.{twice_at};
ghost use Rattle.pc_spec_examples.specs.StaticRows.{entry_names_itself_text, export_name_twice_text, future_forward_text};
ghost use Rattle.pc_spec_examples.specs.StaticRows.{payload_after_end_text, list_ends_early_text, no_payloads_text};
ghost use Rattle.pc_spec_examples.specs.StaticRows.{too_many_globals_text, intrinsic_of_another_type_text};
ghost use Rattle.pc_spec_examples.specs.StaticKinds.{module_root_text, module_inside_text, late_module_text};
ghost use Rattle.pc_spec_examples.specs.StaticKinds.{no_beginning_text, start_section_text, outer_past_root_text};
ghost use Rattle.pc_spec_examples.specs.StaticKinds.{spawn_text, context_type_text, value_alias_text, value_argument_text};
ghost use Rattle.pc_spec_examples.specs.StaticKinds.{import_twice_text, export_in_two_text, items_twice_text};
ghost use Rattle.pc_spec_examples.specs.StaticKinds.{value_in_table_text, intrinsic_by_entry_text, intrinsics_missing_text};
ghost use Rattle.pc_spec_examples.specs.StaticKinds.{intrinsics_as_type_text, no_intrinsic_text, intrinsics_resource_text};
ghost use Rattle.pc_spec_examples.specs.StaticKinds.{nested_name_text};

/// Each text has the fault beside it.
pub fn rows_are_refused()
    ensures entry_names_itself { IsFaulty entry_names_itself_text (error.BadTable (place.Table 0)) }
    ensures export_name_twice { IsFaulty export_name_twice_text (twice_at 5 1) }
    ensures future_forward { IsFaulty future_forward_text (unsupported_at refusal.FutureForward 1 0) }
    ensures payload_after_end { IsFaulty payload_after_end_text (malformed_at 2 0) }
    ensures list_ends_early { IsFaulty list_ends_early_text (malformed_at 1 0) }
    ensures no_payloads { IsFaulty no_payloads_text (malformed_at 0 0) }
    ensures too_many_globals { IsFaulty too_many_globals_text (error.BadTable (place.Payload 1 0)) }
    ensures intrinsic_of_another_type { IsFaulty intrinsic_of_another_type_text (badly_declared 1 0) }
{}

/// These rows have none.
pub fn rows_are_let_through()
    ensures smallest { IsFaultless smallest_text }
    ensures globals_at_the_limit { IsFaultless globals_at_the_limit_text }
    ensures two_adapters { IsFaultless two_adapters_text }
    ensures intrinsic_aliased { IsFaultless intrinsic_aliased_text }
    ensures bad_capture { IsFaultless bad_capture_text }
{}

/// Faults of the structure, and of what isn't supported.
pub fn kinds_are_refused()
    ensures module_root { IsFaulty module_root_text (unsupported_at refusal.Module 0 0) }
    ensures module_inside { IsFaulty module_inside_text (unsupported_at refusal.Module 2 0) }
    ensures late_module { IsFaulty late_module_text (malformed_at 1 0) }
    ensures no_beginning { IsFaulty no_beginning_text (malformed_at 2 0) }
    ensures start_section { IsFaulty start_section_text (unsupported_at refusal.StartSection 2 0) }
    ensures outer_past_root { IsFaulty outer_past_root_text (malformed_at 3 2) }
    ensures spawn { IsFaulty spawn_text (unsupported_at refusal.ThreadSpawn 1 1) }
    ensures context_type { IsFaulty context_type_text (unsupported_at refusal.ContextSetType 1 0) }
    ensures value_alias { IsFaulty value_alias_text (unsupported_at refusal.ComponentValue 1 0) }
    ensures value_argument { IsFaulty value_argument_text (unsupported_at refusal.ComponentValue 1 0) }
    ensures value_in_table { IsFaulty value_in_table_text (error.Unsupported refusal.ComponentValue (place.Table 0)) }
{}

/// Names that stand twice, and the declaration of the unsafe intrinsics.
pub fn names_are_refused()
    ensures import_twice { IsFaulty import_twice_text (twice_at 3 1) }
    ensures export_in_two { IsFaultless export_in_two_text }
    ensures items_twice { IsFaulty items_twice_text (twice_at 1 0) }
    ensures intrinsic_by_entry { IsFaultless intrinsic_by_entry_text }
    ensures intrinsics_missing { IsFaulty intrinsics_missing_text (badly_declared 1 1) }
    ensures intrinsics_as_type { IsFaulty intrinsics_as_type_text (badly_declared 1 0) }
    ensures no_intrinsic { IsFaulty no_intrinsic_text (error.UnknownIntrinsic (place.Payload 1 0)) }
    ensures intrinsics_resource { IsFaulty intrinsics_resource_text (badly_declared 1 0) }
    ensures nested_name { IsFaultless nested_name_text }
{}
