//! Options of functions, and unsafe intrinsics.

ghost use Rattle.pc_spec_examples.specs.Means.{Means};
ghost use Rattle.pc_spec_examples.specs.Functions.{options_twice_text, options_twice, gc_text, gc_options};
ghost use Rattle.pc_spec_examples.specs.Functions.{memory_twice_text, option_missing, gc_realloc_text};
ghost use Rattle.pc_spec_examples.specs.Functions.{intrinsic_aliased_text, intrinsic_aliased, unknown_intrinsic_text};
ghost use Rattle.pc_spec_examples.specs.Functions.{unknown_alias, intrinsic_lowered_text, intrinsic_lowered};

/// Each text means the outcome beside it.
pub fn are_read()
    ensures options_twice { Means options_twice_text options_twice }
    ensures gc { Means gc_text gc_options }
    ensures memory_twice { Means memory_twice_text option_missing }
    ensures gc_realloc { Means gc_realloc_text option_missing }
    ensures intrinsic_aliased { Means intrinsic_aliased_text intrinsic_aliased }
    ensures unknown_intrinsic { Means unknown_intrinsic_text unknown_alias }
    ensures intrinsic_lowered { Means intrinsic_lowered_text intrinsic_lowered }
{}
