//! Inputs without nested components and without imports.

ghost use Rattle.pc_spec_reading.specs.Outcome.{over};
ghost use Rattle.pc_spec_examples.specs.Means.{Means, ComesTo};
ghost use Rattle.pc_spec_examples.specs.Flat.{smallest_text, smallest, smallest_total, empty_root_text, empty_root};
ghost use Rattle.pc_spec_examples.specs.Flat.{post_return_text};
ghost use Rattle.pc_spec_examples.specs.Flat.{post_return, globals_at_the_limit_text, core_function_missing_text};
ghost use Rattle.pc_spec_examples.specs.Flat.{core_function_missing, lift_type_of_another_kind_text};
ghost use Rattle.pc_spec_examples.specs.Flat.{lift_type_of_another_kind, limit_zero_text};

/// Each text means the outcome beside it.
pub fn are_read()
    ensures smallest { Means smallest_text smallest }
    ensures smallest_total { ComesTo smallest_text smallest_total }
    ensures empty_root { Means empty_root_text empty_root }
    ensures post_return { Means post_return_text post_return }
    ensures globals_at_the_limit { Means globals_at_the_limit_text smallest }
    ensures core_function_missing { Means core_function_missing_text core_function_missing }
    ensures lift_type_of_another_kind { Means lift_type_of_another_kind_text lift_type_of_another_kind }
    ensures limit_zero { Means limit_zero_text over }
{}
