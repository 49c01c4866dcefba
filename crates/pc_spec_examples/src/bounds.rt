//! What a reading can be too large for, deep values, and lists that have no reading.

ghost use Rattle.pc_spec_reading.specs.Outcome.{over, past};
ghost use Rattle.pc_spec_examples.specs.Means.{Means, DoesNotNest};
ghost use Rattle.pc_spec_examples.specs.Bounds.{too_many_names_text, shared_instances_text, nothing_done};
ghost use Rattle.pc_spec_examples.specs.Bounds.{below_the_bound_text, below_the_bound, at_the_bound_text};
ghost use Rattle.pc_spec_examples.specs.Bounds.{no_payload_text, no_end_text, behind_the_end_text, a_module_text};
ghost use Rattle.pc_spec_examples.specs.Bounds.{no_version_text, past_the_root_text};
ghost use Rattle.pc_spec_examples.specs.Deep.{deep_refusal_text, deep_refusal, two_thousand_text};

/// Each text means the outcome beside it.
pub fn are_read()
    ensures too_many_names { Means too_many_names_text past }
    ensures below_the_bound { Means below_the_bound_text below_the_bound }
    ensures at_the_bound { Means at_the_bound_text past }
    ensures shared_instances { Means shared_instances_text nothing_done }
    ensures deep_refusal { Means deep_refusal_text deep_refusal }
    ensures two_thousand { Means two_thousand_text over }
{}

/// These lists don't nest.
pub fn are_unsound()
    ensures no_payload { DoesNotNest no_payload_text }
    ensures no_end { DoesNotNest no_end_text }
    ensures behind_the_end { DoesNotNest behind_the_end_text }
    ensures a_module { DoesNotNest a_module_text }
    ensures no_version { DoesNotNest no_version_text }
    ensures past_the_root { DoesNotNest past_the_root_text }
{}
