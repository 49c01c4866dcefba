//! Inputs with nested components.

ghost use Rattle.pc_spec_reading.specs.Outcome.{over};
ghost use Rattle.pc_spec_examples.specs.Means.{Means};
ghost use Rattle.pc_spec_examples.specs.Nested.{two_children_text, two_children, instantiated_twice_text};
ghost use Rattle.pc_spec_examples.specs.Nested.{instantiated_twice, type_import_text, argument_of_another_kind_text};
ghost use Rattle.pc_spec_examples.specs.Nested.{argument_of_another_kind, component_missing_text, component_missing};
ghost use Rattle.pc_spec_examples.specs.Nested.{capture_text, capture, bad_capture_text, bad_capture, self_application_text};

/// Each text means the outcome beside it.
pub fn are_read()
    ensures two_children { Means two_children_text two_children }
    ensures instantiated_twice { Means instantiated_twice_text instantiated_twice }
    ensures type_import { Means type_import_text instantiated_twice }
    ensures argument_of_another_kind { Means argument_of_another_kind_text argument_of_another_kind }
    ensures component_missing { Means component_missing_text component_missing }
    ensures capture { Means capture_text capture }
    ensures bad_capture { Means bad_capture_text bad_capture }
    ensures self_application { Means self_application_text over }
{}
