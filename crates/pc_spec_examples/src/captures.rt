//! What a component captures, and when.

ghost use Rattle.pc_spec_examples.specs.Means.{Means};
ghost use Rattle.pc_spec_examples.specs.Captures.{later_module_text, later_module, own_component_text, sibling_text};
ghost use Rattle.pc_spec_examples.specs.Captures.{sibling, inner_capture_text, inner_capture, type_aliases_text};
ghost use Rattle.pc_spec_examples.specs.Captures.{type_aliases};

/// Each text means the outcome beside it.
pub fn are_read()
    ensures later_module { Means later_module_text later_module }
    ensures own_component { Means own_component_text later_module }
    ensures sibling { Means sibling_text sibling }
    ensures inner_capture { Means inner_capture_text inner_capture }
    ensures type_aliases { Means type_aliases_text type_aliases }
{}
