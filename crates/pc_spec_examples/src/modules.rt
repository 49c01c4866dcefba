//! Core modules, core instances and core aliases.

ghost use Rattle.pc_spec_examples.specs.Means.{Means};
ghost use Rattle.pc_spec_examples.specs.Modules.{host_items_text, host_items, argument_missing_text, argument_missing};
ghost use Rattle.pc_spec_examples.specs.Modules.{memory_for_a_function_text, memory_for_a_function, idle_argument_text};
ghost use Rattle.pc_spec_examples.specs.Modules.{alias_of_another_kind_text, alias_stuck, alias_missing_text, bag_text};
ghost use Rattle.pc_spec_examples.specs.Modules.{module_type_text, bad_module_type, instance_type_text, instance_item_text};
ghost use Rattle.pc_spec_examples.specs.Modules.{missing_item};

/// Each text means the outcome beside it.
pub fn are_read()
    ensures host_items { Means host_items_text host_items }
    ensures argument_missing { Means argument_missing_text argument_missing }
    ensures memory_for_a_function { Means memory_for_a_function_text memory_for_a_function }
    ensures idle_argument { Means idle_argument_text argument_missing }
    ensures alias_of_another_kind { Means alias_of_another_kind_text alias_stuck }
    ensures alias_missing { Means alias_missing_text alias_stuck }
    ensures bag { Means bag_text argument_missing }
    ensures module_type { Means module_type_text bad_module_type }
    ensures instance_type { Means instance_type_text bad_module_type }
    ensures instance_item { Means instance_item_text missing_item }
{}
