//! What the root exports, and what it can't.

ghost use Rattle.pc_spec_examples.specs.Means.{Means};
ghost use Rattle.pc_spec_examples.specs.Exports.{instance_export_text, instance_export, module_and_type_text};
ghost use Rattle.pc_spec_examples.specs.Exports.{module_and_type, host_tree_text, host_tree};
ghost use Rattle.pc_spec_examples.specs.Exports.{host_function_inside_text};
ghost use Rattle.pc_spec_examples.specs.Exports.{host_function_inside, host_function_aliased_text, host_function_aliased};
ghost use Rattle.pc_spec_examples.specs.Refused.{intrinsic_exported_text, intrinsic_exported, intrinsics_exported_text};
ghost use Rattle.pc_spec_examples.specs.Refused.{intrinsics_exported, component_exported_text, component_exported};
ghost use Rattle.pc_spec_examples.specs.Refused.{host_component_text, host_component, export_missing_text};
ghost use Rattle.pc_spec_examples.specs.Refused.{export_missing, export_type_missing_text, export_type_missing};

/// Each text means the outcome beside it.
pub fn are_read()
    ensures instance_export { Means instance_export_text instance_export }
    ensures module_and_type { Means module_and_type_text module_and_type }
    ensures host_tree { Means host_tree_text host_tree }
    ensures host_function_inside { Means host_function_inside_text host_function_inside }
    ensures host_function_aliased { Means host_function_aliased_text host_function_aliased }
{}

/// Each text is refused as stands beside it.
pub fn are_refused()
    ensures intrinsic_exported { Means intrinsic_exported_text intrinsic_exported }
    ensures intrinsics_exported { Means intrinsics_exported_text intrinsics_exported }
    ensures component_exported { Means component_exported_text component_exported }
    ensures host_component { Means host_component_text host_component }
    ensures export_missing { Means export_missing_text export_missing }
    ensures export_type_missing { Means export_type_missing_text export_type_missing }
{}
