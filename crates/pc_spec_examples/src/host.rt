//! Inputs with imports of the root.

ghost use Rattle.pc_spec_examples.specs.Means.{Means};
ghost use Rattle.pc_spec_examples.specs.UsualTools.{usual_tools_text, usual_tools};
ghost use Rattle.pc_spec_examples.specs.Host.{host_lowering_text, host_lowering, realloc_is_a_lowering_text};
ghost use Rattle.pc_spec_examples.specs.Host.{realloc_is_a_lowering, host_module_text, host_module, host_resource_text};
ghost use Rattle.pc_spec_examples.specs.Host.{host_resource, component_import_text, component_import, re_export_text};
ghost use Rattle.pc_spec_examples.specs.Host.{re_export, re_export_beside_text, re_export_beside};

/// Each text means the outcome beside it.
pub fn are_read()
    ensures host_lowering { Means host_lowering_text host_lowering }
    ensures realloc_is_a_lowering { Means realloc_is_a_lowering_text realloc_is_a_lowering }
    ensures host_module { Means host_module_text host_module }
    ensures host_resource { Means host_resource_text host_resource }
    ensures component_import { Means component_import_text component_import }
    ensures usual_tools { Means usual_tools_text usual_tools }
    ensures re_export { Means re_export_text re_export }
    ensures re_export_beside { Means re_export_beside_text re_export_beside }
{}
