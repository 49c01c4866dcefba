//! Imports, and aliases of what a host instance has.

ghost use Rattle.pc_spec_examples.specs.Means.{Means};
ghost use Rattle.pc_spec_examples.specs.Imports.{host_alias_text, host_alias, defined_import_text, defined_import};
ghost use Rattle.pc_spec_examples.specs.Imports.{component_alias_text, component_alias, component_as_func_text};
ghost use Rattle.pc_spec_examples.specs.Imports.{component_as_type_text, alias_missing_text, alias_missing};
ghost use Rattle.pc_spec_examples.specs.Imports.{alias_of_another_kind_text, prepared_first_text, prepared_first};
ghost use Rattle.pc_spec_examples.specs.Imports.{nothing_given_text, nothing_given, no_resource_given_text};
ghost use Rattle.pc_spec_examples.specs.Imports.{no_resource_text, no_resource};

/// Each text means the outcome beside it.
pub fn are_read()
    ensures host_alias { Means host_alias_text host_alias }
    ensures defined_import { Means defined_import_text defined_import }
    ensures component_alias { Means component_alias_text component_alias }
    ensures component_as_func { Means component_as_func_text component_alias }
    ensures component_as_type { Means component_as_type_text component_alias }
    ensures alias_missing { Means alias_missing_text alias_missing }
    ensures alias_of_another_kind { Means alias_of_another_kind_text alias_missing }
    ensures prepared_first { Means prepared_first_text prepared_first }
    ensures nothing_given { Means nothing_given_text nothing_given }
    ensures no_resource_given { Means no_resource_given_text nothing_given }
    ensures no_resource { Means no_resource_text no_resource }
{}
