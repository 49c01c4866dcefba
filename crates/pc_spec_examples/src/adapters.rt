//! Inputs in which a lifted function is lowered.

ghost use Rattle.pc_spec_examples.specs.Means.{Means};
ghost use Rattle.pc_spec_examples.specs.Adapters.{two_adapters_text, two_adapters, chain_text, chain, async_lower_text};
ghost use Rattle.pc_spec_examples.specs.Adapters.{async_lower};
ghost use Rattle.pc_spec_examples.specs.EqualAdapters.{equal_adapters_text, equal_adapters};
ghost use Rattle.pc_spec_examples.specs.AdapterParts.{realloc_is_an_adapter_text, realloc_is_an_adapter, destructor_text};
ghost use Rattle.pc_spec_examples.specs.AdapterParts.{destructor};
ghost use Rattle.pc_spec_examples.specs.Strings.{strings_text, strings, strings_without_realloc_text};
ghost use Rattle.pc_spec_examples.specs.Strings.{strings_without_realloc};

/// Each text means the outcome beside it.
pub fn are_read()
    ensures two_adapters { Means two_adapters_text two_adapters }
    ensures chain { Means chain_text chain }
    ensures equal_adapters { Means equal_adapters_text equal_adapters }
    ensures async_lower { Means async_lower_text async_lower }
{}

/// Likewise, where an adapter is a part of something.
pub fn parts_are_read()
    ensures realloc_is_an_adapter { Means realloc_is_an_adapter_text realloc_is_an_adapter }
    ensures destructor { Means destructor_text destructor }
{}

/// Likewise, where a string goes from one encoding to another.
pub fn strings_are_read()
    ensures strings { Means strings_text strings }
    ensures strings_without_realloc { Means strings_without_realloc_text strings_without_realloc }
{}
