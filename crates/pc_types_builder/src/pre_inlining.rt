//! The types builder before inlining.

ghost use Rattle.std.specs.Prelude.{◌≡◌};
ghost use Rattle.std.specs.Borrow.{sem};
ghost use Rattle.pc_types_builder.specs.LendingTypes.{LendsTypes};

use crate::ComponentTypesBuilder;

/// A types builder that was lent to a translation. It is read until inlining begins, and changed from then on.
#[derive(Drop)]
pub struct PreInliningComponentTypes<'a> {
    types: &'a mut ComponentTypesBuilder,
}

impl<'a> PreInliningComponentTypes<'a> {
    /// The builder, lent until inlining begins.
    pub fn new(types: &'a mut ComponentTypesBuilder) -> Self
        ensures same_builder { result.types.ghost_name ≡ types.entry.ghost_name }
        ensures types { result.types.now ≡ types.old }
    {
        PreInliningComponentTypes { types }
    }

    /// The types, to be read.
    pub fn types(&self) -> &ComponentTypesBuilder
        ensures { result.now ≡ self.now.types.now }
    {
        self.types
    }

    /// The types, to be changed by what inlines components.
    pub fn types_mut_for_inlining(&mut self) -> &mut ComponentTypesBuilder
        ensures* writes_back { sem 𝓛 (LendsTypes self.entry result) }
        ensures value { result.now ≡ self.old.types.now }
    {
        self.types
    }
}
