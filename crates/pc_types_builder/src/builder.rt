//! The types builder.

ghost use Rattle.std.specs.Prelude.{◌≡◌};
ghost use Rattle.std.specs.Borrow.{sem};
ghost use Rattle.pc_types_lists.specs.Types.{IsBuilder, held, no_types};
ghost use Rattle.pc_types_builder.specs.Lending.{LendsResources};
ghost use Rattle.pc_types_builder.specs.Trees.{AreOneToOne};
ghost use Rattle.pc_types.specs.TypeTree.{Identity};
ghost use Rattle.pc_numbers.specs.declared.runtime.ResourceIndex.{ResourceIndex};

use pc_entity::Seed;
use pc_types::TypeKind;
use pc_types_lists::{InternedTypes, ResourcesBuilder};
use std::alloc::Global;
use std::marker::Model;

/// The interned types, and the conversions that put types into their lists.
#[derive(Drop)]
pub struct ComponentTypesBuilder {
    pub(crate) interned: InternedTypes,
}

impl Model for ComponentTypesBuilder {
    ghost use Rattle.pc_types_lists.specs.Types.{Types};

    ghost Value = { Types };

    ghost view = { λ s. s.interned };
}

impl ComponentTypesBuilder {
    /// The builder with no types, which takes no memory.
    pub fn new(alloc: Global, seed: Seed) -> ComponentTypesBuilder
        ensures { result ≡ no_types }
    {
        ComponentTypesBuilder {
            interned: InternedTypes::new(alloc, seed),
        }
    }

    /// No list is past its bound, and no two types of a kind are equal: equal types share a number.
    pub fn types_are_distinct(&self)
        ensures { IsBuilder self.now }
    {
        self.interned.types_are_distinct();
    }

    /// One tree has one number, and one number has one tree, however resources are named that have names of their own.
    pub fn numbers_are_trees(&self)
        ensures { (who : ResourceIndex → Identity) → ((r s : ResourceIndex) → who r ≡ who s → r ≡ s)
            → AreOneToOne self.now who }
    {
        self.types_are_distinct();
    }

    /// The seed that the places in its lists depend on.
    pub fn seed(&self) -> Seed {
        self.interned.seed()
    }

    /// The registered resources.
    pub fn resources(&self) -> &ResourcesBuilder
        ensures { result.now ≡ self.now.resources }
    {
        self.interned.resources()
    }

    /// The registered resources, to be changed.
    pub fn resources_mut(&mut self) -> &mut ResourcesBuilder
        ensures* writes_back { sem 𝓛 (LendsResources self.entry result) }
        ensures value { result.now ≡ self.old.resources }
    {
        self.interned.resources_mut()
    }

    /// How many types of a kind are held. The numbers below it name them.
    pub fn held(&self, kind: TypeKind) -> usize
        ensures { result ≡ held self.now kind }
    {
        self.interned.held(kind)
    }
}
