//! The facts of the types of one kind, by number.

ghost use Rattle.std.specs.Prelude.{◌≡◌, ◌<◌, ◌++◌, ◌∷◌, [], length, slice_get, take, Some, OnOk, OnErr};

use crate::TypeFacts;
use pc_entity::NoMemory;
use std::alloc::Global;
use std::marker::Model;

/// A list of facts, which a contract sees as its items.
#[derive(Drop)]
pub struct FactList {
    items: Vec<TypeFacts>,
}

impl Model for FactList {
    ghost use Rattle.std.specs.Prelude.{List};
    ghost use Rattle.pc_types_lists.specs.declared.facts.TypeFacts.{TypeFacts};

    ghost Value = { List TypeFacts };

    ghost view = { λ s. s.items.items };
}

impl FactList {
    /// The empty list, which takes no memory.
    pub fn new(alloc: Global) -> FactList
        ensures { result ≡ [] }
    {
        FactList {
            items: Vec::new(alloc),
        }
    }

    /// The facts of number `i`.
    pub fn get(&self, i: u32) -> TypeFacts
        requires held { i < length self.now }
        ensures { slice_get self.now i ≡ Some result }
    {
        self.items[i as usize]
    }

    /// Adds the facts of the next number. On a refusal the list stays as it was.
    pub fn push(&mut self, facts: TypeFacts) -> Result<(), NoMemory>
        ensures ok { OnOk result (self.new ≡ self.old ++ facts ∷ []) }
        ensures err { OnErr result (self.new ≡ self.old) }
    {
        self.items.push(facts)?;
        Ok(())
    }

    /// Only the first `n` stay.
    pub fn truncate(&mut self, n: usize)
        ensures { self.new ≡ take n self.old }
    {
        self.items.truncate(n);
    }
}
