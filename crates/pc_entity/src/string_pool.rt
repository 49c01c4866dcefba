//! A list of distinct texts, in which equal texts share a number.

ghost use Rattle.std.specs.Prelude.{◌≡◌, ◌++◌, ◌∷◌, ◌<◌, ◌⊎◌, [], length, slice_get, Contains, Some, IfSome, IfNone};
ghost use Rattle.std.specs.Prelude.{IfOk, OnOk, OnErr};
ghost use Rattle.std.proofs.Common.{refl, rules};
ghost use Rattle.pc_entity.specs.Lists.{AreDistinct};

use crate::{NoMemory, Seed};
use indexmap::IndexSet;
use pc_numbers::EntityRef;
use std::alloc::Global;
use std::marker::Model;

/// The number of a text in a pool.
#[derive(Clone, Copy, PartialEq, Eq, PartialOrd, Ord, Hash)]
pub struct Atom(pub u32);

impl EntityRef for Atom {
    ghost number = { λ k. k.0 };

    ghost of_number = { λ n. record { 0 = n } };

    ghost number_of_number = { λ _. refl };

    ghost of_number_number = { λ _. refl };

    ghost exact = { Prim.search rules };

    fn from_u32(n: u32) -> Atom {
        Atom(n)
    }

    fn as_u32(self) -> u32 {
        self.0
    }
}

/// A list of distinct texts, where a text that is added again keeps its number. A contract sees the list.
#[derive(Drop)]
pub struct StringPool {
    texts: IndexSet<String, Seed>,
}

impl Model for StringPool {
    ghost use Rattle.std.specs.Prelude.{◌≤◌, ℕ, List, length, map};
    ghost use Rattle.std.specs.String.{string_bytes, string_eq};
    ghost use Rattle.indexmap.specs.IndexSet.{IsUnique};

    ghost Value = { List (List ℕ) };

    ghost view = { λ p. map string_bytes p.texts.keys };

    ghost invariant = { λ p. IsUnique string_eq p.texts × (length p.texts.keys ≤ 4294967295) };
}

impl StringPool {
    /// The pool with no texts, which takes no memory.
    pub fn new(alloc: Global, seed: Seed) -> StringPool
        ensures { result ≡ [] }
    {
        StringPool {
            texts: IndexSet::with_hasher(alloc, seed),
        }
    }

    /// The number of `text`, which is added at the end unless it is held. No copy is made of a text that is held.
    pub fn insert(&mut self, text: &str) -> Result<Atom, NoMemory>
        requires room { length self.old < 4294967295 }
        ensures held { IfOk result (λ atom. slice_get self.new atom.0 ≡ Some text.now) }
        ensures grows { OnOk result ((self.new ≡ self.old) ⊎ (self.new ≡ self.old ++ text.now ∷ [])) }
        ensures present { OnOk result (Contains self.old text.now → self.new ≡ self.old) }
        ensures distinct { AreDistinct self.new }
        ensures err { OnErr result (self.new ≡ self.old) }
    {
        if let Some(atom) = self.get_atom(text) {
            return Ok(atom);
        }
        let (place, _) = self
            .texts
            .insert_full(String::from_str(*self.texts.allocator(), text)?)?;
        Ok(Atom(place as u32))
    }

    /// The number of `text`, if it is held.
    pub fn get_atom(&self, text: &str) -> Option<Atom>
        ensures found { IfSome result (λ atom. slice_get self.now atom.0 ≡ Some text.now) }
        ensures absent { IfNone result (¬ Contains self.now text.now) }
    {
        match self.texts.get_index_of(text) {
            Some(place) => Some(Atom(place as u32)),
            None => None,
        }
    }

    /// The text of number `atom`.
    pub fn text(&self, atom: Atom) -> &str
        requires held { atom.0 < length self.now }
        ensures { slice_get self.now atom.0 ≡ Some result.now }
    {
        self.texts[atom.0 as usize].as_str()
    }

    /// The number of texts. No two are equal.
    pub fn len(&self) -> usize
        ensures len { result ≡ length self.now }
        ensures distinct { AreDistinct self.now }
    {
        self.texts.len()
    }
}
