//! Names that were met, to tell whether one is met again.

ghost use Rattle.std.specs.Prelude.{◌≡◌, ℕ, List, ◌||◌, [], not, IfOk, OnOk, OnErr};
ghost use Rattle.std.specs.List.{list_any};
ghost use Rattle.std.specs.Str.{bytes_eq};
ghost use Rattle.pc_types.specs.Names.{has_name, same_pair};

use indexmap::IndexSet;
use pc_entity::{NoMemory, Seed, Text};
use std::alloc::Global;
use std::marker::Model;

/// A set of names that lie elsewhere. A contract sees them as a list.
#[derive(Drop)]
pub struct NameSet<'a> {
    names: IndexSet<&'a str, Seed>,
}

impl<'a> Model for NameSet<'a> {
    ghost use Rattle.std.specs.Prelude.{ℕ, List, map};

    ghost Value = { List (List ℕ) };

    ghost view = { λ s. map (λ name. name.now) s.names.keys };
}

impl<'a> NameSet<'a> {
    /// The set with no names, which takes no memory.
    pub fn new(alloc: Global, seed: Seed) -> NameSet<'a>
        ensures { result ≡ [] }
    {
        NameSet {
            names: IndexSet::with_hasher(alloc, seed),
        }
    }

    /// Adds a name, and answers whether it is new.
    pub fn insert(&mut self, name: &'a Text) -> Result<bool, NoMemory>
        ensures added { IfOk result (λ is_new. is_new ≡ not (has_name self.old name.now)) }
        ensures names { OnOk result ((q : List ℕ)
            → has_name self.new q ≡ (bytes_eq q name.now || has_name self.old q)) }
        ensures err { OnErr result (self.new ≡ self.old) }
    {
        Ok(self.names.insert(name.as_str())?)
    }
}

/// A set of pairs of names that lie elsewhere. A contract sees them as a list.
#[derive(Drop)]
pub struct PairSet<'a> {
    pairs: IndexSet<(&'a str, &'a str), Seed>,
}

impl<'a> Model for PairSet<'a> {
    ghost use Rattle.std.specs.Prelude.{ℕ, List, map};

    ghost Value = { List (List ℕ × List ℕ) };

    ghost view = { λ s. map (λ pair. (pair.0.now, pair.1.now)) s.pairs.keys };
}

impl<'a> PairSet<'a> {
    /// The set with no pairs, which takes no memory.
    pub fn new(alloc: Global, seed: Seed) -> PairSet<'a>
        ensures { result ≡ [] }
    {
        PairSet {
            pairs: IndexSet::with_hasher(alloc, seed),
        }
    }

    /// Adds a pair of names, and answers whether it is new.
    pub fn insert(&mut self, first: &'a Text, second: &'a Text) -> Result<bool, NoMemory>
        ensures added { IfOk result (λ is_new. is_new ≡ not (list_any (same_pair (first.now, second.now)) self.old)) }
        ensures pairs { OnOk result ((q : List ℕ × List ℕ)
            → list_any (same_pair q) self.new
            ≡ (same_pair q (first.now, second.now) || list_any (same_pair q) self.old)) }
        ensures err { OnErr result (self.new ≡ self.old) }
    {
        Ok(self.pairs.insert((first.as_str(), second.as_str()))?)
    }
}
