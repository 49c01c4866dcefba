//! A map from the numbers of names.

ghost use Rattle.std.specs.Prelude.{◌≡◌, ◌<◌, ℕ, List, [], length, slice_get, Some, IfOk, OnOk, OnErr};
ghost use Rattle.std.specs.Option.{option_copied, option_map};
ghost use Rattle.pc_entity.specs.Lists.{AreDistinct, names_of};
ghost use Rattle.pc_inline_names.specs.Numbers.{AreNumbersOf, HasNumbers, numbered_value, numbers_of};
ghost use Rattle.pc_inline_names.specs.Numbers.{with_first_number};

use indexmap::IndexMap;
use pc_entity::{Atom, NoMemory, Seed, Text};
use std::alloc::Global;
use std::marker::Model;

/// A map from the numbers of names. A contract sees the list of the numbers with their values, in order.
#[derive(Drop)]
pub struct AtomMap<V> {
    entries: IndexMap<Atom, V, Seed>,
}

impl<V> Model for AtomMap<V> {
    ghost use Rattle.std.specs.Prelude.{List, nat_eq};
    ghost use Rattle.pc_entity.specs.declared.string_pool.Atom.{Atom};
    ghost use Rattle.indexmap.specs.IndexMap.{IsUnique};

    ghost Value = { List (Atom × V) };

    ghost view = { λ m. m.entries.entries };

    ghost invariant = { λ m. IsUnique (λ (a b : Atom). nat_eq a.0 b.0) m.entries };
}

impl<V> AtomMap<V> {
    /// The map with no numbers, which takes no memory.
    pub fn new(alloc: Global, seed: Seed) -> AtomMap<V>
        ensures { result ≡ [] }
    {
        AtomMap {
            entries: IndexMap::with_hasher(alloc, seed),
        }
    }

    /// The value at a number.
    pub fn get(&self, number: Atom) -> Option<&V>
        ensures { option_copied result ≡ numbered_value number self.now }
    {
        self.entries.get(&number)
    }

    /// The number of entries.
    pub fn len(&self) -> usize
        ensures { result ≡ length self.now }
    {
        self.entries.len()
    }

    /// No number stands twice.
    pub fn numbers_are_distinct(&self)
        ensures { AreDistinct (numbers_of self.now) }
    {
        let _entries = &self.entries;
    }

    /// Gives back the memory that is more than its entries take.
    pub fn shrink_to_fit(&mut self)
        ensures { self.new ≡ self.old }
    {
        self.entries.shrink_to_fit();
    }

    /// The number at a place, with its value.
    pub fn get_index(&self, place: usize) -> Option<(Atom, &V)>
        ensures { option_map (λ e. (e.0, e.1.now)) result ≡ slice_get self.now place }
    {
        match self.entries.get_index(place) {
            Some((number, value)) => Some((*number, value)),
            None => None,
        }
    }

    /// The number at a place that is held, with its value.
    pub fn entry_at(&self, place: usize) -> (Atom, &V)
        requires held { place < length self.now }
        ensures { slice_get self.now place ≡ Some (result.0, result.1.now) }
    {
        self.get_index(place).unwrap()
    }
}

impl<V: Drop> AtomMap<V> {
    /// Adds a number at the end, unless it has a value. On a refusal the value is dropped.
    pub fn insert_first(&mut self, number: Atom, value: V) -> Result<(), NoMemory>
        ensures ok { OnOk result (self.new ≡ with_first_number self.old number value) }
        ensures err { OnErr result (self.new ≡ self.old) }
    {
        if self.entries.contains_key(&number) {
            return Ok(());
        }
        self.entries.insert(number, value)?;
        Ok(())
    }
}

/// The first value under each name of some entries, by the numbers of the names.
pub fn first_numbered<V: Copy>(
    alloc: Global,
    seed: Seed,
    entries: &[(Text, V)],
    numbers: &[Atom],
) -> Result<AtomMap<V>, NoMemory>
    requires many { length numbers.now ≡ length entries.now }
    ensures { (names : List (List ℕ)) → AreDistinct names → AreNumbersOf names (names_of entries.now) numbers.now
        → IfOk result (HasNumbers names entries.now) }
{
    let mut numbered = AtomMap::new(alloc, seed);
    for (place, entry) in entries.iter().enumerate() {
        numbered.insert_first(numbers[place], entry.1)?;
    }
    Ok(numbered)
}
