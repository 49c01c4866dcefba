//! The numbers that entries of a list have in a plan, so far.

ghost use Rattle.std.specs.Prelude.{◌≡◌, ℕ, ◌<◌, [], length, replicate, None, Some, OnOk};
ghost use Rattle.std.specs.Option.{option_map, is_some, IsSome, IfSome};
ghost use Rattle.pc_dfg_linearize.specs.Numbers.{number_at, numbered, with_number};

use pc_entity::{EntityRef, NoMemory};
use std::alloc::Global;
use std::marker::{Model, PhantomData};

/// The number in a plan of each entry of a list, if it has one yet. A contract sees the list of these numbers.
#[derive(Drop)]
pub struct NumberMap<K, V> {
    numbers: Vec<Option<u32>>,
    types: PhantomData<(K, V)>,
}

impl<K, V> Model for NumberMap<K, V> {
    ghost use Rattle.std.specs.Prelude.{ℕ, List, Option};

    ghost Value = { List (Option ℕ) };

    ghost view = { λ m. m.numbers.items };
}

impl<K: EntityRef, V: EntityRef> NumberMap<K, V> {
    /// A map for no entries, which takes no memory.
    pub fn new(alloc: Global) -> NumberMap<K, V>
        ensures { result ≡ [] }
    {
        NumberMap {
            numbers: Vec::new(alloc),
            types: PhantomData,
        }
    }

    /// Makes this a map for so many entries, none of which has a number.
    pub fn reset(&mut self, alloc: Global, entries: usize) -> Result<(), NoMemory>
        ensures { OnOk result (self.new ≡ replicate entries None) }
    {
        self.numbers = vec![in alloc; None; entries]?;
        Ok(())
    }

    /// The number of an entry, if it has one, as it is kept.
    fn kept(&self, entry: K) -> Option<u32>
        ensures { result ≡ number_at self.now (K.number entry) }
    {
        match self.numbers.get(entry.as_u32() as usize) {
            Some(number) => *number,
            None => None,
        }
    }

    /// Whether an entry has its number.
    pub fn has(&self, entry: K) -> bool
        ensures { result ≡ is_some (number_at self.now (K.number entry)) }
    {
        self.kept(entry).is_some()
    }

    /// The number of an entry, if it has one.
    pub fn get(&self, entry: K) -> Option<V>
        ensures { result ≡ option_map (λ n. V.of_number n) (number_at self.now (K.number entry)) }
    {
        match self.kept(entry) {
            Some(number) => Some(V::from_u32(number)),
            None => None,
        }
    }

    /// The number of an entry that has one.
    pub fn at(&self, entry: K) -> V
        requires numbered { IsSome (number_at self.now (K.number entry)) }
        ensures { result ≡ V.of_number (numbered self.now (K.number entry)) }
    {
        match self.get(entry) {
            Some(number) => number,
            None => unreachable!(),
        }
    }

    /// The number of an entry that has one, where there is an entry.
    pub fn at_any(&self, entry: Option<K>) -> Option<V>
        requires numbered { IfSome entry (λ k. IsSome (number_at self.now (K.number k))) }
        ensures { result ≡ option_map (λ k. V.of_number (numbered self.now (K.number k))) entry }
    {
        match entry {
            Some(entry) => Some(self.at(entry)),
            None => None,
        }
    }

    /// Gives an entry its number.
    pub fn note(&mut self, entry: K, number: V)
        requires held { K.number entry < length self.old }
        ensures { self.new ≡ with_number self.old (K.number entry) (V.number number) }
    {
        self.numbers[entry.as_u32() as usize] = Some(number.as_u32());
    }
}
