//! A list of distinct values whose places are numbers of one type.

ghost use Rattle.std.specs.Prelude.{◌≡◌, ◌++◌, ◌∷◌, ◌<◌, ◌≤◌, ◌⊎◌, [], length, nat_eq, slice_get, Contains, Some};
ghost use Rattle.std.specs.Prelude.{IfOk, OnOk, OnErr};
ghost use Rattle.std.specs.Option.{option_copied};
ghost use Rattle.pc_entity.specs.Lists.{AreDistinct};
ghost use Rattle.pc_dfg.specs.Numbered.{numbered};

use crate::InternIter;
use pc_entity::{EntityRef, ExactEq, Interner, NoMemory, Seed};
use std::alloc::Global;
use std::marker::{Model, PhantomData};
use std::ops::Index;

/// A list that hands out one number for equal values. A contract sees the list, in which no value stands twice.
#[derive(Drop)]
pub struct Intern<K, V: ExactEq> {
    values: Interner<V>,
    key: PhantomData<K>,
}

impl<K, V: ExactEq> Model for Intern<K, V> {
    ghost use Rattle.std.specs.Prelude.{◌≤◌, List, length};

    ghost Value = { List V };

    ghost view = { λ i. i.values };

    ghost invariant = { λ i. length i.values ≤ 4294967295 };
}

impl<K: EntityRef, V: ExactEq> Intern<K, V> {
    /// The list with no values, which takes no memory.
    pub fn new(alloc: Global, seed: Seed) -> Intern<K, V>
        ensures { result ≡ [] }
    {
        Intern {
            values: Interner::new(alloc, seed),
            key: PhantomData,
        }
    }

    /// The number of values.
    pub fn len(&self) -> usize
        ensures value { result ≡ length self.now }
        ensures bound { length self.now ≤ 4294967295 }
    {
        self.values.len()
    }

    /// Whether no value was added.
    pub fn is_empty(&self) -> bool
        ensures { result ≡ nat_eq (length self.now) 0 }
    {
        self.values.len() == 0
    }

    /// The value of number `key`.
    pub fn get(&self, key: K) -> Option<&V>
        ensures { option_copied result ≡ slice_get self.now (K.number key) }
    {
        self.values.get(key.as_u32())
    }

    /// The values with their numbers, in order.
    pub fn iter(&self) -> InternIter<'_, K, V>
        ensures { result ≡ numbered K.of_number 0 self.now }
    {
        InternIter::new(self.values.as_slice())
    }

    /// The values in the order of their numbers. No two are equal.
    pub fn as_slice(&self) -> &[V]
        ensures values { result.now ≡ self.now }
        ensures distinct { AreDistinct self.now }
    {
        self.values.as_slice()
    }
}

impl<K: EntityRef, V: ExactEq + Drop> Intern<K, V> {
    /// The number of `value`, which is added at the end unless an equal value is held. On a refusal `value` is dropped.
    pub fn push(&mut self, value: V) -> Result<K, NoMemory>
        requires room { length self.old < 4294967295 }
        ensures held { IfOk result (λ key. slice_get self.new (K.number key) ≡ Some value) }
        ensures grows { OnOk result ((self.new ≡ self.old) ⊎ (self.new ≡ self.old ++ value ∷ [])) }
        ensures present { OnOk result (Contains self.old value → self.new ≡ self.old) }
        ensures distinct { AreDistinct self.new }
        ensures err { OnErr result (self.new ≡ self.old) }
    {
        let key = self.values.push(value)?;
        Ok(K::from_u32(key))
    }
}

impl<K: EntityRef, V: ExactEq> Index<K> for Intern<K, V> {
    type Output = V;

    ghost can_index = { λ i key. K.number key < length i };

    ghost index_gives = { λ i key value. slice_get i (K.number key) ≡ Some value };

    fn index(&self, key: K) -> &V {
        &self.values.as_slice()[key.as_u32() as usize]
    }
}
