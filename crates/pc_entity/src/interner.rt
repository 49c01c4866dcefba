//! A list of distinct values, in which equal values share a number.

ghost use Rattle.std.specs.Prelude.{◌≡◌, ◌++◌, ◌∷◌, ◌<◌, ◌≤◌, ◌⊎◌, IfSome, IfNone, [], length, slice_get, take};
ghost use Rattle.std.specs.Prelude.{Some, IfOk, OnOk, OnErr, Contains};
ghost use Rattle.std.specs.Option.{option_copied};
ghost use Rattle.std.specs.Iterator.Runs.{EveryRun, ItemsMapTo};
ghost use Rattle.std.specs.Slice.Iter.{iter_rest, iter_steps};
ghost use Rattle.pc_entity.specs.Lists.{AreDistinct};

use crate::{ExactEq, NoMemory, Seed};
use indexmap::IndexSet;
use std::alloc::Global;
use std::marker::Model;
use std::slice::Iter;

/// A list of distinct values, where a value that is added again keeps its number. A contract sees the list.
#[derive(Drop)]
pub struct Interner<V: ExactEq> {
    values: IndexSet<V, Seed>,
}

impl<V: ExactEq> Model for Interner<V> {
    ghost use Rattle.std.specs.Prelude.{List};
    ghost use Rattle.indexmap.specs.IndexSet.{IsUnique};

    ghost Value = { List V };

    ghost view = { λ s. s.values.keys };

    ghost invariant = { λ s. IsUnique V.eq s.values };
}

impl<V: ExactEq> Interner<V> {
    /// The interner with no values, which takes no memory.
    pub fn new(alloc: Global, seed: Seed) -> Interner<V>
        ensures { result ≡ [] }
    {
        Interner {
            values: IndexSet::with_hasher(alloc, seed),
        }
    }

    /// The seed that its places depend on.
    pub fn seed(&self) -> Seed {
        *self.values.hasher()
    }

    /// The number of values.
    pub fn len(&self) -> usize
        ensures { result ≡ length self.now }
    {
        self.values.len()
    }

    /// The value of number `key`.
    pub fn get(&self, key: u32) -> Option<&V>
        ensures { option_copied result ≡ slice_get self.now key }
    {
        self.values.get_index(key as usize)
    }

    /// The number of a value, if it is held.
    pub fn find(&self, value: &V) -> Option<u32>
        requires numbered { length self.now ≤ 4294967295 }
        ensures held { IfSome result (λ key. slice_get self.now key ≡ Some value.now) }
        ensures absent { IfNone result (¬ Contains self.now value.now) }
    {
        match self.values.get_index_of(value) {
            Some(place) => Some(place as u32),
            None => None,
        }
    }

    /// The values in the order of their numbers.
    pub fn iter(&self) -> Iter<'_, V>
        ensures rest { iter_rest result ≡ self.now }
        ensures runs { EveryRun (iter_steps {A = V}) (λ p. ItemsMapTo p (λ x. x.now) (iter_rest p.from)) }
    {
        self.values.as_slice().iter()
    }

    /// The values in the order of their numbers. No two are equal.
    pub fn as_slice(&self) -> &[V]
        ensures values { result.now ≡ self.now }
        ensures distinct { AreDistinct self.now }
    {
        self.values.as_slice()
    }
}

impl<V: ExactEq + Drop> Interner<V> {
    /// The number of `value`, which is added at the end unless an equal value is held. On a refusal `value` is dropped.
    pub fn push(&mut self, value: V) -> Result<u32, NoMemory>
        requires room { length self.old < 4294967295 }
        ensures held { IfOk result (λ key. slice_get self.new key ≡ Some value) }
        ensures grows { OnOk result ((self.new ≡ self.old) ⊎ (self.new ≡ self.old ++ value ∷ [])) }
        ensures present { OnOk result (Contains self.old value → self.new ≡ self.old) }
        ensures distinct { AreDistinct self.new }
        ensures err { OnErr result (self.new ≡ self.old) }
    {
        let (place, _) = self.values.insert_full(value)?;
        Ok(place as u32)
    }

    /// Only the first `n` values stay.
    pub fn truncate(&mut self, n: usize)
        ensures { self.new ≡ take n self.old }
    {
        self.values.truncate(n);
    }
}
