//! A list whose places are numbers of one type.

ghost use Rattle.std.specs.Prelude.{◌≡◌, ◌++◌, ◌∷◌, ◌<◌, [], length, nat_eq, slice_get, Some, IfOk, OnOk, OnErr};
ghost use Rattle.std.specs.Option.{option_copied, option_copied_mut};
ghost use Rattle.std.specs.Borrow.{LendsIf, sem};
ghost use Rattle.std.specs.Prelude.{slice_set};
ghost use Rattle.pc_entity.specs.contracts.primary_map.PrimaryMap.{the_row};

use crate::{NoMemory, Seq};
use pc_numbers::EntityRef;
use std::alloc::Global;
use std::marker::{Model, PhantomData};
use std::ops::Index;

/// A list that hands out the number of each value that is added. A contract sees the list of the values.
#[derive(Drop)]
pub struct PrimaryMap<K, V> {
    values: Vec<V>,
    key: PhantomData<K>,
}

impl<K, V> Model for PrimaryMap<K, V> {
    ghost use Rattle.std.specs.Prelude.{List};

    ghost Value = { List V };

    ghost view = { λ m. m.values.items };
}

impl<K: EntityRef, V> PrimaryMap<K, V> {
    /// The map with no values, which takes no memory.
    pub fn new(alloc: Global) -> PrimaryMap<K, V>
        ensures { result ≡ [] }
    {
        PrimaryMap {
            values: Vec::new(alloc),
            key: PhantomData,
        }
    }

    /// The values of a vector, in the same memory. The first has number 0.
    pub fn from_vec(values: Vec<V>) -> PrimaryMap<K, V>
        ensures { result ≡ values.items }
    {
        PrimaryMap {
            values,
            key: PhantomData,
        }
    }

    /// The values as a vector, in the same memory.
    pub fn into_vec(self) -> Vec<V>
        ensures { result.items ≡ self }
    {
        self.values
    }

    /// The value of number `key`.
    pub fn get(&self, key: K) -> Option<&V>
        ensures { option_copied result ≡ slice_get self.now (K.number key) }
    {
        self.values.as_slice().get(key.as_u32() as usize)
    }

    /// The value of number `key`, to be changed.
    pub fn get_mut(&mut self, key: K) -> Option<&mut V>
        ensures* writes_back { sem 𝓛 (LendsIf (the_row K.row V.row) V.row self.entry result
            (λ w. slice_set self.old (K.number key) w) self.old) }
        ensures value { option_copied_mut result ≡ slice_get self.old (K.number key) }
    {
        self.values.get_mut(key.as_u32() as usize)
    }

    /// The number of values.
    pub fn len(&self) -> usize
        ensures { result ≡ length self.now }
    {
        self.values.len()
    }

    /// Whether no value was added.
    pub fn is_empty(&self) -> bool
        ensures { result ≡ nat_eq (length self.now) 0 }
    {
        self.values.is_empty()
    }

    /// The number that the next `push` hands out.
    pub fn next_key(&self) -> K
        requires room { length self.now < 4294967295 }
        ensures { result ≡ K.of_number (length self.now) }
    {
        K::from_u32(self.values.len() as u32)
    }

    /// The values in the order of their numbers.
    pub fn as_slice(&self) -> &[V]
        ensures { result.now ≡ self.now }
    {
        self.values.as_slice()
    }
}

impl<K: EntityRef, V: Drop> PrimaryMap<K, V> {
    /// Adds `value` at the end, and answers its number. On a refusal `value` is dropped.
    pub fn push(&mut self, value: V) -> Result<K, NoMemory>
        requires room { length self.old < 4294967295 }
        ensures key { IfOk result (λ key. key ≡ K.of_number (length self.old)) }
        ensures ok { OnOk result (self.new ≡ self.old ++ value ∷ []) }
        ensures err { OnErr result (self.new ≡ self.old) }
    {
        let key = K::from_u32(self.values.len() as u32);
        self.values.push(value)?;
        Ok(key)
    }
}

impl<K: EntityRef, V> Index<K> for PrimaryMap<K, V> {
    type Output = V;

    ghost can_index = { λ m key. K.number key < length m };

    ghost index_gives = { λ m key value. slice_get m (K.number key) ≡ Some value };

    fn index(&self, key: K) -> &V {
        &self.values[key.as_u32() as usize]
    }
}
