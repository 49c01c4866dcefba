//! A value for every number of a type, held for the first of them alone.

ghost use Rattle.std.specs.Prelude.{◌≡◌, [], length, nat_eq, OnOk, OnErr};
ghost use Rattle.pc_entity.specs.SecondaryMap.{value_at, with_value_at};

use crate::NoMemory;
use pc_numbers::EntityRef;
use std::alloc::Global;
use std::marker::{Model, PhantomData};

/// A value for every number: a list, and a default for each number past its end. A contract sees the list and the
/// default.
#[derive(Drop)]
pub struct SecondaryMap<K, V> {
    values: Vec<V>,
    default: V,
    key: PhantomData<K>,
}

impl<K, V> Model for SecondaryMap<K, V> {
    ghost use Rattle.pc_entity.specs.SecondaryMap.{Defaulted};

    ghost Value = { Defaulted V };

    ghost view = { λ m. record { items = m.values.items; default = m.default } };
}

impl<K: EntityRef, V: Copy> SecondaryMap<K, V> {
    /// The map with `default` for every number, which takes no memory.
    pub fn new(alloc: Global, default: V) -> SecondaryMap<K, V>
        ensures { result ≡ record { items = []; default = default } }
    {
        SecondaryMap {
            values: Vec::new(alloc),
            default,
            key: PhantomData,
        }
    }

    /// The value of number `key`.
    pub fn get(&self, key: K) -> V
        ensures { result ≡ value_at self.now (K.number key) }
    {
        match self.values.get(key.as_u32() as usize) {
            Some(value) => *value,
            None => self.default,
        }
    }

    /// Makes `value` the value of number `key`. The numbers below `key` that were not held are held with the default.
    pub fn set(&mut self, key: K, value: V) -> Result<(), NoMemory>
        ensures ok { OnOk result (self.new ≡ with_value_at self.old (K.number key) value) }
        ensures err { OnErr result (self.new ≡ self.old) }
    {
        let place = key.as_u32() as usize;
        if self.values.len() <= place {
            self.values.resize(place + 1, self.default)?;
        }
        self.values[place] = value;
        Ok(())
    }

    /// The number of values that are held.
    pub fn len(&self) -> usize
        ensures { result ≡ length self.now.items }
    {
        self.values.len()
    }

    /// Whether no value is held, so that every number has the default.
    pub fn is_empty(&self) -> bool
        ensures { result ≡ nat_eq (length self.now.items) 0 }
    {
        self.values.is_empty()
    }
}
