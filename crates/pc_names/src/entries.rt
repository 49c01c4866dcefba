//! Values under keys, in the order in which the keys came: the definitions and the tracks of a name map.
//!
//! Keys are found by a hash with a seed. Only the last key ever leaves, so a place goes on naming its key.

ghost use Rattle.std.specs.Prelude.{◌≡◌, ℕ, ◌-◌, [], ◌∷◌, ◌++◌, List, None, length, take, slice_get};
ghost use Rattle.std.specs.Prelude.{OnOk, OnErr};
ghost use Rattle.std.specs.Borrow.{LendsIf, sem};
ghost use Rattle.std.specs.Map.{lookup, set_value};
ghost use Rattle.std.specs.Option.{option_copied, option_copied_mut, option_map};
ghost use Rattle.indexmap.specs.IndexMap.{insert_entry};
ghost use Rattle.pc_names.specs.Definitions.{place_in, with_value};

use indexmap::IndexMap;
use indexmap::map::Iter;
use pc_entity::{NoMemory, Seed, TryClone};
use std::alloc::Global;
use std::hash::Hash;
use std::marker::Model;

/// Values under keys, in the order in which the keys came. A contract sees the list.
#[derive(Drop)]
pub(crate) struct Entries<K: Eq + Hash, V> {
    entries: IndexMap<K, V, Seed>,
}

impl<K: Eq + Hash, V> Model for Entries<K, V> {
    ghost use Rattle.std.specs.Prelude.{List};

    ghost Value = { List (K × V) };

    ghost view = { λ e. e.entries.entries };
}

impl<K: Eq + Hash, V> Entries<K, V> {
    ghost use Rattle.pc_names.specs.contracts.entries.Entries.{the_row};

    pub(crate) fn new(alloc: Global, seed: Seed) -> Entries<K, V>
        ensures { result ≡ [] }
    {
        Entries {
            entries: IndexMap::with_hasher(alloc, seed),
        }
    }

    /// The seed that the places in the table depend on.
    pub(crate) fn seed(&self) -> Seed {
        *self.entries.hasher()
    }

    pub(crate) fn iter(&self) -> Iter<'_, K, V>
        ensures { result ≡ self.now }
    {
        self.entries.iter()
    }

    pub(crate) fn len(&self) -> usize
        ensures { result ≡ length self.now }
    {
        self.entries.len()
    }

    /// The place of a key, if it is there.
    pub(crate) fn place_of(&self, key: &K) -> Option<usize>
        ensures { result ≡ place_in K.eq self.now key.now }
    {
        self.entries.get_index_of(key)
    }

    /// The value at a place.
    pub(crate) fn at(&self, place: usize) -> Option<&V>
        ensures { option_copied result ≡ option_map (λ e. e.1) (slice_get self.now place) }
    {
        match self.entries.get_index(place) {
            Some((_key, value)) => Some(value),
            None => None,
        }
    }

    /// The value under a key.
    pub(crate) fn get(&self, key: &K) -> Option<&V>
        ensures { option_copied result ≡ lookup (K.eq key.now) self.now }
    {
        self.entries.get(key)
    }

    /// The value at a place, to write.
    pub(crate) fn at_mut(&mut self, place: usize) -> Option<&mut V>
        ensures* writes_back { sem 𝓛 (LendsIf (the_row K.row V.row K.PartialEq.own K.Hash.own)
            V.row self.entry result (λ w. with_value self.old place w) self.old) }
        ensures value { option_copied_mut result ≡ option_map (λ e. e.1) (slice_get self.old place) }
    {
        self.entries.get_index_mut(place)
    }

    /// The value under a key, to write.
    pub(crate) fn get_mut(&mut self, key: &K) -> Option<&mut V>
        ensures* writes_back { sem 𝓛 (LendsIf (the_row K.row V.row K.PartialEq.own K.Hash.own)
            V.row self.entry result (λ w. set_value (K.eq key.now) self.old w) self.old) }
        ensures value { option_copied_mut result ≡ lookup (K.eq key.now) self.old }
    {
        match self.place_of(key) {
            Some(place) => self.at_mut(place),
            None => None,
        }
    }

    /// Writes the value at a place.
    pub(crate) fn set(&mut self, place: usize, value: V)
    where
        V: Drop,
        ensures { self.new ≡ with_value self.old place value }
    {
        if let Some(held) = self.at_mut(place) {
            *held = value;
        }
    }

    /// Puts a value under a key, which goes last if it isn't there.
    pub(crate) fn insert(&mut self, key: K, value: V) -> Result<(), NoMemory>
    where
        K: Drop,
        V: Drop,
        ensures ok { OnOk result (self.new ≡ insert_entry K.eq self.old key value) }
        ensures err { OnErr result (self.new ≡ self.old) }
    {
        self.entries.insert(key, value)?;
        Ok(())
    }

    /// Adds a key that isn't there, with its value.
    pub(crate) fn push(&mut self, key: K, value: V) -> Result<(), NoMemory>
    where
        K: Drop,
        V: Drop,
        requires { place_in K.eq self.old key ≡ None }
        ensures ok { OnOk result (self.new ≡ self.old ++ (key, value) ∷ []) }
        ensures err { OnErr result (self.new ≡ self.old) }
    {
        self.insert(key, value)?;
        Ok(())
    }

    /// Takes the last entry back.
    pub(crate) fn pop(&mut self)
    where
        K: Drop,
        V: Drop,
        ensures { self.new ≡ take (length self.old - 1) self.old }
    {
        let _last = self.entries.pop();
    }
}

impl<K: Eq + Hash + TryClone + Drop, V: TryClone + Drop> TryClone for Entries<K, V> {
    fn try_clone(&self, alloc: Global) -> Result<Entries<K, V>, NoMemory> {
        let mut copy = Entries::new(alloc, self.seed());
        for (key, value) in self.entries.iter() {
            copy.push(key.try_clone(alloc)?, value.try_clone(alloc)?)?;
        }
        Ok(copy)
    }
}
