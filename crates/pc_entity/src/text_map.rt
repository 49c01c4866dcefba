//! A map from texts, in the order in which the names were added.

ghost use Rattle.std.specs.Prelude.{◌≡◌, ◌++◌, ◌∷◌, ◌<◌, [], length, slice_get, None, Some, is_some, IfOk, OnOk, OnErr};
ghost use Rattle.std.specs.Option.{option_copied, option_map};
ghost use Rattle.pc_entity.specs.FirstValues.{with_first};
ghost use Rattle.pc_entity.specs.Lists.{value_of, with_value, names_of, AreDistinct};

use crate::{NoMemory, Seed, Text};
use indexmap::IndexMap;
use std::alloc::Global;
use std::marker::Model;

/// A map from texts. A contract sees the list of its names with their values, in order.
#[derive(Drop)]
pub struct TextMap<V> {
    entries: IndexMap<Text, V, Seed>,
}

impl<V> Model for TextMap<V> {
    ghost use Rattle.std.specs.Prelude.{List, ℕ};
    ghost use Rattle.std.specs.Str.{bytes_eq};
    ghost use Rattle.indexmap.specs.IndexMap.{IsUnique};

    ghost Value = { List (List ℕ × V) };

    ghost view = { λ m. m.entries.entries };

    ghost invariant = { λ m. IsUnique bytes_eq m.entries };
}

impl<V> TextMap<V> {
    /// The map with no names, which takes no memory.
    pub fn new(alloc: Global, seed: Seed) -> TextMap<V>
        ensures { result ≡ [] }
    {
        TextMap {
            entries: IndexMap::with_hasher(alloc, seed),
        }
    }

    /// The seed that its places depend on.
    pub fn seed(&self) -> Seed {
        *self.entries.hasher()
    }

    /// The number of names.
    pub fn len(&self) -> usize
        ensures { result ≡ length self.now }
    {
        self.entries.len()
    }

    /// No name stands twice.
    pub fn names_are_distinct(&self)
        ensures { AreDistinct (names_of self.now) }
    {
        let _entries = &self.entries;
    }

    /// The value at `name`.
    pub fn get(&self, name: &str) -> Option<&V>
        ensures { option_copied result ≡ value_of name.now self.now }
    {
        self.entries.get(name)
    }

    /// Whether `name` has a value.
    pub fn contains(&self, name: &str) -> bool
        ensures { result ≡ is_some (value_of name.now self.now) }
    {
        self.entries.contains_key(name)
    }

    /// The name at a place, with its value.
    pub fn get_index(&self, place: usize) -> Option<(&Text, &V)>
        ensures { option_map (λ e. (e.0.now, e.1.now)) result ≡ slice_get self.now place }
    {
        self.entries.get_index(place)
    }

    /// The name at a place that is held, with its value.
    pub fn entry_at(&self, place: usize) -> (&Text, &V)
        requires held { place < length self.now }
        ensures { slice_get self.now place ≡ Some (result.0.now, result.1.now) }
    {
        self.entries.get_index(place).unwrap()
    }
}

impl<V: Drop> TextMap<V> {
    /// Adds a name that is absent, at the end. On a refusal the name and the value are dropped.
    pub fn push(&mut self, name: Text, value: V) -> Result<(), NoMemory>
        requires absent { value_of name self.old ≡ None }
        ensures ok { OnOk result (self.new ≡ self.old ++ (name, value) ∷ []) }
        ensures err { OnErr result (self.new ≡ self.old) }
    {
        self.insert(name, value)?;
        Ok(())
    }

    /// Adds `name` at the end, unless it has a value: of a name that stands twice the first counts.
    pub fn insert_first(&mut self, name: &Text, value: V) -> Result<(), NoMemory>
        ensures ok { OnOk result (self.new ≡ with_first self.old (name.now, value)) }
        ensures err { OnErr result (self.new ≡ self.old) }
    {
        if self.contains(name.as_str()) {
            return Ok(());
        }
        self.push(name.share()?, value)
    }

    /// Puts `value` at `name`, and answers the value that stood there. A name that is absent is added at the end, and
    /// only then is a refusal possible, which drops the name and the value.
    pub fn insert(&mut self, name: Text, value: V) -> Result<Option<V>, NoMemory>
        ensures old { IfOk result (λ old. old ≡ value_of name self.old) }
        ensures ok { OnOk result (self.new ≡ with_value self.old name value) }
        ensures err { OnErr result (self.new ≡ self.old) }
        ensures absent { OnErr result (value_of name self.old ≡ None) }
    {
        Ok(self.entries.insert(name, value)?)
    }
}
