//! Lists of types with labels, in which equal types share a number, and a type is told by the number of its labels.

ghost use Rattle.std.specs.Prelude.{◌≡◌, ◌<◌, ◌≤◌, ◌++◌, ◌∷◌, [], length, slice_get, Some, Err, Contains};
ghost use Rattle.std.specs.Prelude.{IfOk, IfSome, OnErr};
ghost use Rattle.std.specs.Option.{option_copied};
ghost use Rattle.pc_entity.specs.Lists.{AreDistinct};
ghost use Rattle.pc_types_lists.specs.Interned.{IsPut, IsPutKeyed};
ghost use Rattle.pc_types_lists.specs.Labels.{HasLabelsOf};

use crate::intern::MAX_TYPES;
use crate::no_place::NoPlace;
use pc_entity::{ExactEq, Interner, NoMemory, Seed};
use std::alloc::Global;
use std::marker::Model;

/// A type that is told by its labels and its parts: by names, and by other types that stand under them.
pub(crate) trait HasLabels {
    /// The names.
    type Labels: ExactEq + Drop;

    /// What stands under them, and all else that the type is told by.
    type Parts: ExactEq + Drop;

    // What a type has for labels and for parts.
    ghost labels: { Self → Self.Labels };

    ghost parts: { Self → Self.Parts };

    /// The labels, whose bytes are shared.
    fn labels(&self, alloc: Global) -> Result<Self::Labels, NoMemory>
        ensures { IfOk result (λ l. l ≡ labels self.now) };

    /// The parts.
    fn parts(&self, alloc: Global) -> Result<Self::Parts, NoMemory>
        ensures { IfOk result (λ p. p ≡ parts self.now) };

    // Both tell it.
    ghost told: { (u v : Self) → labels u ≡ labels v → parts u ≡ parts v → u ≡ v };
}

/// A list of distinct types with labels, where a type that is put again keeps its number. A contract sees the list.
///
/// Labels have numbers of their own. So where it is known which held type has the labels of another, this one is found
/// by numbers alone, however long its labels are.
#[derive(Drop)]
pub(crate) struct Labelled<V: HasLabels> {
    alloc: Global,
    labels: Interner<V::Labels>,
    /// For each type the number of its labels, and its parts.
    keys: Interner<(u32, V::Parts)>,
    values: Vec<V>,
}

impl<V: HasLabels> Model for Labelled<V> {
    ghost use Rattle.std.specs.Prelude.{List};
    ghost use Rattle.pc_types_lists.specs.Labels.{AreKeyed};

    ghost Value = { List V };

    ghost view = { λ s. s.values.items };

    ghost invariant = { λ s. AreKeyed V.labels V.parts s.labels s.keys s.values.items };
}

impl<V: HasLabels> Labelled<V> {
    /// No types, which take no memory.
    pub(crate) fn new(alloc: Global, seed: Seed) -> Labelled<V>
        ensures { result ≡ [] }
    {
        Labelled {
            alloc,
            labels: Interner::new(alloc, seed),
            keys: Interner::new(alloc, seed),
            values: Vec::new(alloc),
        }
    }

    /// The number of types.
    pub(crate) fn len(&self) -> usize
        ensures { result ≡ length self.now }
    {
        self.values.len()
    }

    /// The type of number `key`.
    pub(crate) fn get(&self, key: u32) -> Option<&V>
        ensures { option_copied result ≡ slice_get self.now key }
    {
        self.values.get(key as usize)
    }

    /// The types in the order of their numbers. No two are equal.
    pub(crate) fn as_slice(&self) -> &[V]
        ensures values { result.now ≡ self.now }
        ensures distinct { AreDistinct self.now }
    {
        self.values.as_slice()
    }
}

impl<V: HasLabels + Drop> Labelled<V> {
    /// The number of a type, which is added at the end unless an equal one is held. `like` may be the number of a type
    /// that has the same labels: with it, the time doesn't depend on how long these are.
    ///
    /// `TooMany` comes where the list is full and lacks the type. On a refusal the list stays as it was.
    pub(crate) fn put(&mut self, value: V, like: Option<u32>) -> Result<u32, NoPlace>
        requires within { length self.old ≤ 4294967294 }
        requires like { IfSome like (λ n. HasLabelsOf V.labels self.old n value) }
        ensures held { IfOk result (λ key. slice_get self.new key ≡ Some value) }
        ensures put { IsPut self.old self.new value }
        ensures err { OnErr result (self.new ≡ self.old) }
        ensures full { result ≡ Err NoPlace.TooMany → (length self.new ≡ 4294967294) × (Contains self.new value → ⊥) }
        ensures within { length self.new ≤ 4294967294 }
    {
        let parts = value.parts(self.alloc)?;
        if let Some(n) = like {
            let number = self.keys.get(n).unwrap().0;
            return put_keyed(&mut self.keys, &mut self.values, (number, parts), value);
        }
        let labels = value.labels(self.alloc)?;
        if let Some(number) = self.labels.find(&labels) {
            return put_keyed(&mut self.keys, &mut self.values, (number, parts), value);
        }
        if self.values.len() >= MAX_TYPES {
            return Err(NoPlace::TooMany);
        }
        let count = self.labels.len();
        let number = self.labels.push(labels)?;
        match push_keyed(&mut self.keys, &mut self.values, (number, parts), value) {
            Ok(key) => Ok(key),
            Err(NoMemory) => {
                self.labels.truncate(count);
                Err(NoPlace::NoMemory)
            }
        }
    }
}

/// The number of a key, which goes to the end of its list, and its value with it, unless an equal one is held.
fn put_keyed<K: ExactEq + Drop, V: Drop>(
    keys: &mut Interner<K>,
    values: &mut Vec<V>,
    key: K,
    value: V,
) -> Result<u32, NoPlace>
    requires within { length keys.old ≤ 4294967294 }
    requires as_many { length keys.old ≡ length values.old.items }
    ensures held { IfOk result (λ i. slice_get keys.new i ≡ Some key) }
    ensures put { IsPutKeyed keys.old keys.new values.old.items values.new.items key value }
    ensures err { OnErr result ((keys.new ≡ keys.old) × (values.new.items ≡ values.old.items)) }
    ensures full { result ≡ Err NoPlace.TooMany → (length keys.new ≡ 4294967294) × (Contains keys.new key → ⊥) }
    ensures within { length keys.new ≤ 4294967294 }
{
    if let Some(number) = keys.find(&key) {
        return Ok(number);
    }
    if values.len() >= MAX_TYPES {
        return Err(NoPlace::TooMany);
    }
    Ok(push_keyed(keys, values, key, value)?)
}

/// A key that isn't held goes to the end of its list, and its value with it.
fn push_keyed<K: ExactEq + Drop, V: Drop>(
    keys: &mut Interner<K>,
    values: &mut Vec<V>,
    key: K,
    value: V,
) -> Result<u32, NoMemory>
    requires room { length keys.old < 4294967295 }
    requires as_many { length keys.old ≡ length values.old.items }
    requires new { Contains keys.old key → ⊥ }
    ensures ok { IfOk result (λ i. (i ≡ length keys.old) × (keys.new ≡ keys.old ++ key ∷ [])
        × (values.new.items ≡ values.old.items ++ value ∷ [])) }
    ensures err { OnErr result ((keys.new ≡ keys.old) × (values.new.items ≡ values.old.items)) }
{
    let count = values.len();
    values.push(value)?;
    let number = keys.push(key);
    if number.is_err() {
        values.truncate(count);
    }
    number
}
