//! A set of numbers of a type.

ghost use Rattle.std.specs.Prelude.{◌≡◌, false, not, IfOk, OnOk, OnErr};
ghost use Rattle.std.specs.FinSet as set;

use crate::NoMemory;
use pc_numbers::EntityRef;
use std::alloc::Global;
use std::collections::BTreeSet;
use std::marker::{Model, PhantomData};

/// A set of numbers. A contract sees a finite set. Its size goes with the numbers that are held, and not with the
/// greatest.
#[derive(Drop)]
pub struct EntitySet<K> {
    numbers: BTreeSet<u32>,
    key: PhantomData<K>,
}

impl<K> Model for EntitySet<K> {
    ghost use Rattle.std.specs.Ordering.{nat_cmp};
    ghost use Rattle.std.specs.FinSet as set;
    ghost use Rattle.std.specs.Coded.{coded_ℕ};

    ghost Value = { set.FinSet nat_cmp };

    ghost coded = { set.code coded_ℕ };

    ghost view = { λ s. set.from_list s.numbers.keys };
}

impl<K: EntityRef> EntitySet<K> {
    /// The set with no numbers, which takes no memory.
    pub fn new(alloc: Global) -> EntitySet<K>
        ensures { result ≡ set.empty }
    {
        EntitySet {
            numbers: BTreeSet::new(alloc),
            key: PhantomData,
        }
    }

    /// Whether `key` is in the set.
    pub fn contains(&self, key: K) -> bool
        ensures { result ≡ set.contains self.now (K.number key) }
    {
        self.numbers.contains(&key.as_u32())
    }

    /// Adds `key`, and answers whether it was absent. Only then is a refusal possible.
    pub fn insert(&mut self, key: K) -> Result<bool, NoMemory>
        ensures changed { IfOk result (λ changed. changed ≡ not (set.contains self.old (K.number key))) }
        ensures ok { OnOk result (self.new ≡ set.insert self.old (K.number key)) }
        ensures err { OnErr result (self.new ≡ self.old) }
        ensures absent { OnErr result (set.contains self.old (K.number key) ≡ false) }
    {
        Ok(self.numbers.insert(key.as_u32())?)
    }

    /// Takes `key` out, and answers whether it was present.
    pub fn remove(&mut self, key: K) -> bool
        ensures changed { result ≡ set.contains self.old (K.number key) }
        ensures removed { self.new ≡ set.remove self.old (K.number key) }
    {
        self.numbers.remove(&key.as_u32())
    }
}
