//! The values of an interned list with their numbers.

ghost use Rattle.std.specs.Prelude.{◌≡◌, ◌≤◌, length};
ghost use Rattle.std.specs.Iterator.{at_most};
ghost use Rattle.std.specs.Map.Iter.{TakesFirst};
ghost use Rattle.pc_dfg.specs.Numbered.{numbered, second_now};

use pc_entity::EntityRef;
use std::marker::{Model, PhantomData};
use std::slice;

/// The values that are left, each with its number, which is how a contract sees them.
#[derive(Drop)]
pub struct InternIter<'a, K: EntityRef, V> {
    values: slice::Iter<'a, V>,

    /// The number of the first value that is left.
    number: u32,

    key: PhantomData<K>,
}

impl<'a, K: EntityRef, V> Model for InternIter<'a, K, V> {
    ghost use Rattle.std.specs.Prelude.{◌+◌, ◌≤◌, List, length};
    ghost use Rattle.std.specs.Slice.Iter.{iter_rest};
    ghost use Rattle.pc_dfg.specs.Numbered.{numbered};

    ghost Value = { List (K × V) };

    ghost view = { λ it. numbered K.of_number it.number (iter_rest it.values) };

    ghost invariant = { λ it. it.number + length (iter_rest it.values) ≤ 4294967295 };
}

impl<'a, K: EntityRef, V> InternIter<'a, K, V> {
    pub(crate) fn new(values: &'a [V]) -> InternIter<'a, K, V>
        requires { length values.now ≤ 4294967295 }
        ensures { result ≡ numbered K.of_number 0 values.now }
    {
        InternIter {
            values: values.iter(),
            number: 0,
            key: PhantomData,
        }
    }
}

impl<'a, K: EntityRef, V> Iterator for InternIter<'a, K, V> {
    type Item = (K, &'a V);

    ghost next_gives = { TakesFirst second_now };

    ghost remaining = { λ it. at_most (length it) };

    fn next(&mut self) -> Option<(K, &'a V)> {
        let value = self.values.next()?;
        let number = self.number;
        self.number = number + 1;
        Some((K::from_u32(number), value))
    }
}
