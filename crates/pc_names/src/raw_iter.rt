//! The definitions of a name map in order.

ghost use Rattle.std.specs.Prelude.{◌≡◌, length, IfSome, Some};
ghost use Rattle.std.specs.Iterator.{UpTo, at_most};
ghost use Rattle.std.specs.Iterator.SizeHint.{IsWithinCount};
ghost use Rattle.std.specs.Map.Iter.{TakesFirst, deref_pair};

use indexmap::map::Iter;
use std::iter::FusedIterator;
use std::marker::Model;

/// The definitions of a name map in the order in which their names were first inserted, each as its key and its value.
#[derive(Drop)]
pub struct RawIter<'a, K, V> {
    entries: Iter<'a, K, V>,
}

impl<'a, K, V> Model for RawIter<'a, K, V> {
    ghost use Rattle.std.specs.Prelude.{List};

    ghost Value = { List (K × V) };

    ghost view = { λ it. it.entries };
}

impl<'a, K, V> RawIter<'a, K, V> {
    pub(crate) fn new(entries: Iter<'a, K, V>) -> RawIter<'a, K, V>
        ensures { result ≡ entries.entry }
    {
        RawIter { entries }
    }
}

impl<'a, K, V> Iterator for RawIter<'a, K, V> {
    type Item = (&'a K, &'a V);

    ghost next_gives = { TakesFirst deref_pair };

    ghost remaining = { λ it. at_most (length it) };

    fn next(&mut self) -> Option<(&'a K, &'a V)> {
        self.entries.next()
    }

    fn size_hint(&self) -> (usize, Option<usize>)
        ensures lower { IsWithinCount result.0 (at_most (length self.now)) }
        ensures upper { IfSome result.1 (UpTo (at_most (length self.now))) }
        ensures exact { (result.0 ≡ length self.now) × (result.1 ≡ Some (length self.now)) }
    {
        let len = self.len();
        (len, Some(len))
    }
}

impl<'a, K, V> ExactSizeIterator for RawIter<'a, K, V> {
    fn len(&self) -> usize {
        self.entries.len()
    }
}

impl<'a, K, V> FusedIterator for RawIter<'a, K, V> {}
