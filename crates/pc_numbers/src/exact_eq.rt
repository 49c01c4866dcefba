//! Types whose `==` answers true of identical values alone.

ghost use Rattle.std.specs.Prelude.{◌≡◌, ◌↔◌, true, IsTrue};
ghost use Rattle.std.proofs.Common.{rules};

use crate::EntityRef;
use std::hash::Hash;

/// A type whose `==` is equality of values.
///
/// `Eq` alone says that `==` is an equivalence, which might hold of values that differ. Where equal values are to share
/// a number, the number must stand for one value.
pub trait ExactEq: Eq + Hash {
    // Values that compare equal are the same value.
    ghost exact: { (a b : Self) → Self.eq a b ≡ true → a ≡ b };

    /// Whether the two are the same value, by `==`.
    final fn is_same(&self, other: &Self) -> bool
        ensures { IsTrue result ↔ (self.now ≡ other.now) }
    {
        *self == *other
    }
}

impl ExactEq for u32 {
    ghost exact = { Prim.search rules };
}

impl ExactEq for bool {
    ghost exact = { Prim.search rules };
}

impl<K: EntityRef> ExactEq for K {
    ghost exact = { K.exact };
}

impl<T: ExactEq> ExactEq for Option<T> {
    ghost exact = { Prim.search (rules, T.exact) };
}

impl<A: ExactEq, B: ExactEq> ExactEq for (A, B) {
    ghost exact = { Prim.search (rules, A.exact, B.exact) };
}
