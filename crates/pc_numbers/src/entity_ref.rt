//! What all number types have in common.

ghost use Rattle.std.specs.Prelude.{◌≡◌, ℕ, true};

use std::hash::Hash;

/// A number type: a name of its own for the numbers of one list.
///
/// The numbers of one type are exactly those of a `u32`, and `==` compares them.
pub trait EntityRef: Copy + Eq + Ord + Hash {
    // The number in a key.
    ghost number: { Self → ℕ };

    // The key of a number.
    ghost of_number: { ℕ → Self };

    /// The key of `n`.
    fn from_u32(n: u32) -> Self
        ensures { result ≡ of_number n };

    /// The number in this key.
    fn as_u32(self) -> u32
        ensures { result ≡ number self };

    // Each undoes the other.
    ghost number_of_number: { (n : ℕ) → number (of_number n) ≡ n };

    ghost of_number_number: { (k : Self) → of_number (number k) ≡ k };

    // Keys that compare equal are the same key.
    ghost exact: { (a b : Self) → Self.eq a b ≡ true → a ≡ b };
}
