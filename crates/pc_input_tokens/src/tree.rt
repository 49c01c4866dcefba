//! How a tree of JSON is taken apart, whichever reader made it.
//!
//! A trait holds what the readers of the format ask of a tree. `serde_json`'s trees and `json`'s have it: the first own
//! their texts, the second borrow them, and keep a number's text and a key that comes twice.

ghost use Rattle.std.specs.Prelude.{◌≡◌, ◌≤◌, option_map, map, is_some, option_and_then};
ghost use Rattle.serde_json.specs.Data.{Data};
ghost use Rattle.serde_json.specs.Find.{as_str, as_bool, as_null, as_number, as_array, as_u64, get};
ghost use Rattle.pc_input_tokens.specs.Shape.{list_of, headed, has_members, tagged};

/// A tree of JSON.
pub trait Tree: Sized {
    ghost means: { Self → Data };

    /// The text, if it is one.
    fn as_str(&self) -> Option<&str>
        ensures { option_map (λ s. s.now) result ≡ as_str (means self.now) };

    /// The truth value, if it is one.
    fn as_bool(&self) -> Option<bool>
        ensures { result ≡ as_bool (means self.now) };

    /// The number, if it is one without a sign, a fraction and an exponent.
    fn as_u64(&self) -> Option<u64>
        ensures { result ≡ option_and_then as_u64 (as_number (means self.now)) };

    /// Whether it is null.
    fn is_null(&self) -> bool
        ensures { result ≡ is_some (as_null (means self.now)) };

    /// Whether it is a number.
    fn is_number(&self) -> bool
        ensures { result ≡ is_some (as_number (means self.now)) };

    /// Whether it is an array.
    fn is_array(&self) -> bool
        ensures { result ≡ is_some (as_array (means self.now)) };

    /// The elements of an array.
    fn list(&self) -> Option<&[Self]>
        ensures { option_map (λ vs. map means vs.now) result ≡ list_of (means self.now) };

    /// Whether it is an object of exactly `n` members. Of those with one key the last counts.
    fn has_members(&self, n: usize) -> bool
        requires { n ≤ 8 }
        ensures { result ≡ has_members n (means self.now) };

    /// The member under a key.
    fn get(&self, key: &str) -> Option<&Self>
        ensures { option_map (λ v. means v.now) result ≡ get key.now (means self.now) };

    /// Key and value of an object of one member.
    fn tagged(&self) -> Option<(&str, &Self)>
        ensures { option_map (λ t. (t.0.now, means t.1.now)) result ≡ tagged (means self.now) };
}

/// The text at the head of an array, and the elements after it.
pub fn headed<V: Tree>(value: &V) -> Option<(&str, &[V])>
    ensures { option_map (λ t. (t.0.now, map V.means t.1.now)) result ≡ headed (V.means value.now) }
{
    match value.list() {
        Some([first, rest @ ..]) => {
            let word = first.as_str()?;
            Some((word, rest))
        }
        _ => None,
    }
}
