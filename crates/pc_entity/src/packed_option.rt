//! A number or none.

ghost use Rattle.std.specs.Prelude.{◌≡◌, None, Some, IsTrue, ◌↔◌};
ghost use Rattle.std.proofs.Common.{rules};
ghost use Rattle.pc_entity.specs.PackedOption.{as_option};

use crate::{EntityRef, ExactEq, NoMemory, TryClone};
use std::alloc::Global;

/// A number or none. Any number may be held, the greatest too.
#[derive(Clone, Copy, PartialEq, Eq, Hash)]
pub enum PackedOption<K> {
    None,
    Some(K),
}

impl<K> PackedOption<K> {
    /// No number.
    pub fn none() -> PackedOption<K>
        ensures { as_option result ≡ None }
    {
        PackedOption::None
    }

    /// The number `key`.
    pub fn some(key: K) -> PackedOption<K>
        ensures { as_option result ≡ Some key }
    {
        PackedOption::Some(key)
    }
}

impl<K: Copy> PackedOption<K> {
    /// The number that is held, or none, as an option of std.
    pub fn expand(self) -> Option<K>
        ensures { result ≡ as_option self }
    {
        match self {
            PackedOption::None => None,
            PackedOption::Some(key) => Some(key),
        }
    }

    /// Whether no number is held.
    pub fn is_none(self) -> bool
        ensures { IsTrue result ↔ (as_option self ≡ None) }
    {
        match self {
            PackedOption::None => true,
            PackedOption::Some(_) => false,
        }
    }
}

impl<K: EntityRef> TryClone for PackedOption<K> {
    fn try_clone(&self, _alloc: Global) -> Result<PackedOption<K>, NoMemory> {
        Ok(*self)
    }
}

impl<K: ExactEq> ExactEq for PackedOption<K> {
    ghost exact = { Prim.search (rules, K.exact) };
}
