//! Copies that may find no memory, and are the same value where they find it.

ghost use Rattle.std.specs.Prelude.{◌≡◌, IfOk};

use crate::{EntityRef, NoMemory};
use std::alloc::Global;

/// A type whose values can be copied.
///
/// Unlike a `Clone` of std, a copy *is* its source. So `String` and `Vec` have no such copy, since theirs may differ in
/// capacity.
pub trait TryClone {
    /// The same value again, in memory of its own.
    fn try_clone(&self, alloc: Global) -> Result<Self, NoMemory>
        ensures { IfOk result (λ copy. copy ≡ self.now) };
}

impl TryClone for u32 {
    fn try_clone(&self, _alloc: Global) -> Result<u32, NoMemory> {
        Ok(*self)
    }
}

impl TryClone for bool {
    fn try_clone(&self, _alloc: Global) -> Result<bool, NoMemory> {
        Ok(*self)
    }
}

impl<K: EntityRef> TryClone for K {
    fn try_clone(&self, _alloc: Global) -> Result<K, NoMemory> {
        Ok(*self)
    }
}

impl<T: TryClone> TryClone for Option<T> {
    fn try_clone(&self, alloc: Global) -> Result<Option<T>, NoMemory> {
        match self {
            Some(value) => Ok(Some(value.try_clone(alloc)?)),
            None => Ok(None),
        }
    }
}

impl<A: TryClone + Drop, B: TryClone> TryClone for (A, B) {
    fn try_clone(&self, alloc: Global) -> Result<(A, B), NoMemory> {
        let a = self.0.try_clone(alloc)?;
        let b = self.1.try_clone(alloc)?;
        Ok((a, b))
    }
}

impl<A: TryClone + Drop, B: TryClone + Drop, C: TryClone> TryClone for (A, B, C) {
    fn try_clone(&self, alloc: Global) -> Result<(A, B, C), NoMemory> {
        let a = self.0.try_clone(alloc)?;
        let b = self.1.try_clone(alloc)?;
        let c = self.2.try_clone(alloc)?;
        Ok((a, b, c))
    }
}
