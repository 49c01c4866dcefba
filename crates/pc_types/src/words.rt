//! Types whose values are words alone: copies of them, and their `==`, which answers true of identical values alone.

ghost use Rattle.pc_types.specs.EqualWords.{encoding_exact, intrinsic_exact, kind_exact};

use crate::{StringEncoding, TrampolineKind, UnsafeIntrinsic};
use pc_entity::{ExactEq, NoMemory, TryClone};
use std::alloc::Global;

impl ExactEq for TrampolineKind {
    ghost exact = { kind_exact };
}

impl ExactEq for UnsafeIntrinsic {
    ghost exact = { intrinsic_exact };
}

impl ExactEq for StringEncoding {
    ghost exact = { encoding_exact };
}

impl TryClone for TrampolineKind {
    fn try_clone(&self, _alloc: Global) -> Result<TrampolineKind, NoMemory> {
        Ok(*self)
    }
}

impl TryClone for UnsafeIntrinsic {
    fn try_clone(&self, _alloc: Global) -> Result<UnsafeIntrinsic, NoMemory> {
        Ok(*self)
    }
}

impl TryClone for StringEncoding {
    fn try_clone(&self, _alloc: Global) -> Result<StringEncoding, NoMemory> {
        Ok(*self)
    }
}
