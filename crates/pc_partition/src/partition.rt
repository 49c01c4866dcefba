//! A partition of the function imports of a core module.

ghost use Rattle.std.specs.Prelude.{◌≡◌, ◌<◌, [], length, IfOk};
ghost use Rattle.pc_partition.specs.declared.partition.SameVmctxPartition.TheVariants as variant;
ghost use Rattle.pc_partition.specs.Partition.{IsMeet, IsOfKeys, IsPartition, representative};

use crate::classes::Classes;
use crate::pairs::pairs;
use pc_entity::{ExactEq, FuncIndex, NoMemory, TryClone};
use std::alloc::Global;

/// Which function imports come from one place in each instantiation that was looked at.
///
/// Partitions are ordered by refinement: where one puts less together it is lower. `Top` is above all others, `bottom`
/// below.
#[derive(Drop, Default)]
pub enum SameVmctxPartition {
    /// All come from one place: no instantiation was looked at.
    #[default]
    Top,
    /// The imports of a class come from one place. An import past the end is alone.
    Known(Classes),
}

impl SameVmctxPartition {
    /// Each import is alone. This takes no memory.
    pub fn bottom(alloc: Global) -> SameVmctxPartition
        ensures { result ≡ variant.Known [] }
    {
        SameVmctxPartition::Known(Classes::new(alloc))
    }

    /// What one instantiation says: imports with equal keys come from one place, and one without a key is alone.
    pub fn from_keys<K: ExactEq + Ord + Drop + Copy>(
        alloc: Global,
        keys: &[Option<K>],
    ) -> Result<SameVmctxPartition, NoMemory>
        requires numbered { length keys.now < 4294967295 }
        ensures { IfOk result (IsOfKeys keys.now) }
    {
        let classes = Classes::of_keys(alloc, keys)?;
        Ok(SameVmctxPartition::Known(classes))
    }

    /// What two partitions say together: imports are together where they are in both. This is the greatest lower
    /// bound, and takes time in the shorter of two lists.
    pub fn meet(
        alloc: Global,
        a: &SameVmctxPartition,
        b: &SameVmctxPartition,
    ) -> Result<SameVmctxPartition, NoMemory>
        ensures { IfOk result (IsMeet a.now b.now) }
    {
        match a {
            SameVmctxPartition::Top => b.try_clone(alloc),
            SameVmctxPartition::Known(first) => match b {
                SameVmctxPartition::Top => a.try_clone(alloc),
                SameVmctxPartition::Known(second) => meet_classes(alloc, first, second),
            },
        }
    }

    /// The least import that comes from the same place.
    pub fn representative(&self, f: FuncIndex) -> FuncIndex
        ensures { result.0 ≡ representative self.now f.0 }
    {
        match self {
            SameVmctxPartition::Top => FuncIndex(0),
            SameVmctxPartition::Known(classes) => match classes.as_slice().get(f.0 as usize) {
                Some(least) => FuncIndex(*least),
                None => f,
            },
        }
    }
}

/// The imports that are of one class in both.
fn meet_classes(alloc: Global, a: &Classes, b: &Classes) -> Result<SameVmctxPartition, NoMemory>
    ensures { IfOk result (IsMeet (variant.Known a.now) (variant.Known b.now)) }
{
    let keys = pairs(alloc, a.as_slice(), b.as_slice())?;
    SameVmctxPartition::from_keys(alloc, keys.as_slice())
}

impl TryClone for SameVmctxPartition {
    fn try_clone(&self, alloc: Global) -> Result<SameVmctxPartition, NoMemory>
        ensures copy { IfOk result (λ copy. copy ≡ self.now) }
        ensures is_partition { IfOk result (λ copy. IsPartition copy) }
    {
        match self {
            SameVmctxPartition::Top => Ok(SameVmctxPartition::Top),
            SameVmctxPartition::Known(classes) => {
                let copy = classes.try_clone(alloc)?;
                Ok(SameVmctxPartition::Known(copy))
            }
        }
    }
}
