//! Classes of numbers, each told by its least number.

ghost use Rattle.std.specs.Prelude.{◌≡◌, ◌<◌, [], length, IfOk};
ghost use Rattle.pc_partition.specs.Firsts.{TellsLeast};
ghost use Rattle.pc_partition.specs.Least.{AreLeast, Share};

use crate::least::least_places;
use pc_entity::{ExactEq, NoMemory, Seq, TryClone};
use std::alloc::Global;
use std::marker::Model;

/// The least number of the class of each of the first numbers. A contract sees the list.
#[derive(Drop)]
pub struct Classes {
    least: Seq<u32>,
}

impl Model for Classes {
    ghost use Rattle.std.specs.Prelude.{List, ℕ};
    ghost use Rattle.pc_partition.specs.Least.{AreLeast};

    ghost Value = { List ℕ };

    ghost view = { λ c. c.least };

    ghost invariant = { λ c. AreLeast c.least };
}

impl Classes {
    /// The empty list, which takes no memory.
    pub(crate) fn new(alloc: Global) -> Classes
        ensures { result ≡ [] }
    {
        Classes {
            least: Seq::new(alloc),
        }
    }

    /// The least place that has the same key as each place. A place without a key is in a class of its own.
    pub(crate) fn of_keys<K: ExactEq + Ord + Drop + Copy>(
        alloc: Global,
        keys: &[Option<K>],
    ) -> Result<Classes, NoMemory>
        requires numbered { length keys.now < 4294967295 }
        ensures { IfOk result (λ least. TellsLeast (Share keys.now) (length keys.now) least) }
    {
        let least = least_places(alloc, keys)?;
        Ok(Classes { least })
    }

    /// The least numbers themselves.
    pub fn as_slice(&self) -> &[u32]
        ensures values { result.now ≡ self.now }
        ensures least { AreLeast self.now }
    {
        self.least.as_slice()
    }
}

impl TryClone for Classes {
    fn try_clone(&self, alloc: Global) -> Result<Classes, NoMemory>
        ensures copy { IfOk result (λ copy. copy ≡ self.now) }
        ensures least { AreLeast self.now }
    {
        let least = self.least.try_clone(alloc)?;
        Ok(Classes { least })
    }
}
