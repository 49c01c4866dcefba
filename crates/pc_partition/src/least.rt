//! The least number of each class.
//!
//! Keys are looked up in an ordered map: a hash could be made to be shared, since a caller's input chooses the pairs of
//! a meet.

ghost use Rattle.std.specs.Prelude.{◌≡◌, ◌<◌, length, Some, slice_get, IfOk};
ghost use Rattle.std.specs.BTreeMap.{get};
ghost use Rattle.pc_partition.specs.Firsts.{AreFirsts, TellsLeast, TellsNext};
ghost use Rattle.pc_partition.specs.Least.{Share};

use pc_entity::{ExactEq, NoMemory, Seq};
use std::alloc::Global;
use std::collections::BTreeMap;

/// The first place of a key that stood before.
fn place_of<K: ExactEq + Ord>(firsts: &BTreeMap<K, u32>, key: &K) -> Option<u32>
    ensures { result ≡ get K.cmp firsts.now key.now }
{
    firsts.get(key).copied()
}

/// The first place of a key, which is this one unless it stood before.
fn first_of<K: ExactEq + Ord + Drop>(
    firsts: &mut BTreeMap<K, u32>,
    key: K,
    place: u32,
) -> Result<u32, NoMemory>
    ensures { (keys : _) → AreFirsts keys place (get K.cmp firsts.old) → slice_get keys place ≡ Some (Some key)
        → IfOk result (TellsNext keys place (get K.cmp firsts.new)) }
{
    match place_of(firsts, &key) {
        Some(first) => Ok(first),
        None => {
            firsts.insert(key, place)?;
            Ok(place)
        }
    }
}

/// The least place that belongs to this one: the first of its key, or itself where it has no key.
fn next_least<K: ExactEq + Ord + Drop>(
    firsts: &mut BTreeMap<K, u32>,
    key: Option<K>,
    place: u32,
) -> Result<u32, NoMemory>
    ensures { (keys : _) → AreFirsts keys place (get K.cmp firsts.old) → slice_get keys place ≡ Some key
        → IfOk result (TellsNext keys place (get K.cmp firsts.new)) }
{
    match key {
        Some(key) => first_of(firsts, key, place),
        None => Ok(place),
    }
}

/// The least place that belongs to each place, in one pass: the first of its key, or itself where it has no key.
pub(crate) fn least_places<K: ExactEq + Ord + Drop + Copy>(
    alloc: Global,
    keys: &[Option<K>],
) -> Result<Seq<u32>, NoMemory>
    requires numbered { length keys.now < 4294967295 }
    ensures { IfOk result (λ least. TellsLeast (Share keys.now) (length keys.now) least) }
{
    let mut firsts = BTreeMap::new(alloc);
    let mut least = Seq::with_capacity(alloc, keys.len())?;
    for place in 0..keys.len() {
        let first = next_least(&mut firsts, keys[place], place as u32)?;
        least.push(first)?;
    }
    Ok(least)
}
