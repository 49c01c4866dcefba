//! Values by name, of a list in which a name may stand more than once.

ghost use Rattle.std.specs.Prelude.{◌≡◌, ℕ, List, IfOk, OnOk};
ghost use Rattle.pc_entity.specs.FirstValues.{with_first};
ghost use Rattle.pc_entity.specs.Lists.{value_of};

use crate::{NoMemory, Seed, Text, TextMap};
use std::alloc::Global;

/// The map from each name of a list to the first value that the list has for it.
///
/// A look-up in the map answers what a look through the list would, in the time of one in a map.
pub fn first_values<V: Copy>(
    alloc: Global,
    seed: Seed,
    entries: &[(Text, V)],
) -> Result<TextMap<V>, NoMemory>
    ensures { IfOk result (λ found. (name : List ℕ) → value_of name found ≡ value_of name entries.now) }
{
    let mut found = TextMap::new(alloc, seed);
    for entry in entries {
        found.insert_first(&entry.0, entry.1)?;
    }
    Ok(found)
}
