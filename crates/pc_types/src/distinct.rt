//! Whether a name stands twice in a list, in time that is linear in its length.

ghost use Rattle.std.specs.Prelude.{◌≡◌, ℕ, List, IfOk, map};
ghost use Rattle.pc_entity.specs.Lists.{names_of};
ghost use Rattle.pc_types.specs.Names.{are_distinct, distinct_names, same_pair};

use crate::{NameSet, PairSet};
use pc_entity::{NoMemory, Seed, Text};
use std::alloc::Global;

/// Whether no name stands twice among these.
pub fn distinct_texts(alloc: Global, seed: Seed, names: &[Text]) -> Result<bool, NoMemory>
    ensures { IfOk result (λ distinct. distinct ≡ distinct_names names.now) }
{
    let mut met = NameSet::new(alloc, seed);
    for name in names {
        if !met.insert(name)? {
            return Ok(false);
        }
    }
    Ok(true)
}

/// Whether no name stands twice among those of these entries.
pub fn distinct_keys<V>(alloc: Global, seed: Seed, entries: &[(Text, V)]) -> Result<bool, NoMemory>
    ensures { IfOk result (λ distinct. distinct ≡ distinct_names (names_of entries.now)) }
{
    let mut met = NameSet::new(alloc, seed);
    for entry in entries {
        if !met.insert(&entry.0)? {
            return Ok(false);
        }
    }
    Ok(true)
}

/// Whether no pair of names stands twice among those of these entries.
pub fn distinct_pairs<V>(
    alloc: Global,
    seed: Seed,
    entries: &[(Text, Text, V)],
) -> Result<bool, NoMemory>
    ensures { IfOk result (λ distinct. distinct ≡ are_distinct same_pair (map (λ e. (e.0, e.1)) entries.now)) }
{
    let mut met = PairSet::new(alloc, seed);
    for entry in entries {
        if !met.insert(&entry.0, &entry.1)? {
            return Ok(false);
        }
    }
    Ok(true)
}
