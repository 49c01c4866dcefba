//! How many names stand in the trees of instance types.
//!
//! A tree may be exponential in the table that names it, so it is never made: the names of an entry are those of the
//! entries that it names, which stand before it, and its own.

ghost use Rattle.std.specs.Prelude.{◌≡◌, [], map, sum_by, IfOk};
ghost use Rattle.pc_spec_reading.specs.Total.{entity_names, entry_names, export_names, names_from};
ghost use Rattle.pc_weights.specs.Capped.{capped};

use crate::FULL;
use pc_entity::{NoMemory, Text};
use pc_types::{DeclType, Entity, TypeTable};
use std::alloc::Global;

/// How many names stand in the exports of an entity, with those of the entries before.
pub(crate) fn entity_names(earlier: &[u32], entity: Entity) -> u32
    ensures { result ≡ entity_names earlier.now entity }
{
    match entity {
        Entity::Instance(n) => match earlier.get(n as usize) {
            Some(names) => *names,
            None => 0,
        },
        _ => 0,
    }
}

/// How many names these exports are, with those in their trees.
fn names_of_exports(earlier: &[u32], exports: &[(Text, Entity)]) -> u32
    ensures { result ≡ capped (sum_by (export_names earlier.now) exports.now) }
{
    let mut left = FULL;
    for export in exports {
        let names = entity_names(earlier, export.1);
        left = left.saturating_sub(1).saturating_sub(names as usize);
    }
    (FULL - left) as u32
}

/// How many names stand in the tree of an entry.
fn entry_names(earlier: &[u32], entry: &DeclType) -> u32
    ensures { result ≡ capped (entry_names earlier.now entry.now) }
{
    match entry {
        DeclType::Instance { exports } => names_of_exports(earlier, exports.as_slice()),
        _ => 0,
    }
}

/// How many names stand in the tree of each entry of a table.
pub(crate) fn count_names(alloc: Global, table: &TypeTable) -> Result<Vec<u32>, NoMemory>
    ensures { IfOk result (λ names. names.items ≡ map capped (names_from [] table.now.types)) }
{
    let types = table.types.as_slice();
    let mut names = Vec::with_capacity(alloc, types.len())?;
    for entry in types {
        let count = entry_names(names.as_slice(), entry);
        names.push(count)?;
    }
    Ok(names)
}
