//! Pairs of the entries of two lists.

ghost use Rattle.std.specs.Prelude.{◌≡◌, min, IfOk};
ghost use Rattle.pc_partition.specs.Pairs.{ArePairs};

use pc_entity::NoMemory;
use std::alloc::Global;

/// The lesser of two lengths.
fn shorter(a: usize, b: usize) -> usize
    ensures { result ≡ min a b }
{
    if a < b { a } else { b }
}

/// The pairs of the entries of two lists, as many as the shorter one has.
pub(crate) fn pairs(
    alloc: Global,
    a: &[u32],
    b: &[u32],
) -> Result<Vec<Option<(u32, u32)>>, NoMemory>
    ensures { IfOk result (λ keys. ArePairs a.now b.now keys.items) }
{
    let size = shorter(a.len(), b.len());
    let mut keys = Vec::with_capacity(alloc, size)?;
    for place in 0..size {
        keys.push(Some((a[place], b[place])))?;
    }
    Ok(keys)
}
