//! The nodes of what the host gives, by the entries of the type table.

ghost use Rattle.std.specs.Prelude.{◌≡◌, IfOk, fold};
ghost use Rattle.pc_inline_counts.specs.Counts.{entity_count, entry_count, entry_counts, one_node, with_export};

use crate::count::{NodeCount, count_at};
use pc_entity::{NoMemory, Seq, Text};
use pc_types::{DeclType, Entity, TypeTable, Unsupported};
use std::alloc::Global;

/// How many nodes are reached of an entity, by the entry that it names. There are no component values.
fn entity_count(earlier: &[NodeCount], entity: Entity) -> NodeCount
    ensures { result ≡ entity_count earlier.now entity }
{
    match entity {
        Entity::Func(n)
        | Entity::Instance(n)
        | Entity::Component(n)
        | Entity::Module(n)
        | Entity::Type_(n) => count_at(earlier, n),
        Entity::Value => NodeCount::nothing(),
    }
}

/// An instance with what it exports.
fn exports_count(earlier: &[NodeCount], exports: &[(Text, Entity)]) -> NodeCount
    ensures { result ≡ fold (with_export earlier.now) one_node exports.now }
{
    let mut count = NodeCount::one();
    for export in exports {
        count = count.and_after(entity_count(earlier, export.1));
    }
    count
}

/// How many nodes are reached of a host item whose type is this entry.
fn entry_count(earlier: &[NodeCount], entry: &DeclType) -> NodeCount
    ensures { result ≡ entry_count earlier.now entry.now }
{
    match entry {
        DeclType::Instance { exports } => exports_count(earlier, exports.as_slice()),
        DeclType::Component { .. } => NodeCount::refused(Unsupported::ComponentImport),
        _ => NodeCount::one(),
    }
}

/// The same of each entry of a table.
pub(crate) fn entry_counts(alloc: Global, table: &TypeTable) -> Result<Seq<NodeCount>, NoMemory>
    ensures { IfOk result (λ counts. counts ≡ entry_counts table.now) }
{
    let types = table.types.as_slice();
    let mut counts = Seq::with_capacity(alloc, types.len())?;
    for entry in types {
        let count = entry_count(counts.as_slice(), entry);
        counts.push(count)?;
    }
    Ok(counts)
}
