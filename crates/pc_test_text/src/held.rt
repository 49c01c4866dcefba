//! Whether a plan may be printed: whether each name of an export has its item.

ghost use Rattle.std.specs.Prelude.{◌≡◌};
ghost use Rattle.pc_info.specs.Exports.{are_behind_their_parts, has_items, is_behind_its_parts, names_below};

use pc_entity::{EntityRef, ExportIndex, Text};
use pc_info::{Component, Export};
use pc_names::RawIter;
use pc_types::ComponentExternData;

/// Whether each name has one of the first items.
fn names_below(count: usize, names: RawIter<'_, Text, (ExportIndex, ComponentExternData)>) -> bool
    ensures { result ≡ names_below count names.entry }
{
    let mut left = names;
    'names: while let Some((_name, entry)) = left.next() {
        if entry.0.as_u32() as usize >= count {
            return false;
        }
    }
    true
}

fn is_behind_its_parts(n: usize, item: &Export) -> bool
    ensures { result ≡ is_behind_its_parts n item.now }
{
    match item {
        Export::Instance { exports, .. } => names_below(n, exports.raw_iter()),
        _ => true,
    }
}

fn are_behind_their_parts(items: &[Export]) -> bool
    ensures { result ≡ are_behind_their_parts 0 items.now }
{
    for (n, item) in items.iter().enumerate() {
        if !is_behind_its_parts(n, item) {
            return false;
        }
    }
    true
}

/// Whether each name of the exports has an item, and each name within an item one that stands before it.
pub(crate) fn has_items(component: &Component) -> bool
    ensures { result ≡ has_items component.now }
{
    let items = &component.export_items;
    names_below(items.len(), component.exports.raw_iter())
        && are_behind_their_parts(items.as_slice())
}
