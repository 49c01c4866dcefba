//! What the tests share.

ghost use Rattle.std.specs.Prelude.{◌≡◌, true, None};
ghost use Rattle.pc_types.specs.Table.{table_fault};

use pc_entity::{Seed, Seq, Text};
use pc_types::{Entity, TypeTable, check_table};
use pc_types_walk::{Leads, Walk};
use std::alloc::Global;
use std::process::Abort;

/// That something holds. All assertions stand here, since each is proved anew where it stands.
pub(crate) fn holds(rt: &impl Abort, what: &str, holds: bool)
    ensures { holds ≡ true }
{
    assert!(rt; holds, "{what}");
}

/// Whether a table is sound, and short enough to ask.
pub(crate) fn is_sound(alloc: Global, table: &TypeTable) -> bool
    ensures { result ≡ true → table_fault table.now ≡ None }
{
    if table.types.len() < 1_000_000 {
        check_table(alloc, Seed::fixed(), table).is_ok()
    } else {
        false
    }
}

/// The walk from an instance type of a table, if the table is sound and memory is there.
pub(crate) fn walk_from(alloc: Global, table: &TypeTable, n: u32) -> Option<Walk> {
    if !is_sound(alloc, table) {
        return None;
    }
    let leads = Leads::new(alloc, table).ok()?;
    leads.walk(alloc, table, Entity::Instance(n)).ok()
}

/// How many resources so many walks from an instance type find together.
pub(crate) fn found_together(alloc: Global, table: &TypeTable, n: u32, walks: u32) -> Option<u64> {
    if !is_sound(alloc, table) {
        return None;
    }
    let leads = Leads::new(alloc, table).ok()?;
    let mut found: u64 = 0;
    for _ in 0..walks {
        let walk = leads.walk(alloc, table, Entity::Instance(n)).ok()?;
        found = found.saturating_add(walk.found.len() as u64);
    }
    Some(found)
}

/// This text.
pub(crate) fn text(rt: &impl Abort, alloc: Global, text: &str) -> Text {
    Text::copy_of(alloc, text).expect(rt, "no memory")
}

/// Appends an item.
pub(crate) fn push<T: Drop>(rt: &impl Abort, list: &mut Seq<T>, item: T) {
    list.push(item).expect(rt, "no memory");
}
