//! What the tests share.

ghost use Rattle.std.specs.Prelude.{◌≡◌, true, None};
ghost use Rattle.pc_types.specs.Table.{table_fault};

use pc_entity::{Seed, Seq, Text};
use pc_types::{TypeTable, check_table};
use std::alloc::Global;
use std::process::Abort;

/// That something holds. All assertions stand here, since each is proved anew where it stands.
pub(crate) fn holds(rt: &impl Abort, what: &str, holds: bool)
    ensures { holds ≡ true }
{
    assert!(rt; holds, "{what}");
}

/// Whether a table is sound, and short enough to ask.
pub(crate) fn is_sound(alloc: Global, table: &TypeTable) -> bool
    ensures { result ≡ true → table_fault table.now ≡ None }
{
    if table.types.len() < 1_000_000 {
        check_table(alloc, Seed::fixed(), table).is_ok()
    } else {
        false
    }
}

/// This text.
pub(crate) fn text(rt: &impl Abort, alloc: Global, text: &str) -> Text {
    Text::copy_of(alloc, text).expect(rt, "no memory")
}

/// Appends an item.
pub(crate) fn push<T: Drop>(rt: &impl Abort, list: &mut Seq<T>, item: T) {
    list.push(item).expect(rt, "no memory");
}

/// A list of one item.
pub(crate) fn one<T: Drop>(rt: &impl Abort, alloc: Global, item: T) -> Seq<T> {
    let mut list = Seq::new(alloc);
    push(rt, &mut list, item);
    list
}
