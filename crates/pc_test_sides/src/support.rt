//! What the tests share.

use pc_entity::{Seq, Text};
use std::alloc::Global;
use std::process::Abort;

/// That something holds. All assertions stand here, since each is proved anew where it stands.
pub(crate) fn holds(rt: &impl Abort, what: &str, holds: bool) {
    assert!(rt; holds, "{what}");
}

/// This text.
pub(crate) fn text(rt: &impl Abort, alloc: Global, text: &str) -> Text {
    Text::copy_of(alloc, text).expect(rt, "no memory")
}

/// Appends an item.
pub(crate) fn push<T: Drop>(rt: &impl Abort, list: &mut Seq<T>, item: T) {
    list.push(item).expect(rt, "no memory");
}
