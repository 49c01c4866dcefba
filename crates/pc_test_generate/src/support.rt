//! What the tests share.

ghost use Rattle.std.specs.Prelude.{◌≡◌, true};

use pc_entity::Seq;
use std::process::Abort;

/// That something holds. All assertions stand here, since each is proved anew where it stands.
pub(crate) fn holds(rt: &impl Abort, what: &str, holds: bool)
    ensures { holds ≡ true }
{
    assert!(rt; holds, "{what}");
}

/// The item of a list that has no other.
pub(crate) fn only<T>(list: &Seq<T>) -> Option<&T> {
    if list.len() == 1 {
        list.as_slice().get(0)
    } else {
        None
    }
}
