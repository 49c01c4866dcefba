//! An entry put into a list, unless the list is full.

ghost use Rattle.std.specs.Prelude.{◌≡◌, ◌++◌, ◌∷◌, ◌≤◌, ◌↔◌, [], length, slice_get, Some};
ghost use Rattle.std.specs.Prelude.{Err, IfOk, OnOk, OnErr};
ghost use Rattle.pc_dfg.specs.Pushed.{Changes, IsPut};

use crate::{Intern, PushError};
use pc_entity::{EntityRef, ExactEq, PrimaryMap};

/// The most entries of one list.
const MAX_ENTRIES: usize = 4294967295;

/// Adds an entry at the end, and answers its number.
pub(crate) fn append<K: EntityRef, V: Drop>(
    list: &mut PrimaryMap<K, V>,
    entry: V,
) -> Result<K, PushError>
    ensures key { IfOk result (λ key. key ≡ K.of_number (length list.old)) }
    ensures ok { OnOk result (list.new ≡ list.old ++ entry ∷ []) }
    ensures change { Changes list.old list.new entry }
    ensures full { (result ≡ Err PushError.TooMany) ↔ (4294967295 ≤ length list.old) }
    ensures err { OnErr result (list.new ≡ list.old) }
{
    if list.len() < MAX_ENTRIES {
        Ok(list.push(entry)?)
    } else {
        Err(PushError::TooMany)
    }
}

/// The number of an entry, which is added at the end unless an equal one is held.
pub(crate) fn intern<K: EntityRef, V: ExactEq + Drop>(
    list: &mut Intern<K, V>,
    entry: V,
) -> Result<K, PushError>
    ensures held { IfOk result (λ key. slice_get list.new (K.number key) ≡ Some entry) }
    ensures put { IsPut list.old list.new entry }
    ensures full { (result ≡ Err PushError.TooMany) ↔ (4294967295 ≤ length list.old) }
    ensures err { OnErr result (list.new ≡ list.old) }
{
    if list.len() < MAX_ENTRIES {
        Ok(list.push(entry)?)
    } else {
        Err(PushError::TooMany)
    }
}
