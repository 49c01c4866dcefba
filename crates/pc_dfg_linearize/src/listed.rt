//! An entry put into a numbered list, unless the list is full.

ghost use Rattle.std.specs.Prelude.{◌≡◌, ◌≤◌, ◌++◌, ◌∷◌, [], length, Err, IfOk, OnOk};
ghost use Rattle.pc_dfg_linearize.specs.declared.error.FinishError.TheVariants as refusal;

use crate::FinishError;
use pc_entity::{EntityRef, PrimaryMap};

/// The most entries of one list, so that no number is the one that stands for none.
const MAX_ENTRIES: usize = 4294967294;

/// Adds an entry at the end, and answers its number.
pub fn append<K: EntityRef, V: Drop>(
    list: &mut PrimaryMap<K, V>,
    entry: V,
) -> Result<K, FinishError>
    ensures key { IfOk result (λ key. key ≡ K.of_number (length list.old)) }
    ensures ok { OnOk result (list.new ≡ list.old ++ entry ∷ []) }
    ensures full { result ≡ Err refusal.TooMany → 4294967294 ≤ length list.old }
{
    if list.len() < MAX_ENTRIES {
        Ok(list.push(entry)?)
    } else {
        Err(FinishError::TooMany)
    }
}
