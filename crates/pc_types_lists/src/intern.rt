//! A type put into its list.

ghost use Rattle.std.specs.Prelude.{◌≡◌, ◌≤◌, length, slice_get, Some, Err, IfOk, OnErr, Contains, IfSome};
ghost use Rattle.pc_types_lists.specs.Interned.{IsPut, IsPutWith};
ghost use Rattle.pc_types_lists.specs.Labels.{HasLabelsOf};

use crate::labelled::{HasLabels, Labelled};
use crate::no_place::NoPlace;
use crate::{FactList, TypeFacts};
use pc_entity::{ExactEq, Interner};

/// The most types of one kind.
pub(crate) const MAX_TYPES: usize = 4294967294;

/// The number of a type, which is added to its list unless an equal one is held.
pub(crate) fn intern<V: ExactEq + Drop>(list: &mut Interner<V>, value: V) -> Result<u32, NoPlace>
    requires within { length list.old ≤ 4294967294 }
    ensures held { IfOk result (λ key. slice_get list.new key ≡ Some value) }
    ensures put { IsPut list.old list.new value }
    ensures err { OnErr result (list.new ≡ list.old) }
    ensures full { result ≡ Err NoPlace.TooMany → (length list.new ≡ 4294967294) × (Contains list.new value → ⊥) }
    ensures within { length list.new ≤ 4294967294 }
{
    if list.len() < MAX_TYPES {
        return Ok(list.push(value)?);
    }
    match list.find(&value) {
        Some(key) => Ok(key),
        None => Err(NoPlace::TooMany),
    }
}

/// The number of a type that has facts, which go to the end of their list where the type goes to the end of its.
pub(crate) fn intern_with<V: ExactEq + Drop>(
    list: &mut Interner<V>,
    facts: &mut FactList,
    value: V,
    of_value: TypeFacts,
) -> Result<u32, NoPlace>
    requires within { length list.old ≤ 4294967294 }
    requires paired { length facts.old ≡ length list.old }
    ensures held { IfOk result (λ key. slice_get list.new key ≡ Some value) }
    ensures put { IsPut list.old list.new value }
    ensures err { OnErr result (list.new ≡ list.old) }
    ensures facts { IsPutWith list.old list.new facts.old facts.new value of_value }
    ensures full { result ≡ Err NoPlace.TooMany → (length list.new ≡ 4294967294) × (Contains list.new value → ⊥) }
    ensures within { length list.new ≤ 4294967294 }
{
    facts.push(of_value)?;
    let number = intern(list, value);
    facts.truncate(list.len());
    number
}

/// The same of a type with labels, where `like` may be the number of one that has the same.
pub(crate) fn put_with<V: HasLabels + Drop>(
    list: &mut Labelled<V>,
    facts: &mut FactList,
    value: V,
    of_value: TypeFacts,
    like: Option<u32>,
) -> Result<u32, NoPlace>
    requires within { length list.old ≤ 4294967294 }
    requires paired { length facts.old ≡ length list.old }
    requires like { IfSome like (λ n. HasLabelsOf V.labels list.old n value) }
    ensures held { IfOk result (λ key. slice_get list.new key ≡ Some value) }
    ensures put { IsPut list.old list.new value }
    ensures err { OnErr result (list.new ≡ list.old) }
    ensures facts { IsPutWith list.old list.new facts.old facts.new value of_value }
    ensures full { result ≡ Err NoPlace.TooMany → (length list.new ≡ 4294967294) × (Contains list.new value → ⊥) }
    ensures within { length list.new ≤ 4294967294 }
{
    facts.push(of_value)?;
    let number = list.put(value, like);
    facts.truncate(list.len());
    number
}
