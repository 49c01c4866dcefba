//! Which entries name an entry that has a type of this component instance.

ghost use Rattle.std.specs.Prelude.{◌≡◌, ℕ, OnOk, is_some, true};
ghost use Rattle.std.specs.Ordering.{nat_cmp};
ghost use Rattle.std.specs.BTreeMap.{get};
ghost use Rattle.pc_types_convert.specs.Needed.{IsAmong};
ghost use Rattle.pc_types_convert.specs.Users.{KeepsUsers, users_of};

use pc_entity::NoMemory;
use pc_types::TypeDef;
use std::alloc::Global;
use std::collections::BTreeMap;

/// Entry `k` is noted for each of these parts that has a type of this component instance. Only memory may be wanting.
pub(crate) fn note_parts(
    alloc: Global,
    own: &BTreeMap<u32, TypeDef>,
    users: &mut BTreeMap<u32, Vec<u32>>,
    k: u32,
    parts: &[u32],
) -> Result<(), NoMemory>
    ensures noted { OnOk result ((p : ℕ) → IsAmong p parts.now → is_some (get nat_cmp own.now p) ≡ true
        → IsAmong k (users_of users.new p)) }
    ensures kept { KeepsUsers users.old users.new }
{
    for p in parts {
        if own.contains_key(p) {
            note(alloc, users, *p, k)?;
        }
    }
    Ok(())
}

/// Entry `k` is noted among those that name entry `p`. Only memory may be wanting.
fn note(alloc: Global, users: &mut BTreeMap<u32, Vec<u32>>, p: u32, k: u32) -> Result<(), NoMemory>
    ensures noted { OnOk result (IsAmong k (users_of users.new p)) }
    ensures kept { KeepsUsers users.old users.new }
{
    match users.get_mut(&p) {
        Some(named) => {
            named.push(k)?;
            Ok(())
        }
        None => {
            let mut named = Vec::new(alloc);
            named.push(k)?;
            users.insert(p, named)?;
            Ok(())
        }
    }
}
