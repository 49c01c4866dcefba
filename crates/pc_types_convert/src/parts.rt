//! Which entries a conversion needs: those that the entry leads to, and it itself.
//!
//! An entry names earlier entries alone. So taking the last open entry and opening the ones that it names meets each of
//! them once, from the last to the first, whatever the table's shape. Entries that are done are not opened, and what
//! they lead to is done too.

ghost use Rattle.std.specs.Prelude.{◌≡◌, ℕ, ◌⊎◌, ◌<◌, ◌++◌, ◌∷◌, [], None, Some, length, slice_get, IfOk, OnOk};
ghost use Rattle.std.specs.Prelude.{true, false};
ghost use Rattle.std.specs.List.{flat_map};
ghost use Rattle.pc_types.specs.Table.{table_fault};
ghost use Rattle.pc_types_convert.specs.Needed.{AreNeeded, Each, IsAmong, IsDone, case_parts, entity_parts, extern_parts};
ghost use Rattle.pc_types_convert.specs.Needed.{field_parts, maybe_parts, parts_of, val_parts};

use crate::done::Done;
use pc_entity::{NoMemory, Text};
use pc_types::{DeclType, Entity, TypeTable, ValType};
use std::alloc::Global;
use std::collections::BTreeSet;

/// The entries that are to be converted for entry `n`, in ascending order, where some entries are done.
///
/// The time is that of a sort of what the entries name.
pub fn needed(alloc: Global, table: &TypeTable, done: &Done, n: u32) -> Result<Vec<u32>, NoMemory>
    requires sound { table_fault table.now ≡ None }
    requires there { n < length table.now.types }
    ensures { IfOk result (λ order. AreNeeded table.now done.now.all n order.items) }
{
    let mut order = Vec::new(alloc);
    let mut opened = BTreeSet::new(alloc);
    open_entry(&mut opened, done, n)?;
    while let Some(k) = opened.pop_last() {
        order.push(k)?;
        let named = entry_parts(alloc, entry_at(table, k))?;
        open_entries(&mut opened, done, named.as_slice())?;
    }
    order.reverse();
    Ok(order)
}

/// Entry `k`, which is there.
pub fn entry_at(table: &TypeTable, k: u32) -> &DeclType
    requires { k < length table.now.types }
    ensures { slice_get table.now.types k ≡ Some result.now }
{
    table.entry(k).unwrap()
}

/// An entry is opened, unless it is done.
fn open_entry(opened: &mut BTreeSet<u32>, done: &Done, n: u32) -> Result<(), NoMemory>
    ensures kept { OnOk result ((m : ℕ) → IsAmong m opened.old.keys → IsAmong m opened.new.keys) }
    ensures met { OnOk result (IsDone done.now.all n ⊎ IsAmong n opened.new.keys) }
    ensures only { OnOk result ((m : ℕ) → IsAmong m opened.new.keys → IsAmong m opened.old.keys ⊎ (m ≡ n)) }
    ensures fresh { OnOk result ((m : ℕ) → IsAmong m opened.new.keys → IsDone done.now.all m → IsAmong m opened.old.keys) }
{
    if !is_done(done, n) {
        opened.insert(n)?;
    }
    Ok(())
}

/// Whether an entry has its type.
fn is_done(done: &Done, n: u32) -> bool
    ensures yes { result ≡ true → IsDone done.now.all n }
    ensures no { result ≡ false → IsDone done.now.all n → ⊥ }
{
    done.get(n).is_some()
}

/// Each of some entries is opened, unless it is done.
fn open_entries(opened: &mut BTreeSet<u32>, done: &Done, ns: &[u32]) -> Result<(), NoMemory>
    ensures kept { OnOk result ((m : ℕ) → IsAmong m opened.old.keys → IsAmong m opened.new.keys) }
    ensures met { OnOk result (Each (λ n. IsDone done.now.all n ⊎ IsAmong n opened.new.keys) ns.now) }
    ensures only { OnOk result ((m : ℕ) → IsAmong m opened.new.keys → IsAmong m opened.old.keys ⊎ IsAmong m ns.now) }
    ensures fresh { OnOk result ((m : ℕ) → IsAmong m opened.new.keys → IsDone done.now.all m → IsAmong m opened.old.keys) }
{
    for n in ns {
        open_entry(opened, done, *n)?;
    }
    Ok(())
}

/// The entries that an entry names.
pub fn entry_parts(alloc: Global, entry: &DeclType) -> Result<Vec<u32>, NoMemory>
    ensures { IfOk result (λ ns. ns.items ≡ parts_of entry.now) }
{
    let mut ns = Vec::new(alloc);
    push_parts(&mut ns, entry)?;
    Ok(ns)
}

/// Adds the entries that an entry names.
fn push_parts(ns: &mut Vec<u32>, entry: &DeclType) -> Result<(), NoMemory>
    ensures { OnOk result (ns.new.items ≡ ns.old.items ++ parts_of entry.now) }
{
    match entry {
        DeclType::Func {
            params,
            result,
            async_: _,
        } => push_func(ns, params.as_slice(), *result),
        DeclType::Val(v) | DeclType::List(v) | DeclType::Option(v) => push_val(ns, *v),
        DeclType::Record(fields) => push_fields(ns, fields.as_slice()),
        DeclType::Variant(cases) => push_cases(ns, cases.as_slice()),
        DeclType::Tuple(vs) => push_vals(ns, vs.as_slice()),
        DeclType::Result { ok, err } => push_both(ns, *ok, *err),
        DeclType::Own(n) | DeclType::Borrow(n) => push(ns, *n),
        DeclType::Stream(v) | DeclType::Future(v) => push_maybe(ns, *v),
        DeclType::Instance { exports } => push_externs(ns, exports.as_slice()),
        DeclType::Component { imports, exports } => {
            push_component(ns, imports.as_slice(), exports.as_slice())
        }
        DeclType::Resource | DeclType::Flags(_) | DeclType::Enum(_) | DeclType::Module { .. } => Ok(
            (),
        ),
    }
}

/// Adds those that a function type names.
fn push_func(
    ns: &mut Vec<u32>,
    params: &[(Text, ValType)],
    returns: Option<ValType>,
) -> Result<(), NoMemory>
    ensures { OnOk result (ns.new.items ≡ ns.old.items ++ (flat_map field_parts params.now ++ maybe_parts returns)) }
{
    push_fields(ns, params)?;
    push_maybe(ns, returns)
}

/// Adds those that either type of a result names.
fn push_both(ns: &mut Vec<u32>, ok: Option<ValType>, err: Option<ValType>) -> Result<(), NoMemory>
    ensures { OnOk result (ns.new.items ≡ ns.old.items ++ (maybe_parts ok ++ maybe_parts err)) }
{
    push_maybe(ns, ok)?;
    push_maybe(ns, err)
}

/// Adds those that imports and exports name.
fn push_component(
    ns: &mut Vec<u32>,
    imports: &[(Text, Entity)],
    exports: &[(Text, Entity)],
) -> Result<(), NoMemory>
    ensures { OnOk result
        (ns.new.items ≡ ns.old.items ++ (flat_map extern_parts imports.now ++ flat_map extern_parts exports.now)) }
{
    push_externs(ns, imports)?;
    push_externs(ns, exports)
}

/// Adds those that fields name.
fn push_fields(ns: &mut Vec<u32>, fields: &[(Text, ValType)]) -> Result<(), NoMemory>
    ensures { OnOk result (ns.new.items ≡ ns.old.items ++ flat_map field_parts fields.now) }
{
    for field in fields {
        push_val(ns, field.1)?;
    }
    Ok(())
}

/// Adds those that cases name.
fn push_cases(ns: &mut Vec<u32>, cases: &[(Text, Option<ValType>)]) -> Result<(), NoMemory>
    ensures { OnOk result (ns.new.items ≡ ns.old.items ++ flat_map case_parts cases.now) }
{
    for case in cases {
        push_maybe(ns, case.1)?;
    }
    Ok(())
}

/// Adds those that value types name.
fn push_vals(ns: &mut Vec<u32>, vs: &[ValType]) -> Result<(), NoMemory>
    ensures { OnOk result (ns.new.items ≡ ns.old.items ++ flat_map val_parts vs.now) }
{
    for v in vs {
        push_val(ns, *v)?;
    }
    Ok(())
}

/// Adds those that imports or exports name.
fn push_externs(ns: &mut Vec<u32>, externs: &[(Text, Entity)]) -> Result<(), NoMemory>
    ensures { OnOk result (ns.new.items ≡ ns.old.items ++ flat_map extern_parts externs.now) }
{
    for item in externs {
        push_entity(ns, item.1)?;
    }
    Ok(())
}

/// Adds the one that a value type names, if there is one.
fn push_maybe(ns: &mut Vec<u32>, v: Option<ValType>) -> Result<(), NoMemory>
    ensures { OnOk result (ns.new.items ≡ ns.old.items ++ maybe_parts v) }
{
    match v {
        Some(v) => push_val(ns, v),
        None => Ok(()),
    }
}

/// Adds the one that a value type names.
fn push_val(ns: &mut Vec<u32>, v: ValType) -> Result<(), NoMemory>
    ensures { OnOk result (ns.new.items ≡ ns.old.items ++ val_parts v) }
{
    match v {
        ValType::Prim(_) => Ok(()),
        ValType::Type_(n) => push(ns, n),
    }
}

/// Adds the one that an entity names.
fn push_entity(ns: &mut Vec<u32>, e: Entity) -> Result<(), NoMemory>
    ensures { OnOk result (ns.new.items ≡ ns.old.items ++ entity_parts e) }
{
    match e {
        Entity::Func(n)
        | Entity::Instance(n)
        | Entity::Component(n)
        | Entity::Module(n)
        | Entity::Type_(n) => push(ns, n),
        Entity::Value => Ok(()),
    }
}

/// Adds an entry by its number.
fn push(ns: &mut Vec<u32>, n: u32) -> Result<(), NoMemory>
    ensures { OnOk result (ns.new.items ≡ ns.old.items ++ n ∷ []) }
{
    ns.push(n)?;
    Ok(())
}
