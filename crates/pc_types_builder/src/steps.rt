//! The entries of a type table, converted one by one.
//!
//! What an entry needs is found first (`parts`), and then converted in ascending order: what an entry names has its
//! type before it.

ghost use Rattle.std.specs.Prelude.{◌≡◌, ◌<◌, ℕ, None, Some, Err, IfOk, OnOk, false, length, take};
ghost use Rattle.std.specs.Prelude.{slice_get};
ghost use Rattle.pc_types.specs.declared.parsed.DeclType.{DeclType};
ghost use Rattle.pc_types.specs.declared.types.TypeDef.{TypeDef};
ghost use Rattle.pc_types.specs.Table.{table_fault};
ghost use Rattle.pc_types_lists.specs.Types.{Grows, IsTooFullFor};
ghost use Rattle.pc_types_lists.specs.Adds.{AddsTypes, HasNoPlaceFor, most_types};
ghost use Rattle.pc_types_builder.specs.Trees.{IsEntry};
ghost use Rattle.pc_types_builder.specs.Converted.{AreConverted, IsOfKind};
ghost use Rattle.pc_types_convert.specs.Entries.{EntryIs};
ghost use Rattle.pc_types_convert.specs.Adds.{AddsEntry};
ghost use Rattle.pc_types_builder.specs.Asked.{AddsAsked};
ghost use Rattle.pc_types_convert.specs.Needed.{AreNeeded, Each, IsDone, parts_of};

use crate::Converted;
use pc_entity::NoMemory;
use pc_types::{DeclType, TypeDef, TypeTable};
use pc_types_convert::{convert, entry_at, entry_parts, is_plain, needed};
use pc_types_lists::{InternedTypes, NoPlace};
use std::alloc::Global;

/// Entry `n`, which is there, with all that it leads to.
pub(crate) fn entry_type(
    interned: &mut InternedTypes,
    table: &TypeTable,
    n: u32,
) -> Result<TypeDef, NoPlace>
    requires sound { table_fault table.now ≡ None }
    requires there { n < length table.now.types }
    ensures tree { IfOk result (λ d. IsEntry interned.new table.now n d) }
    ensures kind { IfOk result (λ d. (e : DeclType) → slice_get table.now.types n ≡ Some e → IsOfKind e d) }
    ensures grows { Grows interned.old interned.new }
    ensures adds { AddsAsked table.now n interned.old interned.new }
    ensures full { result ≡ Err NoPlace.TooMany → IsTooFullFor interned.new
        (λ b. (d : TypeDef) × IsEntry b table.now n d) }
    ensures few { AddsTypes table.now (most_types table.now) interned.old interned.new }
    ensures before { result ≡ Err NoPlace.TooMany → HasNoPlaceFor table.now interned.old }
{
    let mut converted = Converted::new(interned.alloc(), table);
    entry_with(interned, table, n, &mut converted)
}

/// Entry `n`, which is there, with all that it leads to, where some entries are converted.
pub(crate) fn entry_with(
    interned: &mut InternedTypes,
    table: &TypeTable,
    n: u32,
    converted: &mut Converted,
) -> Result<TypeDef, NoPlace>
    requires sound { table_fault table.now ≡ None }
    requires there { n < length table.now.types }
    requires converted { AreConverted interned.old table.now converted.old }
    ensures converted { AreConverted interned.new table.now converted.new }
    ensures tree { IfOk result (λ d. IsEntry interned.new table.now n d) }
    ensures kind { IfOk result (λ d. (e : DeclType) → slice_get table.now.types n ≡ Some e → IsOfKind e d) }
    ensures grows { Grows interned.old interned.new }
    ensures adds { AddsAsked table.now n interned.old interned.new }
    ensures full { result ≡ Err NoPlace.TooMany → IsTooFullFor interned.new
        (λ b. (d : TypeDef) × IsEntry b table.now n d) }
    ensures few { AddsTypes table.now (most_types table.now) interned.old interned.new }
    ensures before { result ≡ Err NoPlace.TooMany → HasNoPlaceFor table.now interned.old }
{
    let order = needed(interned.alloc(), table, converted.done(), n)?;
    let outcome = convert_needed(interned, table, n, order.as_slice(), converted);
    interned.types_are_distinct();
    outcome?;
    Ok(converted.type_at(n))
}

/// The entries that are needed for entry `n`, in ascending order, are converted.
fn convert_needed(
    interned: &mut InternedTypes,
    table: &TypeTable,
    n: u32,
    order: &[u32],
    converted: &mut Converted,
) -> Result<(), NoPlace>
    requires sound { table_fault table.now ≡ None }
    requires needed { AreNeeded table.now converted.old.all n order.now }
    requires converted { AreConverted interned.old table.now converted.old }
    ensures converted { AreConverted interned.new table.now converted.new }
    ensures done { OnOk result (IsDone converted.new.all n) }
    ensures grows { Grows interned.old interned.new }
    ensures adds { AddsAsked table.now n interned.old interned.new }
    ensures full { result ≡ Err NoPlace.TooMany → IsTooFullFor interned.new
        (λ b. (d : TypeDef) × IsEntry b table.now n d) }
{
    for k in order {
        step(interned, table, converted, *k)?;
    }
    Ok(())
}

/// Entry `k`, where what it names is converted.
fn step(
    interned: &mut InternedTypes,
    table: &TypeTable,
    converted: &mut Converted,
    k: u32,
) -> Result<(), NoPlace>
    requires sound { table_fault table.now ≡ None }
    requires there { k < length table.now.types }
    requires converted { AreConverted interned.old table.now converted.old }
    requires parts { (e : DeclType) → slice_get table.now.types k ≡ Some e
        → Each (IsDone converted.old.all) (parts_of e) }
    ensures converted { AreConverted interned.new table.now converted.new }
    ensures done { OnOk result (IsDone converted.new.all k) }
    ensures kept { (m : ℕ) → IsDone converted.old.all m → IsDone converted.new.all m }
    ensures grows { Grows interned.old interned.new }
    ensures adds { (e : DeclType) → slice_get table.now.types k ≡ Some e
        → AddsEntry (take k converted.old.all) table.now k e interned.old interned.new }
    ensures full { result ≡ Err NoPlace.TooMany
        → IsTooFullFor interned.new
        (λ b. (e : DeclType) × (slice_get table.now.types k ≡ Some e) × (d : TypeDef)
        × EntryIs b (take k converted.old.all) table.now k e d) }
{
    let entry = entry_at(table, k);
    let like = converted.like(k);
    let type_ = convert(interned, table, &converted.in_front(k), k, entry, like)?;
    let plain = is_plain(converted.done(), entry);
    let named = noted_parts(interned.alloc(), entry, plain)?;
    converted.put(k, type_, plain, named.as_slice())?;
    Ok(())
}

/// The entries for which an entry is noted. Those that an entry names are the same in each component instance where it
/// is the same itself, so nothing of them is noted.
fn noted_parts(alloc: Global, entry: &DeclType, plain: bool) -> Result<Vec<u32>, NoMemory>
    ensures { IfOk result (λ named. plain ≡ false → named.items ≡ parts_of entry.now) }
{
    if plain {
        Ok(Vec::new(alloc))
    } else {
        entry_parts(alloc, entry)
    }
}
