//! Through which exports of each instance type the paths to resources go.
//!
//! Many items may name one instance type, and a type may have any number of exports. So a walk doesn't look through all
//! of them: one pass over the table finds the few that count. An export that leads to no resource is left out, and so
//! is one that names what an earlier export of the type names, since all that it leads to was met there. Of entries
//! that are no instance types nothing is kept.

ghost use Rattle.std.specs.Prelude.{◌≡◌, ◌<◌, ◌≤◌, true, false, None, Some, IfOk, OnOk, if◌then◌else◌, length, map};
ghost use Rattle.std.specs.Prelude.{option_map, slice_get};
ghost use Rattle.std.specs.Option.{option_copied};
ghost use Rattle.pc_types.specs.Table.{is_resource, is_some_and, table_fault};
ghost use Rattle.pc_types_walk.specs.Leads.{AreLeads, number_of};
ghost use Rattle.pc_types_walk.specs.Kept.{Keeps, KeepsNumber, has_items, kept_from, part_of, place_of};
ghost use Rattle.pc_types_walk.specs.Walks.{exports_of};

use pc_entity::{NoMemory, Seq, Text};
use pc_types::{DeclType, Entity, TypeTable};
use std::alloc::Global;
use std::collections::BTreeSet;
use std::marker::Model;

/// Of each entry of a table the exports that a walk goes through, by their places among the exports of the entry.
#[derive(Drop)]
pub struct Leads {
    through: Seq<Seq<usize>>,
}

impl Model for Leads {
    ghost use Rattle.std.specs.Prelude.{ℕ, List};

    ghost Value = { List (List ℕ) };

    ghost view = { λ s. s.through };
}

impl Leads {
    /// Those of a sound table, in one pass. The time is that of a sort of what the exports name.
    pub fn new(alloc: Global, table: &TypeTable) -> Result<Leads, NoMemory>
        requires sound { table_fault table.now ≡ None }
        ensures { IfOk result (λ leads. AreLeads table.now leads) }
    {
        let mut through = Seq::new(alloc);
        for entry in table.types.as_slice() {
            let kept = kept_exports(alloc, table, through.as_slice(), entry)?;
            through.push(kept)?;
        }
        Ok(Leads { through })
    }

    /// Whether there is an entry `n`.
    pub(crate) fn has_entry(&self, n: u32) -> bool
        ensures there { result ≡ true → n < length self.now }
        ensures past { result ≡ false → length self.now ≤ n }
    {
        (n as usize) < self.through.len()
    }

    /// Those of entry `n`, if there is one.
    pub(crate) fn exports(&self, n: u32) -> Option<&Seq<usize>>
        ensures { option_copied result ≡ slice_get self.now n }
    {
        self.through.as_slice().get(n as usize)
    }
}

/// The exports of an entry that a walk goes through, where those of the entries before are known.
fn kept_exports(
    alloc: Global,
    table: &TypeTable,
    through: &[Seq<usize>],
    entry: &DeclType,
) -> Result<Seq<usize>, NoMemory>
    ensures { IfOk result (λ kept. kept
        ≡ map place_of (kept_from (part_of table.now through.now) (λ n. false) 0 (exports_of entry.now))) }
{
    match entry {
        DeclType::Instance { exports } => kept_among(alloc, table, through, exports.as_slice()),
        _ => Ok(Seq::new(alloc)),
    }
}

/// Those of some exports that lead to a resource, each that an earlier one doesn't name.
fn kept_among(
    alloc: Global,
    table: &TypeTable,
    through: &[Seq<usize>],
    exports: &[(Text, Entity)],
) -> Result<Seq<usize>, NoMemory>
    ensures { IfOk result (λ kept. kept
        ≡ map place_of (kept_from (part_of table.now through.now) (λ n. false) 0 exports.now)) }
{
    let mut seen = BTreeSet::new(alloc);
    let mut kept = Seq::new(alloc);
    for (place, export) in exports.iter().enumerate() {
        let number = part_number(table, through, export.1);
        keep(&mut seen, &mut kept, place, number)?;
    }
    Ok(kept)
}

/// The place of one export more is kept, if it leads to a resource and what it names wasn't seen.
fn keep(
    seen: &mut BTreeSet<u32>,
    kept: &mut Seq<usize>,
    place: usize,
    number: Option<u32>,
) -> Result<(), NoMemory>
    ensures { OnOk result (Keeps place number seen.old seen.new kept.old kept.new) }
{
    match number {
        Some(n) => keep_number(seen, kept, place, n),
        None => Ok(()),
    }
}

/// The same of one that leads to a resource.
fn keep_number(
    seen: &mut BTreeSet<u32>,
    kept: &mut Seq<usize>,
    place: usize,
    n: u32,
) -> Result<(), NoMemory>
    ensures { OnOk result (KeepsNumber place n seen.old seen.new kept.old kept.new) }
{
    if seen.insert(n)? {
        kept.push(place)?;
        return Ok(());
    }
    Ok(())
}

/// The number of what an export names, if it leads to a resource.
fn part_number(table: &TypeTable, through: &[Seq<usize>], e: Entity) -> Option<u32>
    ensures { result ≡ option_map number_of (part_of table.now through.now e) }
{
    match e {
        Entity::Type_(n) => if_true(is_resource_at(table, n), n),
        Entity::Instance(n) => if_true(leads_on(through, n), n),
        _ => None,
    }
}

/// A number, where a test passes.
fn if_true(passes: bool, n: u32) -> Option<u32>
    ensures { result ≡ (if passes then Some n else None) }
{
    if passes { Some(n) } else { None }
}

/// Whether entry `n` is there and a resource type.
pub(crate) fn is_resource_at(table: &TypeTable, n: u32) -> bool
    ensures { result ≡ is_some_and is_resource (slice_get table.now.types n) }
{
    match table.entry(n) {
        Some(entry) => entry.is_resource(),
        None => false,
    }
}

/// Whether entry `n` has exports that a walk goes through.
fn leads_on(through: &[Seq<usize>], n: u32) -> bool
    ensures { result ≡ is_some_and has_items (slice_get through.now n) }
{
    match through.get(n as usize) {
        Some(exports) => !exports.is_empty(),
        None => false,
    }
}
