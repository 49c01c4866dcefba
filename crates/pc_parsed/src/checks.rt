//! What is wrong with items that are looked at one by one.

ghost use Rattle.std.specs.Prelude.{◌≡◌, ℕ, List, Option, IfOk, map};
ghost use Rattle.std.specs.List.{list_any};
ghost use Rattle.std.specs.Option.{option_or};
ghost use Rattle.pc_types.specs.Names.{distinct_names};
ghost use Rattle.pc_parsed.specs.ItemFaults.{alias_fault, argument_name, arguments_fault, canon_fault};
ghost use Rattle.pc_parsed.specs.ItemFaults.{component_instance_fault, first_item, instance_fault, is_value_kind};
ghost use Rattle.pc_parsed.specs.ItemFaults.{item_name, items_fault, outer_fault, slot_fault, unless, value_fault};
ghost use Rattle.pc_parsed.specs.declared.fault.StaticFault.{StaticFault};

use crate::canon::CanonItem;
use crate::fault::StaticFault;
use crate::payload::{
    AliasItem, ComponentInstanceItem, ExternName, InstanceItem, ItemKind, OuterKind,
};
use pc_entity::{NoMemory, Seed, Text};
use pc_types::{NameSet, Unsupported, WasmValType, distinct_keys};
use std::alloc::Global;

/// An item that is looked at by itself, where so many bodies are open.
pub(crate) trait Checked {
    // What is wrong with the item.
    ghost fault: { ℕ → Self → Option StaticFault };

    fn fault(
        &self,
        alloc: Global,
        seed: Seed,
        open_count: usize,
    ) -> Result<Option<StaticFault>, NoMemory>
        ensures { IfOk result (λ f. f ≡ fault open_count self.now) };
}

/// The first item that has a fault, with its number.
pub(crate) fn first_item<T: Checked>(
    alloc: Global,
    seed: Seed,
    open_count: usize,
    items: &[T],
) -> Result<Option<(usize, StaticFault)>, NoMemory>
    ensures { IfOk result (λ f. f ≡ first_item (T.fault open_count) 0 items.now) }
{
    for (n, item) in items.iter().enumerate() {
        if let Some(fault) = item.fault(alloc, seed, open_count)? {
            return Ok(Some((n, fault)));
        }
    }
    Ok(None)
}

fn unless(holds: bool, fault: StaticFault) -> Option<StaticFault>
    ensures { result ≡ unless holds fault }
{
    if holds { None } else { Some(fault) }
}

/// Whether a kind is that of component values.
pub(crate) fn is_value_kind(kind: ItemKind) -> bool
    ensures { result ≡ is_value_kind kind }
{
    matches!(kind, ItemKind::Value)
}

/// Component values aren't supported.
pub(crate) fn value_fault(is_value: bool) -> Option<StaticFault>
    ensures { result ≡ value_fault is_value }
{
    if is_value {
        Some(StaticFault::Unsupported(Unsupported::ComponentValue))
    } else {
        None
    }
}

fn slot_fault(what: Unsupported, ty: WasmValType) -> Option<StaticFault>
    ensures { result ≡ slot_fault what ty }
{
    match ty {
        WasmValType::I32 => None,
        _ => Some(StaticFault::Unsupported(what)),
    }
}

impl Checked for CanonItem {
    ghost fault = { λ _. canon_fault };

    fn fault(
        &self,
        _alloc: Global,
        _seed: Seed,
        _open_count: usize,
    ) -> Result<Option<StaticFault>, NoMemory> {
        Ok(match self {
            CanonItem::ThreadSpawnRef
            | CanonItem::ThreadSpawnIndirect
            | CanonItem::ThreadAvailableParallelism => {
                Some(StaticFault::Unsupported(Unsupported::ThreadSpawn))
            }
            CanonItem::StreamForward => Some(StaticFault::Unsupported(Unsupported::StreamForward)),
            CanonItem::FutureForward => Some(StaticFault::Unsupported(Unsupported::FutureForward)),
            CanonItem::ContextGet(_, ty, _) => slot_fault(Unsupported::ContextGetType, *ty),
            CanonItem::ContextSet(_, ty, _) => slot_fault(Unsupported::ContextSetType, *ty),
            _ => None,
        })
    }
}

impl Checked for InstanceItem {
    ghost fault = { λ _. instance_fault };

    fn fault(
        &self,
        alloc: Global,
        seed: Seed,
        _open_count: usize,
    ) -> Result<Option<StaticFault>, NoMemory> {
        let distinct = match self {
            InstanceItem::Instantiate { args, .. } => distinct_keys(alloc, seed, args.as_slice())?,
            InstanceItem::FromExports(items) => distinct_keys(alloc, seed, items.as_slice())?,
        };
        Ok(unless(distinct, StaticFault::DefinedTwice))
    }
}

/// An entry of a list that stands there under a name.
trait Named {
    ghost name_of: { Self → List ℕ };

    fn name(&self) -> &Text
        ensures { result.now ≡ name_of self.now };
}

impl Named for (Text, ItemKind, u32) {
    ghost name_of = { argument_name };

    fn name(&self) -> &Text {
        &self.0
    }
}

impl Named for (ExternName, ItemKind, u32) {
    ghost name_of = { item_name };

    fn name(&self) -> &Text {
        &self.0.name
    }
}

fn are_named_apart<T: Named>(alloc: Global, seed: Seed, entries: &[T]) -> Result<bool, NoMemory>
    ensures { IfOk result (λ apart. apart ≡ distinct_names (map T.name_of entries.now)) }
{
    let mut met = NameSet::new(alloc, seed);
    for entry in entries {
        if !met.insert(entry.name())? {
            return Ok(false);
        }
    }
    Ok(true)
}

fn names_fault<T: Named>(
    alloc: Global,
    seed: Seed,
    entries: &[T],
) -> Result<Option<StaticFault>, NoMemory>
    ensures { IfOk result (λ f. f ≡ unless (distinct_names (map T.name_of entries.now)) StaticFault.DefinedTwice) }
{
    Ok(unless(
        are_named_apart(alloc, seed, entries)?,
        StaticFault::DefinedTwice,
    ))
}

fn have_value_argument(args: &[(Text, ItemKind, u32)]) -> bool
    ensures { result ≡ list_any (λ a. is_value_kind a.1) args.now }
{
    args.iter().any(|a| is_value_kind(a.1))
}

fn have_value_item(items: &[(ExternName, ItemKind, u32)]) -> bool
    ensures { result ≡ list_any (λ i. is_value_kind i.1) items.now }
{
    items.iter().any(|i| is_value_kind(i.1))
}

fn first_of(first: Option<StaticFault>, later: Option<StaticFault>) -> Option<StaticFault>
    ensures { result ≡ option_or first later }
{
    match first {
        Some(fault) => Some(fault),
        None => later,
    }
}

fn arguments_fault(
    alloc: Global,
    seed: Seed,
    args: &[(Text, ItemKind, u32)],
) -> Result<Option<StaticFault>, NoMemory>
    ensures { IfOk result (λ f. f ≡ arguments_fault args.now) }
{
    let twice = names_fault(alloc, seed, args)?;
    Ok(first_of(value_fault(have_value_argument(args)), twice))
}

fn items_fault(
    alloc: Global,
    seed: Seed,
    items: &[(ExternName, ItemKind, u32)],
) -> Result<Option<StaticFault>, NoMemory>
    ensures { IfOk result (λ f. f ≡ items_fault items.now) }
{
    let twice = names_fault(alloc, seed, items)?;
    Ok(first_of(value_fault(have_value_item(items)), twice))
}

impl Checked for ComponentInstanceItem {
    ghost fault = { λ _. component_instance_fault };

    fn fault(
        &self,
        alloc: Global,
        seed: Seed,
        _open_count: usize,
    ) -> Result<Option<StaticFault>, NoMemory> {
        match self {
            ComponentInstanceItem::Instantiate { args, .. } => {
                arguments_fault(alloc, seed, args.as_slice())
            }
            ComponentInstanceItem::FromExports { exports, .. } => {
                items_fault(alloc, seed, exports.as_slice())
            }
        }
    }
}

fn outer_fault(open_count: usize, kind: OuterKind, count: u32) -> Option<StaticFault>
    ensures { result ≡ outer_fault open_count kind count }
{
    match kind {
        OuterKind::CoreModule | OuterKind::Component => {
            unless((count as usize) < open_count, StaticFault::Malformed)
        }
        OuterKind::CoreType | OuterKind::Type_ => None,
    }
}

impl Checked for AliasItem {
    ghost fault = { alias_fault };

    fn fault(
        &self,
        _alloc: Global,
        _seed: Seed,
        open_count: usize,
    ) -> Result<Option<StaticFault>, NoMemory> {
        Ok(match self {
            AliasItem::InstanceExport { kind, .. } => value_fault(is_value_kind(*kind)),
            AliasItem::Outer { kind, count, .. } => outer_fault(open_count, *kind, *count),
            AliasItem::CoreInstanceExport { .. } => None,
        })
    }
}
