//! Whether a list has room for its numbers.

ghost use Rattle.std.specs.Prelude.{◌≡◌, ◌≤◌, ◌<◌, ◌-◌, true, false, nat_lt, sum_by, length};
ghost use Rattle.pc_parsed.specs.Program.{entity_total, is_numbered, item_count, record_entities};

use crate::payload::Payload;
use pc_types::{ModuleRecord, TypeTable};

/// The first number that no list reaches.
const LIMIT: usize = 4294967295;

fn item_count(payload: &Payload) -> usize
    ensures { result ≡ item_count payload.now }
{
    match payload {
        Payload::ComponentTypeSection(items) => items.len(),
        Payload::ComponentImportSection(items) => items.len(),
        Payload::ComponentCanonicalSection(items) => items.len(),
        Payload::InstanceSection(items) => items.len(),
        Payload::ComponentInstanceSection(items) => items.len(),
        Payload::ComponentExportSection(items) => items.len(),
        Payload::ComponentAliasSection(items) => items.len(),
        _ => 1,
    }
}

fn are_few(payloads: &[Payload]) -> bool
    ensures { result ≡ nat_lt (sum_by item_count payloads.now) 4294967295 }
{
    let mut left = LIMIT;
    for payload in payloads {
        let count = item_count(payload);
        if count >= left {
            return false;
        }
        left -= count;
    }
    true
}

/// What is left of some room after the entities of a core module, or nothing where they don't fit.
fn left_after(left: usize, record_: &ModuleRecord) -> usize
    ensures { result ≡ left - record_entities record_.now }
{
    left.saturating_sub(record_.imports.len())
        .saturating_sub(record_.funcs.len())
        .saturating_sub(record_.tables as usize)
        .saturating_sub(record_.memories.len())
        .saturating_sub(record_.globals as usize)
        .saturating_sub(record_.tags as usize)
}

fn left_after_payload(left: usize, payload: &Payload) -> usize
    ensures { result ≡ left - entity_total payload.now }
{
    match payload {
        Payload::ModuleSection { record_, .. } => left_after(left, record_.get()),
        _ => left,
    }
}

fn have_few_entities(payloads: &[Payload]) -> bool
    ensures { result ≡ nat_lt (sum_by entity_total payloads.now) 4294967295 }
{
    let mut left = LIMIT;
    for payload in payloads {
        left = left_after_payload(left, payload);
    }
    left > 0
}

/// Whether the entries of a table and the items and entities of a list can be numbered.
///
/// Four numbers have to be below 4294967295: the core signatures of the table, its types, the entities of all core
/// modules, whether imported or defined, and the items of all payloads. A payload that is no list is one item.
pub fn is_numbered(table: &TypeTable, payloads: &[Payload]) -> bool
    ensures { result ≡ is_numbered table.now payloads.now }
{
    table.core_funcs.len() < LIMIT
        && table.types.len() < LIMIT
        && have_few_entities(payloads)
        && are_few(payloads)
}
