//! The total before the first item.

ghost use Rattle.std.specs.Prelude.{◌≡◌, ◌<◌, ◌+◌, ◌-◌, true, sum_by};
ghost use Rattle.pc_parsed.specs.Program.{entity_total, is_numbered, item_count, record_entities};
ghost use Rattle.pc_spec_reading.specs.Total.{counted};
ghost use Rattle.pc_weights.specs.Capped.{capped};

use crate::FULL;
use pc_parsed::Payload;
use pc_types::{ModuleRecord, TypeTable};

/// What is left of some room after the entities of a core module.
fn after_record(room: usize, record_: &ModuleRecord) -> usize
    ensures { result ≡ room - record_entities record_.now }
{
    room.saturating_sub(record_.imports.len())
        .saturating_sub(record_.funcs.len())
        .saturating_sub(record_.tables as usize)
        .saturating_sub(record_.memories.len())
        .saturating_sub(record_.globals as usize)
        .saturating_sub(record_.tags as usize)
}

/// After a payload: its items, and the entities of its core module, if it is one.
fn after_payload(room: usize, payload: &Payload) -> usize
    ensures { result ≡ room - (item_count payload.now + entity_total payload.now) }
{
    match payload {
        Payload::ComponentTypeSection(items) => room.saturating_sub(items.len()),
        Payload::ComponentImportSection(items) => room.saturating_sub(items.len()),
        Payload::ComponentCanonicalSection(items) => room.saturating_sub(items.len()),
        Payload::InstanceSection(items) => room.saturating_sub(items.len()),
        Payload::ComponentInstanceSection(items) => room.saturating_sub(items.len()),
        Payload::ComponentExportSection(items) => room.saturating_sub(items.len()),
        Payload::ComponentAliasSection(items) => room.saturating_sub(items.len()),
        Payload::ModuleSection { record_, .. } => {
            after_record(room, record_.get()).saturating_sub(1)
        }
        _ => room.saturating_sub(1),
    }
}

fn after_payloads(room: usize, payloads: &[Payload]) -> usize
    ensures { result ≡ room - (sum_by item_count payloads.now + sum_by entity_total payloads.now) }
{
    let mut left = room;
    for payload in payloads {
        left = after_payload(left, payload);
    }
    left
}

/// The total before the first item, cut where it is full: the entries of the table's two lists, the items of the list,
/// read or not, the entities of its core modules, and the types that were held before.
pub fn counted(table: &TypeTable, types_held: usize, payloads: &[Payload]) -> u32
    ensures counted { result ≡ capped (counted table.now types_held payloads.now) }

    // Where it isn't full, everything in the input has a number.
    ensures numbered { result < 4294967295 → is_numbered table.now payloads.now ≡ true }
{
    let room = FULL
        .saturating_sub(table.core_funcs.len())
        .saturating_sub(table.types.len())
        .saturating_sub(types_held);
    (FULL - after_payloads(room, payloads)) as u32
}
