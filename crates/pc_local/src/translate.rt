//! The local program of a payload list.

ghost use Rattle.std.specs.Prelude.{◌≡◌, ◌⊎◌, ◌<◌, true, None, Some, [], sum_by, IfOk, IfErr, OnOk};
ghost use Rattle.std.specs.Option.{option_map};
ghost use Rattle.pc_types.specs.declared.error.Error.TheVariants as Error;
ghost use Rattle.pc_parsed.specs.Program.{is_numbered, item_count};
ghost use Rattle.pc_parsed.specs.StaticFault.{payloads_error, static_fault};
ghost use Rattle.pc_types.specs.declared.parsed.TypeTable.{TypeTable};
ghost use Rattle.pc_local.specs.Program.{ProgramStands};

use crate::item::LocalProgram;
use crate::open::Open;
use pc_entity::{NoMemory, Seed};
use pc_parsed::{Payload, static_fault};
use pc_types::{Error, TypeTable};
use std::alloc::Global;

/// The local program of a list without a static fault.
fn collect(
    alloc: Global,
    seed: Seed,
    exposed: Option<&str>,
    payloads: &[Payload],
) -> Result<LocalProgram, NoMemory>
    requires { sum_by item_count payloads.now < 4294967295 }
    ensures { IfOk result (λ p. (t : TypeTable)
        → payloads_error t (option_map (λ x. x.now) exposed.entry) [] payloads.now ≡ None
        → ProgramStands (option_map (λ x. x.now) exposed.entry) payloads.now p) }
{
    let mut open = Open::new(alloc, seed)?;
    for payload in payloads {
        open.push(alloc, seed, exposed, payload)?;
    }
    Ok(LocalProgram {
        root: open.body,
        modules: open.records,
        components: open.ended,
    })
}

/// The local program of a payload list, or its first static fault: of the type table, then of the payloads, item by
/// item, then of the end of the list. `intrinsics` is the name under which the root may import the unsafe intrinsics.
pub fn translate_payloads(
    alloc: Global,
    seed: Seed,
    table: &TypeTable,
    intrinsics: Option<&str>,
    payloads: &[Payload],
) -> Result<LocalProgram, Error>
    requires { is_numbered table.now payloads.now ≡ true }
    ensures program { IfOk result (ProgramStands (option_map (λ name. name.now) intrinsics.entry) payloads.now) }
    ensures sound { OnOk result
        (static_fault table.now (option_map (λ name. name.now) intrinsics.entry) payloads.now ≡ None) }

    // A refusal for another cause than memory is the first static fault.
    ensures refused { IfErr result (λ e. (e ≡ Error.NoMemory)
        ⊎ (static_fault table.now (option_map (λ name. name.now) intrinsics.entry) payloads.now ≡ Some e)) }
{
    match static_fault(alloc, seed, table, intrinsics, payloads)? {
        Some(error) => Err(error),
        None => Ok(collect(alloc, seed, intrinsics, payloads)?),
    }
}
