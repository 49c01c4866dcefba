//! The first static fault of an input.

ghost use Rattle.std.specs.Prelude.{◌≡◌, ◌<◌, length, IfOk};
ghost use Rattle.std.specs.Option.{option_map};
ghost use Rattle.pc_parsed.specs.StaticFault.{static_fault};
ghost use Rattle.pc_types.specs.Table.{table_error, table_fault};

use crate::bodies::payloads_error;
use crate::payload::Payload;
use pc_entity::{NoMemory, Seed};
use pc_types::{Error, TypeTable, check_table};
use std::alloc::Global;

/// The first fault of a type table.
fn table_error(alloc: Global, seed: Seed, table: &TypeTable) -> Result<Option<Error>, NoMemory>
    requires { length table.now.types < 4294967295 }
    ensures { IfOk result (λ e. e ≡ option_map table_error (table_fault table.now)) }
{
    match check_table(alloc, seed, table) {
        Ok(()) => Ok(None),
        Err(Error::NoMemory) => Err(NoMemory),
        Err(error) => Ok(Some(error)),
    }
}

/// The first static fault of an input: of the type table, then of the payloads, item by item, then of the list's end.
#[tactic(auto, unfolding(crate::specs::StaticFault::static_fault))]
pub fn static_fault(
    alloc: Global,
    seed: Seed,
    table: &TypeTable,
    exposed: Option<&str>,
    payloads: &[Payload],
) -> Result<Option<Error>, NoMemory>
    requires { length table.now.types < 4294967295 }
    ensures { IfOk result (λ e. e ≡ static_fault table.now (option_map (λ x. x.now) exposed.entry) payloads.now) }
{
    match table_error(alloc, seed, table)? {
        Some(error) => Ok(Some(error)),
        None => payloads_error(alloc, seed, table, exposed, payloads),
    }
}
