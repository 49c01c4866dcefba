//! Of what signature or width imported functions and memories are.

ghost use Rattle.std.specs.Prelude.{◌≡◌, IfOk};
ghost use Rattle.std.specs.List.{filter_map};
ghost use Rattle.pc_types.specs.Record.{import_signature, import_width};

use pc_entity::{NoMemory, Seq, Text};
use pc_types::CoreEntity;
use std::alloc::Global;

/// The signature numbers of the imported functions, in order.
pub(crate) fn signatures(
    alloc: Global,
    imports: &[(Text, Text, CoreEntity)],
) -> Result<Seq<u32>, NoMemory>
    ensures { IfOk result (λ found. found ≡ filter_map import_signature imports.now) }
{
    let mut found = Seq::new(alloc);
    for import in imports {
        if let Some(signature) = import.2.signature() {
            found.push(signature)?;
        }
    }
    Ok(found)
}

/// Whether each imported memory is 64-bit, in order.
pub(crate) fn widths(
    alloc: Global,
    imports: &[(Text, Text, CoreEntity)],
) -> Result<Seq<bool>, NoMemory>
    ensures { IfOk result (λ found. found ≡ filter_map import_width imports.now) }
{
    let mut found = Seq::new(alloc);
    for import in imports {
        if let Some(wide) = import.2.memory64() {
            found.push(wide)?;
        }
    }
    Ok(found)
}
