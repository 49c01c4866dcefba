//! What the types builder calls the core signatures of a table.

ghost use Rattle.std.specs.Prelude.{◌≡◌, None, replicate, IfOk};
ghost use Rattle.pc_types_lists.specs.Types.{Types};
ghost use Rattle.pc_inline_state.specs.Typed.{AreNumbers};

use pc_entity::{ModuleInternedTypeIndex, NoMemory};
use pc_types::TypeTable;
use std::alloc::Global;

/// The builder's numbers of a table's core signatures, as far as they were asked for. A signature hangs on no component
/// instance, so each is converted once, whatever the items name.
#[derive(Drop)]
pub struct Numbers {
    pub signatures: Vec<Option<ModuleInternedTypeIndex>>,
}

impl Numbers {
    /// None was asked for yet.
    pub fn new(alloc: Global, table: &TypeTable) -> Result<Numbers, NoMemory>
        ensures { IfOk result (λ numbers. (types : Types) → AreNumbers types table.now numbers) }
    {
        let signatures = no_numbers(alloc, table.core_funcs.len())?;
        Ok(Numbers { signatures })
    }
}

fn no_numbers(alloc: Global, count: usize) -> Result<Vec<Option<ModuleInternedTypeIndex>>, NoMemory>
    ensures { IfOk result (λ numbers. numbers.items ≡ replicate count None) }
{
    Ok(vec![in alloc; None; count]?)
}
