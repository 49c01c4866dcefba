//! A core module with its type.

ghost use Rattle.pc_input.specs.Module.{core_module};
ghost use Rattle.pc_input_values.specs.Reads.{Reads};

use pc_input_tokens::Tree;
use pc_input_values::{DecodeError, Form, field, read};
use pc_parsed::Payload;
use pc_types::SharedRecord;
use std::alloc::Global;

/// An object of eight members: the type, imports, signatures of functions, a count of tables, a 64-bit flag for each
/// memory, counts of globals and tags, exports.
#[tactic(auto, unfolding(crate::specs::Module::core_module))]
pub(crate) fn core_module<F: Form, V: Tree>(
    form: &F,
    alloc: Global,
    value: &V,
) -> Result<Payload, DecodeError>
    ensures { Reads result (core_module (F.rules form.now) (V.means value.now)) }
{
    if !value.has_members(8) {
        return Err(DecodeError::BadForm);
    }
    let ty = field(form, alloc, value, "ty")?;
    let record_ = SharedRecord::new(alloc, read(form, alloc, value)?)?;
    Ok(Payload::ModuleSection { record_, ty })
}
