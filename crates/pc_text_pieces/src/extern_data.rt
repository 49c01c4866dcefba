//! What a name says beside itself.

ghost use Rattle.std.specs.Prelude.{◌≡◌, ◌++◌, OnOk};
ghost use Rattle.pc_spec_plan.specs.Text.{extern_data, id_data, implements_data};

use crate::piece::{put, put_quoted};
use pc_entity::{NoMemory, Text};
use pc_types::ComponentExternData;

/// The interface that a name says it implements, if it says one.
fn put_implements(out: &mut Vec<u8>, interface: &Option<Text>) -> Result<(), NoMemory>
    ensures { OnOk result (out.new.items ≡ out.old.items ++ implements_data interface.now) }
{
    match interface {
        None => Ok(()),
        Some(name) => {
            put(out, " implements ")?;
            put_quoted(out, name.as_str())
        }
    }
}

/// The external id of a name, if it has one.
fn put_id(out: &mut Vec<u8>, id: &Option<Text>) -> Result<(), NoMemory>
    ensures { OnOk result (out.new.items ≡ out.old.items ++ id_data id.now) }
{
    match id {
        None => Ok(()),
        Some(name) => {
            put(out, " id ")?;
            put_quoted(out, name.as_str())
        }
    }
}

/// What an import or an export implements, and its external id.
pub fn put_extern_data(out: &mut Vec<u8>, meta: &ComponentExternData) -> Result<(), NoMemory>
    ensures { OnOk result (out.new.items ≡ out.old.items ++ extern_data meta.now) }
{
    put_implements(out, &meta.implements)?;
    put_id(out, &meta.external_id)
}
