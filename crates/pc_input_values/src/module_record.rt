//! What a core module has, without its type.

ghost use Rattle.pc_input_values.specs.Record.{counts, record_members};
ghost use Rattle.pc_input_values.specs.Reads.{Reads};

use crate::DecodeError;
use crate::form::{Form, ReadForm, field};
use pc_input_tokens::Tree;
use pc_types::ModuleRecord;
use std::alloc::Global;

/// How many tables, globals and tags there are.
fn counts<F: Form, V: Tree>(
    form: &F,
    alloc: Global,
    value: &V,
) -> Result<(u32, u32, u32), DecodeError>
    ensures { Reads result (counts (V.means value.now)) }
{
    let tables = field(form, alloc, value, "tables")?;
    let globals = field(form, alloc, value, "globals")?;
    let tags = field(form, alloc, value, "tags")?;
    Ok((tables, globals, tags))
}

/// The members of an object that say what a core module imports, defines and exports. The object may have others.
impl ReadForm for ModuleRecord {
    ghost shape = { record_members };

    fn read<F: Form, V: Tree>(
        form: &F,
        alloc: Global,
        value: &V,
    ) -> Result<ModuleRecord, DecodeError> {
        let imports = field(form, alloc, value, "imports")?;
        let funcs = field(form, alloc, value, "funcs")?;
        let memories = field(form, alloc, value, "memories")?;
        let exports = field(form, alloc, value, "exports")?;
        let (tables, globals, tags) = counts(form, alloc, value)?;
        Ok(ModuleRecord {
            imports,
            funcs,
            tables,
            memories,
            globals,
            tags,
            exports,
        })
    }
}
