//! What an index keeps of the imports of a record.

ghost use Rattle.std.specs.Prelude.{◌<◌, length, IfOk};
ghost use Rattle.pc_types_record.specs.Indexed.{IsImportIndex};

use crate::details::{signatures, widths};
use crate::entities::entities;
use crate::import_places::ImportPlaces;
use pc_entity::{EntityIndex, NoMemory, Seq, Text};
use pc_types::CoreEntity;
use std::alloc::Global;

/// What is kept of a list of imports.
#[derive(Drop)]
pub(crate) struct ImportIndex {
    /// Where the imports of each kind stand.
    pub(crate) positions: ImportPlaces,
    /// The entity that each import is.
    pub(crate) entities: Seq<EntityIndex>,
    /// The signature numbers of the imported functions.
    pub(crate) signatures: Seq<u32>,
    /// Whether each imported memory is 64-bit.
    pub(crate) widths: Seq<bool>,
}

impl ImportIndex {
    /// What is kept of these imports, in time linear in their number.
    pub(crate) fn new(
        alloc: Global,
        imports: &[(Text, Text, CoreEntity)],
    ) -> Result<ImportIndex, NoMemory>
        requires numbered { length imports.now < 4294967295 }
        ensures { IfOk result (λ index. IsImportIndex imports.now index) }
    {
        let positions = ImportPlaces::new(alloc, imports)?;
        let entities = entities(alloc, imports)?;
        let signatures = signatures(alloc, imports)?;
        let widths = widths(alloc, imports)?;
        Ok(ImportIndex {
            positions,
            entities,
            signatures,
            widths,
        })
    }
}
