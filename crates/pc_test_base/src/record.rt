//! Tests of `pc_types_record`.

use crate::support::holds;
use crate::types::record;
use pc_entity::{EntityIndex, FuncIndex, MemoryIndex, Seed};
use pc_types::{CoreKind, ModuleRecord};
use pc_types_record::RecordIndex;
use std::alloc::Global;
use std::test::*;

/// The second imported function stands behind the memory.
fn imports_are_found(index: &RecordIndex<'_>) -> bool {
    let second = EntityIndex::Function(FuncIndex(1));
    index.imported(CoreKind::Func) == 2
        && index.is_imported(second)
        && index.import_position(second) == Some(2)
        && index.import_index(2) == Some(second)
}

/// The function that the module defines is the third, and has a name.
fn the_rest_is_found(index: &RecordIndex<'_>) -> bool {
    let third = FuncIndex(2);
    index.func_sig(third) == Some(5)
        && index.memory64(MemoryIndex(0)) == Some(true)
        && index.export("run") == Some(EntityIndex::Function(third))
        && index.record().tables == 1
}

/// Whether all is found in the index of a record.
fn all_is_found(alloc: Global, record: &ModuleRecord) -> bool {
    if record.imports.len() > 9 {
        return false;
    }
    match RecordIndex::new(alloc, Seed::fixed(), record) {
        Ok(index) => imports_are_found(&index) && the_rest_is_found(&index),
        Err(_) => false,
    }
}

#[test]
fn a_record_is_looked_up(rt: HostRuntime) {
    let record = record(&rt, rt.alloc());
    holds(&rt, "record", all_is_found(rt.alloc(), &record));
}
