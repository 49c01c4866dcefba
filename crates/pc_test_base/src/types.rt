//! Tests of `pc_types`.

use crate::support::{holds, is_sound, one, push, text};
use pc_entity::{EntityIndex, FuncIndex, MemoryIndex, Seed, Seq, Text, TryClone};
use pc_types::{
    CoreEntity, CoreKind, DeclType, ModuleRecord, Place, TypeTable, distinct_keys, distinct_pairs,
    distinct_texts,
};
use std::alloc::Global;
use std::process::Abort;
use std::test::*;

#[test]
fn entries_that_name_earlier_ones_are_sound(rt: HostRuntime) {
    let mut table = TypeTable {
        core_funcs: Seq::new(rt.alloc()),
        types: one(&rt, rt.alloc(), DeclType::Resource),
    };
    push(&rt, &mut table.types, DeclType::Own(0));
    holds(&rt, "sound", is_sound(rt.alloc(), &table));
}

/// An import with no names.
fn import(rt: &impl Abort, alloc: Global, entity: CoreEntity) -> (Text, Text, CoreEntity) {
    (text(rt, alloc, ""), text(rt, alloc, ""), entity)
}

/// Functions of signatures 2 and 3 around a memory.
fn imports(rt: &impl Abort, alloc: Global) -> Seq<(Text, Text, CoreEntity)> {
    let memory = CoreEntity::Memory { memory64: true };
    let mut list = one(rt, alloc, import(rt, alloc, CoreEntity::Func(2)));
    push(rt, &mut list, import(rt, alloc, memory));
    push(rt, &mut list, import(rt, alloc, CoreEntity::Func(3)));
    list
}

/// A module with these imports, a function of signature 5 and a memory. The function is the third, and has a name.
pub(crate) fn record(rt: &impl Abort, alloc: Global) -> ModuleRecord {
    let run = EntityIndex::Function(FuncIndex(2));
    ModuleRecord {
        imports: imports(rt, alloc),
        funcs: one(rt, alloc, 5),
        tables: 1,
        memories: one(rt, alloc, false),
        globals: 0,
        tags: 0,
        exports: one(rt, alloc, (text(rt, alloc, "run"), run)),
    }
}

/// The second imported function stands behind the memory.
fn imports_are_found(record: &ModuleRecord) -> bool {
    let second = EntityIndex::Function(FuncIndex(1));
    record.imported(CoreKind::Func) == 2
        && record.num_imported_funcs() == 2
        && record.is_imported(second)
        && record.import_position(second) == Some(2)
        && record.imports.len() < 9
        && record.import_index(2) == Some(second)
}

/// The function that the module defines is found.
fn the_rest_is_found(record: &ModuleRecord) -> bool {
    let third = FuncIndex(2);
    record.defined(CoreKind::Table) == 1
        && record.func_sig(third) == Some(5)
        && record.memory64(MemoryIndex(0)) == Some(true)
        && record.export("run") == Some(EntityIndex::Function(third))
}

/// Whether a copy has three imports and an export.
fn is_copied(alloc: Global, record: &ModuleRecord) -> bool {
    match record.try_clone(alloc) {
        Ok(copy) => copy.imports.len() == 3 && copy.exports.len() == 1 && copy.tables == 1,
        Err(_) => false,
    }
}

#[test]
fn a_record_is_looked_up_and_copied(rt: HostRuntime) {
    let record = record(&rt, rt.alloc());
    let is_found = imports_are_found(&record) && the_rest_is_found(&record);
    holds(&rt, "record", is_found);
    holds(&rt, "copy", is_copied(rt.alloc(), &record));
}

#[test]
fn lists_are_searched_for_a_name_that_stands_twice(rt: HostRuntime) {
    let alloc = rt.alloc();
    let texts = distinct_texts(alloc, Seed::fixed(), &[text(&rt, alloc, "")]);
    holds(&rt, "texts", texts == Ok(true));
    let keys = distinct_keys(alloc, Seed::fixed(), &[(text(&rt, alloc, ""), 0u32)]);
    holds(&rt, "keys", keys == Ok(true));
    let pair = (text(&rt, alloc, ""), text(&rt, alloc, ""), 0u32);
    let pairs = distinct_pairs(alloc, Seed::fixed(), &[pair]);
    holds(&rt, "pairs", pairs == Ok(true));
}

/// Whether a place has this text.
fn says(alloc: Global, place: Place, want: &str) -> bool {
    match format!(in alloc; "{place}") {
        Ok(text) => text.as_str() == want,
        Err(_) => false,
    }
}

#[test]
fn a_place_has_a_text(rt: HostRuntime) {
    let item = Place::Payload {
        payload: 1,
        item: 2,
    };
    holds(&rt, "item", says(rt.alloc(), item, "payload 1, item 2"));
    let entry = Place::Table(3);
    holds(&rt, "entry", says(rt.alloc(), entry, "table entry 3"));
}
