//! Tests of `pc_types_lists`.

use crate::support::holds;
use pc_entity::NoMemory;
use pc_types::{InterfaceType, TypeStreamTableIndex};
use pc_types_lists::{FactList, FactTable, TypeFacts};
use std::alloc::Global;
use std::test::*;

/// The fact of a string alone.
fn text() -> TypeFacts {
    let mut facts = TypeFacts::none();
    facts.string = true;
    facts
}

/// The fact of a stream alone.
fn stream() -> TypeFacts {
    let mut facts = TypeFacts::none();
    facts.stream = true;
    facts
}

const STREAM: InterfaceType = InterfaceType::Stream(TypeStreamTableIndex(0));

/// Whether types without parts have their own facts.
fn knows_plain_types(table: &FactTable) -> bool {
    table.facts(InterfaceType::U8) == TypeFacts::none()
        && table.facts(InterfaceType::String) == text()
        && table.maybe_facts(None) == TypeFacts::none()
        && table.maybe_facts(Some(STREAM)).has_handle()
}

#[test]
fn a_type_without_parts_has_its_own_fact(rt: HostRuntime) {
    let table = FactTable::new(rt.alloc());
    holds(&rt, "facts", knows_plain_types(&table));
}

/// The first of two facts, behind which the list was cut.
fn kept(alloc: Global) -> Result<TypeFacts, NoMemory> {
    let mut list = FactList::new(alloc);
    list.push(text())?;
    list.push(stream())?;
    list.truncate(1);
    Ok(list.get(0))
}

#[test]
fn a_list_of_facts_keeps_what_stays(rt: HostRuntime) {
    holds(&rt, "kept", kept(rt.alloc()) == Ok(text()));
}
