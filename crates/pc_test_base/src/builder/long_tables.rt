//! Tables that are long, or whose trees are large: what no clause says of them is time.

ghost use Rattle.std.specs.Prelude.{◌≡◌, None};
ghost use Rattle.pc_types.specs.Table.{table_fault};
ghost use Rattle.pc_types_builder.specs.Converted.{AreConverted};

use crate::builder::converts;
use crate::builder::entries::Shape;
use crate::support::{holds, is_sound};
use pc_types::{
    InterfaceType, TypeDef, TypeKind, TypeListIndex, TypeOptionIndex, TypeTable, ValType,
};
use pc_types_builder::{ComponentTypesBuilder, Converted};
use std::alloc::Global;
use std::process::Abort;
use std::test::*;

/// A look through the table for each of its entries would take minutes.
#[test]
fn each_of_a_long_chain_is_met_once(rt: HostRuntime) {
    converts(&rt, rt.alloc(), Shape::Chain);
}

/// Converts each entry of a chain.
pub fn converts_chain(
    rt: &impl Abort,
    alloc: Global,
    types: &mut ComponentTypesBuilder,
    table: &TypeTable,
) {
    let lists = are_lists(alloc, types, table);
    holds(rt, "lists", lists);
    holds(rt, "held", types.held(TypeKind::List) == 200_000);
}

/// Whether each entry of a chain, from the last to the first, is the list of its number.
fn are_lists(alloc: Global, types: &mut ComponentTypesBuilder, table: &TypeTable) -> bool {
    if !is_sound(alloc, table) {
        return false;
    }
    let mut converted = Converted::new(alloc, table);
    for n in (0..200_000).rev() {
        let list = TypeDef::Interface(InterfaceType::List(TypeListIndex(n)));
        if types.convert_type_with(table, n, &mut converted) != Ok(list) {
            return false;
        }
    }
    true
}

/// The tree of the last entry has 2 ^ 60 leaves.
#[test]
fn a_diamond_is_converted(rt: HostRuntime) {
    converts(&rt, rt.alloc(), Shape::Diamond);
}

/// That the last entry of a diamond is an option, and that no pair is converted twice.
pub fn converts_diamond(
    rt: &impl Abort,
    alloc: Global,
    types: &mut ComponentTypesBuilder,
    table: &TypeTable,
) {
    holds(rt, "sound", is_sound(alloc, table));
    let top = types.convert_val(table, &ValType::Type_(62));
    let option = InterfaceType::Option(TypeOptionIndex(0));
    holds(rt, "option", top == Ok(option));
    holds(rt, "tuples", types.held(TypeKind::Tuple) == 60);
    holds(rt, "streams", types.held(TypeKind::StreamTable) == 0);
}

/// To convert what doesn't lead to a resource anew each time that this is forgotten would take minutes.
#[test]
fn what_leads_to_another_resource_stays(rt: HostRuntime) {
    converts(&rt, rt.alloc(), Shape::Handles);
}

/// Forgets one of two resources over and over, and converts the last list, which leads to the other.
pub fn forgets_a_resource(
    rt: &impl Abort,
    alloc: Global,
    types: &mut ComponentTypesBuilder,
    table: &TypeTable,
) {
    let same = is_same_list(alloc, types, table);
    holds(rt, "same", same);
    holds(rt, "lists", types.held(TypeKind::List) == 200_000);
}

/// Whether the last list is the same type each time.
fn is_same_list(alloc: Global, types: &mut ComponentTypesBuilder, table: &TypeTable) -> bool {
    if !is_sound(alloc, table) {
        return false;
    }
    let mut converted = Converted::new(alloc, table);
    for _round in 0..1_000 {
        if !is_last_list(types, table, &mut converted) {
            return false;
        }
    }
    true
}

/// Whether the last list is the type that it is at first. Then the last resource is converted, and forgotten.
fn is_last_list(
    types: &mut ComponentTypesBuilder,
    table: &TypeTable,
    converted: &mut Converted,
) -> bool
    requires sound { table_fault table.now ≡ None }
    requires converted { AreConverted types.old table.now converted.old }
    ensures { AreConverted types.new table.now converted.new }
{
    let list = types.convert_type_with(table, 200_001, converted);
    let resource = types.convert_type_with(table, 200_002, converted);
    converted.forget(200_002);
    list == Ok(TypeDef::Interface(InterfaceType::List(TypeListIndex(199_999)))) && resource.is_ok()
}
