//! The names of a program by number.

use crate::programs::{Kind, program_of};
use crate::support::holds;
use crate::tables::{Shape, table_of};
use pc_entity::{Atom, Seed, StaticComponentIndex, StaticModuleIndex};
use pc_inline_names::ProgramNames;
use std::test::*;

/// The number at a place, or none.
fn at(numbers: &[Atom], place: usize) -> Option<Atom> {
    numbers.get(place).copied()
}

/// The numbers of the names of the first import of the core module.
fn first_import(names: &ProgramNames<'_>) -> Option<(Atom, Atom)> {
    names
        .module_imports(StaticModuleIndex(0))?
        .as_slice()
        .first()
        .copied()
}

/// Those of the first import of a module type.
fn first_of_type(names: &ProgramNames<'_>, entry: u32) -> Option<(Atom, Atom)> {
    names.type_imports(entry)?.as_slice().first().copied()
}

/// The root imports `x` and gives `m` and `n`; one body gives `f` and `t`, and another imports `x` twice. The core module
/// and entry 4 import `f` of `m`, and entries 2 and 3 export `a` and `b`.
#[test]
fn one_text_has_one_number(rt: HostRuntime) {
    let table = table_of(&rt, rt.alloc(), Shape::Small);
    let program = program_of(
        &rt,
        rt.alloc(),
        &[(Kind::Import(2), 1), (Kind::Instantiate, 1)],
        &[(Kind::Nested, 1), (Kind::Import(3), 2)],
    );
    let names = ProgramNames::new(rt.alloc(), Seed::fixed(), &table, &program).expect(
        &rt,
        "no memory",
    );
    holds(&rt, "seven texts", names.texts().len() == 7);
    let x = at(names.item(None, 0), 0);
    holds(&rt, "x", x.is_some());
    holds(
        &rt,
        "x of a body",
        at(names.item(Some(StaticComponentIndex(1)), 1), 0) == x,
    );
    let import = first_import(&names).expect(&rt, "no import");
    holds(&rt, "m", at(names.item(None, 1), 0) == Some(import.0));
    holds(
        &rt,
        "f",
        at(names.item(Some(StaticComponentIndex(0)), 0), 0) == Some(import.1),
    );
    holds(&rt, "type", first_of_type(&names, 4) == Some(import));
    let b = names.export_number(3, 1).expect(&rt, "no b");
    holds(&rt, "place", names.type_export(2, b) == Some(1));
    holds(&rt, "no export", names.type_export(2, import.0) == None);
}

/// 100,000 instances, each of which is given two things.
#[test]
fn a_long_body_has_its_numbers(rt: HostRuntime) {
    let table = table_of(&rt, rt.alloc(), Shape::Doubling);
    let program = program_of(&rt, rt.alloc(), &[], &[(Kind::Nested, 100_000)]);
    let names = ProgramNames::new(rt.alloc(), Seed::fixed(), &table, &program).expect(
        &rt,
        "no memory",
    );
    let last = names.item(Some(StaticComponentIndex(0)), 99_999);
    holds(&rt, "two", last.len() == 2);
    holds(&rt, "five texts", names.texts().len() == 5);
}
