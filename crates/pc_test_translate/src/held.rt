//! Types that a builder held before count in the total.

use crate::inputs::{SMALLEST, holds, input_of};
use crate::translator::options_into;
use pc_entity::Seed;
use pc_input::Input;
use pc_types::Error;
use pc_types_builder::ComponentTypesBuilder;
use std::alloc::{AllocError, Global};

/// What stands before the entries of the table, and the first two.
const BEFORE: &str = r#"{"limit":1,"intrinsics":null,"types":{"core":[],
       "types":[{"instance":[]},{"instance":[["a",["instance",0]]]}"#;

/// Adds an instance type with twice the names of an entry, and 2 or 3 more.
fn add_entry(entries: &mut String, half: u32) -> Result<(), AllocError> {
    write!(
        entries,
        r#",{{"instance":[["a",["instance",{half}]],["b",["instance",{half}]]"#
    )?;
    let is_short = matches!(half, 20 | 22 | 27 | 29);
    entries.push_str(if is_short {
        "]}"
    } else {
        r#",["c",["instance",0]]]}"#
    })
}

/// What stands before the module type: 31 instance types. Entry 30 has 2147483000 names.
fn instance_types(alloc: Global) -> Result<String, AllocError> {
    let mut entries = String::from_str(alloc, BEFORE)?;
    for half in 1..30 {
        add_entry(&mut entries, half)?;
    }
    Ok(entries)
}

/// What stands in front of the number of tables that the core module claims, and behind it.
const MODULE: &str =
    r#",{"module":[[],[]]}]},"payloads":["version",{"imports":[["i",["instance",30]]]},
       {"module":{"ty":31,"imports":[],"funcs":[],"tables":"#;

const EMPTY: &str = r#","memories":[],"globals":0,"tags":0,"exports":[]}},"end"]}"#;

/// An input that imports entry 30, with a core module of so many tables. With 936 it comes to 4294967294, and may come
/// no further (`totals` of `pc_test_runs`).
fn input(alloc: Global, tables: &str) -> Result<String, AllocError> {
    let entries = instance_types(alloc)?;
    [entries.as_str(), MODULE, tables, EMPTY].join(alloc, "")
}

/// How many options entries the plan of an input has, with a builder that holds the types of another.
fn options_after(alloc: Global, first: &Input, second: &Input) -> Result<usize, Error> {
    let mut types = ComponentTypesBuilder::new(alloc, Seed::fixed());
    options_into(alloc, &mut types, first)?;
    options_into(alloc, &mut types, second)
}

/// What a text is answered, with a builder that holds the types of another.
fn answer_after(alloc: Global, first: &str, second: &str) -> Option<Result<usize, Error>> {
    let first = input_of(alloc, first).ok()?;
    let second = input_of(alloc, second).ok()?;
    Some(options_after(alloc, &first, &second))
}

/// Whether the input of so many tables has this answer behind another text, or behind itself.
fn is_held(alloc: Global, first: Option<&str>, tables: &str, want: Result<usize, Error>) -> bool {
    match input(alloc, tables) {
        Ok(text) => answer_after(alloc, first.unwrap_or(text.as_str()), text.as_str())
            == Some(want),
        Err(_) => false,
    }
}

/// The smallest component leaves four types: a function, the tuple of its parameters and of its result, its core
/// signature, and the type of its module. The input itself leaves 31 instance types and the type of its module.
#[test]
fn types_that_were_held_count(rt: HostRuntime) {
    let alloc = rt.alloc();
    let full = Err(Error::TooMany);
    holds(&rt, "932", is_held(alloc, Some(SMALLEST), "932", Ok(0)));
    holds(&rt, "933", is_held(alloc, Some(SMALLEST), "933", full));
    holds(&rt, "904", is_held(alloc, None, "904", Ok(0)));
    holds(&rt, "905", is_held(alloc, None, "905", full));
}
