//! Functions that go from one component to another: each that is lifted in one and lowered in another is an adapter.

use crate::inputs::{between, holds, is_answered};
use pc_tool::Status;
use std::alloc::{AllocError, Global};

/// The payloads of an input with two adapters.
static TWO_ADAPTERS: [&str; 20] = [
    r#""version""#,
    r#""component""#,
    r#""version""#,
    r#"{"module":{"ty":1,"imports":[],"funcs":[0],"tables":0,"memories":[],"globals":0,"tags":0,
       "exports":[["f","func",0]]}}"#,
    r#"{"instances":[{"instantiate":[0,[]]}]}"#,
    r#"{"aliases":[{"core-export":["func",0,"f"]}]}"#,
    r#"{"canon":[["lift",0,0,0,[]]]}"#,
    r#"{"exports":[["f","func",0]]}"#,
    r#""end""#,
    r#""component""#,
    r#""version""#,
    r#"{"imports":[["f",["func",0]],["g",["func",0]]]}"#,
    r#"{"canon":[["lower",0,0,0,[]],["lower",1,0,0,[]]]}"#,
    r#"{"module":{"ty":1,"imports":[["e","f",["func",0]],["e","g",["func",0]]],"funcs":[],"tables":0,"memories":[],
       "globals":0,"tags":0,"exports":[]}}"#,
    r#"{"instances":[{"exports":[["f","func",0],["g","func",1]]},{"instantiate":[0,[["e",0]]]}]}"#,
    r#""end""#,
    r#"{"component-instances":[{"instantiate":[0,[],2]},{"instantiate":[0,[],2]}]}"#,
    r#"{"aliases":[{"export":["func",0,"f"]},{"export":["func",1,"f"]}]}"#,
    r#"{"component-instances":[{"instantiate":[1,[["f","func",0],["g","func",1]],3]}]}"#,
    r#""end""#,
];

/// What stands before the payloads.
const TYPES: &str = r#"{"limit":100,"intrinsics":null,"types":{"core":[[["i32"],["i32"]]],
           "types":[{"func":{"params":[["x","u32"]],"result":"u32","async":false}},{"module":[[],[]]},
           {"instance":[["f",["func",0]]]},{"instance":[]}]},"payloads":["#;

/// The first so many payloads of the input with two adapters, as an input.
fn prefix(alloc: Global, count: usize) -> Result<String, AllocError> {
    let payloads = TWO_ADAPTERS[..count.min(20)].join(alloc, ",")?;
    between(alloc, TYPES, payloads.as_str(), "]}")
}

/// The input with two adapters.
pub(crate) fn two_adapters(alloc: Global) -> Result<String, AllocError> {
    prefix(alloc, 20)
}

/// Whether the first so many payloads are refused with this text.
fn is_refused(alloc: Global, count: usize, fault: &str) -> Result<bool, AllocError> {
    let input = prefix(alloc, count)?;
    is_answered(alloc, "translate", &input, Status::Refused, fault)
}

/// Whether the first so many payloads are refused at their end.
fn ends_too_early(alloc: Global, count: usize) -> Result<bool, AllocError> {
    let fault = format!(in alloc; "fault malformed at payload {count} item 0\n")?;
    is_refused(alloc, count, &fault)
}

/// The plan of the input with two adapters: one module has both.
pub(crate) const TWO_PLANNED: &str = "plan 1
modules 2 1
counts 4 4 0 0 0 0 0 0 0 0 0 0
init static 0 1 []
init static 0 2 []
init static 2 - [export(0 func 0), flags(3), flags(1), trampoline(0), export(1 func 0), flags(3), flags(2), trampoline(0)]
init static 1 3 [export(2 func 4), export(2 func 5)]
trampoline 0 trap-1
adapter 2 0 4 0 lift 1 utf8 sync - - - - lower 3 utf8 sync - - - -
adapter 2 1 5 4 lift 2 utf8 sync - - - - lower 3 utf8 sync - - - -
";

#[test]
fn each_prefix_ends_too_early(rt: HostRuntime) {
    for count in 0..20 {
        let is_so = ends_too_early(rt.alloc(), count).unwrap_or(false);
        holds(&rt, "the first payloads", is_so);
    }
}
