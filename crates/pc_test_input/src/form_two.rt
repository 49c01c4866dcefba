//! Input form 2: names as numbers of a table, and sections of one entry.

use crate::support::{Outcome, all_come_to, holds, parts_come_to};
use pc_input::{Input, decode_input};
use pc_parsed::{AliasItem, Payload};
use pc_types::DeclType;
use std::alloc::Global;
use std::process::Abort;

/// The smallest component that does something.
const SMALLEST: &str =
    r#"{"form":2,"limit":100,"intrinsics":null,"names":["f","x"],"types":{"core":[[["i32"],["i32"]]],
       "types":[{"func":{"params":[[1,"u32"]],"result":"u32","async":false}},{"module":[[],[]]}]},
       "payloads":["version",{"module":{"ty":1,"imports":[],"funcs":[0],"tables":0,"memories":[],"globals":0,
       "tags":0,"exports":[[0,"func",0]]}},{"instances":{"instantiate":[0,[]]}},
       {"aliases":{"core-export":["func",0,0]}},{"canon":["lift",0,0,0,[]]},{"exports":[0,"func",0]},"end"]}"#;

/// The same with one name, of which the second is used.
const NAME_MISSING: &str =
    r#"{"form":2,"limit":100,"intrinsics":null,"names":["f"],"types":{"core":[[["i32"],["i32"]]],
       "types":[{"func":{"params":[[1,"u32"]],"result":"u32","async":false}},{"module":[[],[]]}]},
       "payloads":["version",{"module":{"ty":1,"imports":[],"funcs":[0],"tables":0,"memories":[],"globals":0,
       "tags":0,"exports":[[0,"func",0]]}},{"instances":{"instantiate":[0,[]]}},
       {"aliases":{"core-export":["func",0,0]}},{"canon":["lift",0,0,0,[]]},{"exports":[0,"func",0]},"end"]}"#;

/// The same as form 3.
const FORM_THREE: &str =
    r#"{"form":3,"limit":100,"intrinsics":null,"names":["f","x"],"types":{"core":[[["i32"],["i32"]]],
       "types":[{"func":{"params":[[1,"u32"]],"result":"u32","async":false}},{"module":[[],[]]}]},
       "payloads":["version",{"module":{"ty":1,"imports":[],"funcs":[0],"tables":0,"memories":[],"globals":0,
       "tags":0,"exports":[[0,"func",0]]}},{"instances":{"instantiate":[0,[]]}},
       {"aliases":{"core-export":["func",0,0]}},{"canon":["lift",0,0,0,[]]},{"exports":[0,"func",0]},"end"]}"#;

/// Inputs of form 2: a name that no one uses, a name twice, a key twice, and keys in another order.
static READ: [&str; 6] = [
    SMALLEST,
    r#"{"form":2,"limit":1,"intrinsics":null,"names":[],"types":{"core":[],"types":[]},"payloads":[]}"#,
    r#"{"form":2,"limit":1,"intrinsics":1,"names":["a","b","a","c"],"types":{"core":[],"types":[]},"payloads":[]}"#,
    r#"{"form":3,"limit":1,"intrinsics":null,"names":[],"types":{"core":[],"types":[]},"payloads":[],"form":2}"#,
    r#"{"form":2,"names":0,"limit":1,"intrinsics":0,"names":["a"],"types":{"core":[],"types":[]},"payloads":[]}"#,
    r#"{"payloads":[{"exports":[0,"func",0]}],"types":{"core":[],"types":[{"flags":[0]}]},"names":["a"],
      "intrinsics":0,"limit":1,"form":2}"#,
];

/// Objects with another number for the form, without a key, with one more, or with other values.
static BAD_FORMS: [&str; 21] = [
    NAME_MISSING,
    FORM_THREE,
    r#"{"form":1,"limit":1,"intrinsics":null,"types":{"core":[],"types":[]},"payloads":[]}"#,
    r#"{"form":1,"limit":1,"intrinsics":null,"names":[],"types":{"core":[],"types":[]},"payloads":[]}"#,
    r#"{"form":2.0,"limit":1,"intrinsics":null,"names":[],"types":{"core":[],"types":[]},"payloads":[]}"#,
    r#"{"form":"2","limit":1,"intrinsics":null,"names":[],"types":{"core":[],"types":[]},"payloads":[]}"#,
    r#"{"form":null,"limit":1,"intrinsics":null,"names":[],"types":{"core":[],"types":[]},"payloads":[]}"#,
    r#"{"form":2,"limit":1,"intrinsics":null,"names":[],"types":{"core":[],"types":[]},"payloads":[],"form":3}"#,
    r#"{"limit":1,"intrinsics":null,"names":[],"types":{"core":[],"types":[]},"payloads":[]}"#,
    r#"{"form":2,"intrinsics":null,"names":[],"types":{"core":[],"types":[]},"payloads":[]}"#,
    r#"{"form":2,"limit":1,"names":[],"types":{"core":[],"types":[]},"payloads":[]}"#,
    r#"{"form":2,"limit":1,"intrinsics":null,"types":{"core":[],"types":[]},"payloads":[]}"#,
    r#"{"form":2,"limit":1,"intrinsics":null,"names":[],"payloads":[]}"#,
    r#"{"form":2,"limit":1,"intrinsics":null,"names":[],"types":{"core":[],"types":[]}}"#,
    r#"{"form":2,"limit":1,"intrinsics":null,"names":[],"types":{"core":[],"types":[]},"payloads":[],"more":0}"#,
    r#"{"form":2,"limit":1,"intrinsics":null,"more":[],"types":{"core":[],"types":[]},"payloads":[]}"#,
    r#"{"form":2,"limit":1,"intrinsics":"a","names":["a"],"types":{"core":[],"types":[]},"payloads":[]}"#,
    r#"{"form":2,"limit":1,"intrinsics":1,"names":["a"],"types":{"core":[],"types":[]},"payloads":[]}"#,
    r#"{"form":2,"limit":1,"intrinsics":null,"names":[0],"types":{"core":[],"types":[]},"payloads":[]}"#,
    r#"{"form":2,"limit":1,"intrinsics":null,"names":"a","types":{"core":[],"types":[]},"payloads":[]}"#,
    r#"{"form":2,"limit":1,"intrinsics":null,"names":[],"types":{"core":[],"types":[]},"payloads":{}}"#,
];

/// Texts whose JSON is broken, behind a bad form and before the end.
static BROKEN: [&str; 5] = [
    r#"{"form":3,"limit":1,"intrinsics":null,"names":[],"types":{"core":[],"types":[]},"payloads":[]]"#,
    r#"{"form":2,"limit":1,"intrinsics":null,"names":[],"types":{"core":[],"types":[]},"payloads":[]}}"#,
    r#"{"form":2,"limit":1e400,"intrinsics":null,"names":[],"types":{"core":[],"types":[]},"payloads":[]}"#,
    r#"{"form":2,"limit":1,"intrinsics":null,"names":[7],"types":{"core":[],"types":[]},"payloads":[}"#,
    r#"{"form":2,"limit":1,"intrinsics":null,"names":[],"types":{"core":[],"types":[]},"payloads":[{"canon":[}]}"#,
];

/// What stands around a payload, and around a type. There are two names.
const PAYLOAD: (&str, &str) = (
    r#"{"form":2,"limit":1,"intrinsics":null,"names":["a","b"],"types":{"core":[],"types":[]},"payloads":["#,
    "]}",
);

const ENTRY: (&str, &str) = (
    r#"{"form":2,"limit":1,"intrinsics":null,"names":["a","b"],"types":{"core":[],"types":["#,
    r#"]},"payloads":[]}"#,
);

/// What stands around a name in payloads, wherever one is due.
static IN_PAYLOADS: [(&str, &str); 14] = [
    (r#"{"imports":["#, r#",["func",0]]}"#),
    (r#"{"imports":[["#, r#",null,null],["func",0]]}"#),
    (r#"{"imports":[[0,"#, r#",null],["func",0]]}"#),
    (r#"{"imports":[[0,null,"#, r#"],["func",0]]}"#),
    (
        r#"{"module":{"ty":0,"imports":[["#,
        r#",0,["tag"]]],"funcs":[],"tables":0,"memories":[],"globals":0,"tags":0,"exports":[]}}"#,
    ),
    (
        r#"{"module":{"ty":0,"imports":[[0,"#,
        r#",["tag"]]],"funcs":[],"tables":0,"memories":[],"globals":0,"tags":0,"exports":[]}}"#,
    ),
    (
        r#"{"module":{"ty":0,"imports":[],"funcs":[],"tables":0,"memories":[],"globals":0,"tags":0,"exports":[["#,
        r#","func",0]]}}"#,
    ),
    (r#"{"instances":{"instantiate":[0,[["#, ",0]]]}}"),
    (r#"{"instances":{"exports":[["#, r#","func",0]]}}"#),
    (
        r#"{"component-instances":{"instantiate":[0,[["#,
        r#","func",0]],0]}}"#,
    ),
    (
        r#"{"component-instances":{"exports":[[["#,
        r#","func",0]],0]}}"#,
    ),
    (r#"{"exports":["#, r#","func",0]}"#),
    (r#"{"aliases":{"export":["func",0,"#, "]}}"),
    (r#"{"aliases":{"core-export":["func",0,"#, "]}}"),
];

/// What stands around a name in types, wherever one is due.
static IN_TYPES: [(&str, &str); 11] = [
    (
        r#"{"func":{"params":[["#,
        r#","u32"]],"result":null,"async":false}}"#,
    ),
    (r#"{"record":[["#, r#","u32"]]}"#),
    (r#"{"variant":[["#, ",null]]}"),
    (r#"{"flags":["#, "]}"),
    (r#"{"enum":["#, "]}"),
    (r#"{"instance":[["#, r#",["value"]]]}"#),
    (r#"{"component":[[["#, r#",["value"]]],[]]}"#),
    (r#"{"component":[[],[["#, r#",["value"]]]]}"#),
    (r#"{"module":[[["#, r#",0,["tag"]]],[]]}"#),
    (r#"{"module":[[[0,"#, r#",["tag"]]],[]]}"#),
    (r#"{"module":[[],[["#, r#",["tag"]]]]}"#),
];

/// Sections of form 1.
static LISTS: [&str; 8] = [
    r#"{"types":["other"]}"#,
    r#"{"imports":[[0,["func",0]]]}"#,
    r#"{"canon":[["task.cancel",0]]}"#,
    r#"{"instances":[{"exports":[]}]}"#,
    r#"{"component-instances":[{"exports":[[],0]}]}"#,
    r#"{"exports":[[0,"func",0]]}"#,
    r#"{"aliases":[{"outer":["type",0,0]}]}"#,
    r#"{"canon":[]}"#,
];

/// Sections of form 2 without names, and one payload of two keys that are one.
static SECTIONS: [&str; 6] = [
    r#"{"types":"other"}"#,
    r#"{"types":{"resource":[0,"i32",null]}}"#,
    r#"{"canon":["task.cancel",0]}"#,
    r#"{"instances":{"exports":[]}}"#,
    r#"{"aliases":{"outer":["type",0,0]}}"#,
    r#"{"canon":[],"canon":["task.cancel",0]}"#,
];

#[test]
fn inputs_of_form_two_are_read(rt: HostRuntime) {
    all_come_to(&rt, rt.alloc(), ("", ""), &READ, Outcome::Read);
    all_come_to(&rt, rt.alloc(), PAYLOAD, &SECTIONS, Outcome::Read);
}

#[test]
fn other_shapes_are_bad_forms(rt: HostRuntime) {
    all_come_to(&rt, rt.alloc(), ("", ""), &BAD_FORMS, Outcome::BadForm);
    all_come_to(&rt, rt.alloc(), PAYLOAD, &LISTS, Outcome::BadForm);
}

#[test]
fn broken_texts_are_no_json(rt: HostRuntime) {
    all_come_to(&rt, rt.alloc(), ("", ""), &BROKEN, Outcome::NotJson);
}

/// Checks that a name may stand here: the last number of the table is read, and the next one isn't, nor a text.
fn takes_a_name(rt: &impl Abort, alloc: Global, around: (&str, &str), name: (&str, &str)) {
    let last = parts_come_to(
        alloc,
        &[around.0, name.0, "1", name.1, around.1],
        Outcome::Read,
    );
    holds(rt, name.0, last);
    let next = parts_come_to(
        alloc,
        &[around.0, name.0, "2", name.1, around.1],
        Outcome::BadForm,
    );
    holds(rt, name.0, next);
    let text = parts_come_to(
        alloc,
        &[around.0, name.0, "\"a\"", name.1, around.1],
        Outcome::BadForm,
    );
    holds(rt, name.0, text);
}

#[test]
fn each_name_is_a_number_of_the_table(rt: HostRuntime) {
    for name in &IN_PAYLOADS {
        takes_a_name(&rt, rt.alloc(), PAYLOAD, *name);
    }
    for name in &IN_TYPES {
        takes_a_name(&rt, rt.alloc(), ENTRY, *name);
    }
}

/// 126 and 127 brackets that open, and as many that close.
const OPEN: &str = "[[[[[[[[[[[[[[[[[[[[[[[[[[[[[[[[[[[[[[[[[[[[[[[[[[[[[[[[[[[[[[[\
    [[[[[[[[[[[[[[[[[[[[[[[[[[[[[[[[[[[[[[[[[[[[[[[[[[[[[[[[[[[[[[[";

const CLOSE: &str = "]]]]]]]]]]]]]]]]]]]]]]]]]]]]]]]]]]]]]]]]]]]]]]]]]]]]]]]]]]]]]]]\
    ]]]]]]]]]]]]]]]]]]]]]]]]]]]]]]]]]]]]]]]]]]]]]]]]]]]]]]]]]]]]]]]";

/// What stands around the names.
const NAMES: (&str, &str) = (
    r#"{"form":2,"limit":1,"intrinsics":null,"names":"#,
    r#","types":{"core":[],"types":[]},"payloads":[]}"#,
);

#[test]
fn values_nest_127_deep(rt: HostRuntime) {
    let alloc = rt.alloc();
    let deep = parts_come_to(alloc, &[NAMES.0, OPEN, CLOSE, NAMES.1], Outcome::BadForm);
    holds(&rt, "127 deep", deep);
    let deeper = parts_come_to(
        alloc,
        &[NAMES.0, OPEN, "[]", CLOSE, NAMES.1],
        Outcome::NotJson,
    );
    holds(&rt, "128 deep", deeper);
}

/// The name of a payload of the smallest component: of the module's export, the alias, or the export.
fn name_at(input: &Input, payload: usize) -> Option<&str> {
    match input.payloads.as_slice().get(payload)? {
        Payload::ModuleSection { record_, .. } => {
            Some(record_.get().exports.as_slice().first()?.0.as_str())
        }
        Payload::ComponentAliasSection(aliases) => match aliases.as_slice().first()? {
            AliasItem::CoreInstanceExport { name, .. } => Some(name.as_str()),
            _ => None,
        },
        Payload::ComponentExportSection(exports) => {
            Some(exports.as_slice().first()?.name.name.as_str())
        }
        _ => None,
    }
}

/// The name of the first parameter of the first type.
fn parameter(input: &Input) -> Option<&str> {
    match input.table.types.as_slice().first()? {
        DeclType::Func { params, .. } => Some(params.as_slice().first()?.0.as_str()),
        _ => None,
    }
}

/// Whether the names of the smallest component are these.
fn has_names(alloc: Global) -> bool {
    match decode_input(alloc, SMALLEST.as_bytes()) {
        Ok(input) => {
            parameter(&input) == Some("x")
                && name_at(&input, 1) == Some("f")
                && name_at(&input, 3) == Some("f")
                && name_at(&input, 5) == Some("f")
        }
        Err(_) => false,
    }
}

#[test]
fn numbers_stand_for_names(rt: HostRuntime) {
    holds(&rt, "names", has_names(rt.alloc()));
}
