//! Inputs that are deep, and a long one, with their plans.

use crate::inputs::{Around, between, holds, is_answered};
use pc_tool::Status;
use std::alloc::{AllocError, Global};

/// The end of a component, and an instance of it in the component around it.
const INSTANTIATED: &str = r#""end",{"component-instances":[{"instantiate":[0,[],0]}]},"#;

/// The plan of a root without content.
const EMPTY_PLAN: &str = "plan 1
modules 0 0
counts 0 1 0 0 0 0 0 0 0 0 0 0
";

/// The plan of 2001 component instances without content.
const DEEP_PLAN: &str = "plan 1
modules 0 0
counts 0 2001 0 0 0 0 0 0 0 0 0 0
";

/// What stands between the limit and the payloads.
const TYPES: &str = r#","intrinsics":null,"types":{"core":[],"types":[{"instance":[]}]},
           "payloads":["#;

/// A text so many times.
fn repeated(alloc: Global, text: &str, times: usize) -> Result<String, AllocError> {
    text.repeat(alloc, times)
}

/// An input of components that stand in each other, each of which ends with this text.
fn nested(alloc: Global, limit: &str, depth: usize, end: &str) -> Result<String, AllocError> {
    let opened = repeated(alloc, r#""version","component","#, depth)?;
    let closed = repeated(alloc, end, depth)?;
    let parts = [
        r#"{"limit":"#,
        limit,
        TYPES,
        opened.as_str(),
        r#""version","#,
        closed.as_str(),
        r#""end"]}"#,
    ];
    parts.join(alloc, "")
}

/// Lowerings of one host function, each of which allocates by the one before it. So many allocate.
fn lowered(alloc: Global, count: usize) -> Result<String, AllocError> {
    let mut lowered = String::from_str(alloc, r#"["lower",0,0,0,[]]"#)?;
    for k in 0..count {
        write!(lowered, r#",["lower",0,0,0,[["realloc",{k}]]]"#)?;
    }
    Ok(lowered)
}

/// What stands around 2000 lowerings, the last of which is given to a core instance.
const CHAIN: Around = Around {
    before: r#"{"limit":100,"intrinsics":null,"types":{"core":[[["i32","i32"],[]],[["i32","i32","i32","i32"],["i32"]]],
           "types":[{"func":{"params":[["s","string"]],"result":null,"async":false}},{"module":[[],[]]}]},
           "payloads":["version",{"imports":[["log",["func",0]]]},{"canon":["#,
    after: r#"]},{"module":{"ty":1,"imports":[["env","log",["func",0]]],"funcs":[],"tables":0,"memories":[],"globals":0,
           "tags":0,"exports":[]}},
           {"instances":[{"exports":[["log","func",1999]]},{"instantiate":[0,[["env",0]]]}]},"end"]}"#,
};

/// An input with a chain of 2000 lowered functions.
fn chain(alloc: Global) -> Result<String, AllocError> {
    let lowered = lowered(alloc, 1999)?;
    between(alloc, CHAIN.before, lowered.as_str(), CHAIN.after)
}

/// The first lines of its plan.
const CHAIN_PLAN: &str = "plan 1
modules 1 0
counts 1 1 2000 0 0 1999 0 0 0 0 0 0
import-type 0 \"log\" func
import 0 0
";

/// Adds the steps of its lowerings, from the outermost to the innermost.
fn add_lowerings(plan: &mut String) -> Result<(), AllocError> {
    for k in 0..2000 {
        write!(plan, "init lower {k} 0\n")?;
    }
    Ok(())
}

/// Adds the steps that fill its slots, from the innermost to the outermost.
fn add_reallocs(plan: &mut String) -> Result<(), AllocError> {
    for k in 0..1999 {
        write!(plan, "init realloc {k} trampoline({k})\n")?;
    }
    Ok(())
}

/// Adds its options, from the innermost to the outermost.
fn add_options(plan: &mut String) -> Result<(), AllocError> {
    for k in 0..1999usize {
        write!(plan, "options {} 0 utf8 sync - - - {k}\n", k + 1)?;
    }
    Ok(())
}

/// Adds its trampolines, from the innermost to the outermost.
fn add_trampolines(plan: &mut String) -> Result<(), AllocError> {
    for k in 0..2000usize {
        let n = 1999 - k;
        write!(plan, "trampoline {k} component-lower-import[{n}] {n} {k}\n")?;
    }
    Ok(())
}

/// Its plan.
fn chain_plan(alloc: Global) -> Result<String, AllocError> {
    let mut plan = String::from_str(alloc, CHAIN_PLAN)?;
    add_lowerings(&mut plan)?;
    add_reallocs(&mut plan)?;
    plan.push_str("init static 0 0 [trampoline(1999)]\noptions 0 0 utf8 sync - - - -\n")?;
    add_options(&mut plan)?;
    add_trampolines(&mut plan)?;
    Ok(plan)
}

/// Whether 2000 components that stand in each other and end with the first text have this answer under a limit.
fn is_deep(
    alloc: Global,
    limit: &str,
    end: &str,
    status: Status,
    text: &str,
) -> Result<bool, AllocError> {
    let input = nested(alloc, limit, 2000, end)?;
    is_answered(alloc, "translate", &input, status, text)
}

/// Limits, what ends each component, and the answers. A component is instantiated by the one around it, or not at all.
static DEEP: [(&str, &str, Status, &str); 3] = [
    ("1", r#""end","#, Status::Done, EMPTY_PLAN),
    ("2001", INSTANTIATED, Status::Done, DEEP_PLAN),
    (
        "2000",
        INSTANTIATED,
        Status::Refused,
        "fault too-many-instances\n",
    ),
];

#[test]
fn deep_components_are_defined_and_instantiated(rt: HostRuntime) {
    for (limit, end, status, text) in DEEP.iter() {
        let is_so = is_deep(rt.alloc(), limit, end, *status, text);
        holds(&rt, limit, is_so.unwrap_or(false));
    }
}

/// Whether the long chain has its plan.
fn is_chain_planned(alloc: Global) -> Result<bool, AllocError> {
    let input = chain(alloc)?;
    let plan = chain_plan(alloc)?;
    is_answered(alloc, "translate", &input, Status::Done, &plan)
}

#[test]
fn a_long_chain_is_planned(rt: HostRuntime) {
    let is_so = is_chain_planned(rt.alloc());
    holds(&rt, "chain", is_so.unwrap_or(false));
}
