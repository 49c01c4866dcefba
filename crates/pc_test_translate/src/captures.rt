//! What nested components capture: a variable is shared by all that name it, and variables stand in the order in which
//! they are met.

use crate::inputs::{Around, between, holds, input_of};
use pc_entity::Seed;
use pc_input::Input;
use pc_local::{
    ClosedOverComponent, ClosedOverModule, ClosedOverVars, LocalInitializer, LocalProgram,
    Translation, translate_payloads,
};
use pc_parsed::is_numbered;
use pc_types::Error;
use std::alloc::{AllocError, Global};

/// What stands around payloads. The type table has an empty instance type.
const PAYLOADS: Around = Around {
    before: r#"{"limit":100,"intrinsics":null,"types":{"core":[],"types":[{"instance":[]}]},"payloads":["#,
    after: "]}",
};

/// Payloads with outer aliases, and what each body gives the components in it: the root first, then the others by
/// number.
static CAPTURES: [(&str, &str); 2] = [
    // Two levels out, twice the same, and another.
    (
        r#""version","component","version","component","version",
           {"aliases":[{"outer":["core-module",2,3]},{"outer":["core-module",2,3]},{"outer":["core-module",1,3]},
           {"outer":["component",2,1]}]},"end",
           {"aliases":[{"outer":["core-module",1,3]},{"outer":["component",1,4]}]},"end","end""#,
        " modules local 3 components local 1 local 4;; modules upvar 0 local 3 components upvar 0;",
    ),
    // Two bodies beside each other share the variable of the one around them.
    (
        r#""version","component","version","component","version",{"aliases":[{"outer":["component",2,0]}]},"end",
           "component","version",{"aliases":[{"outer":["component",2,1]},{"outer":["component",2,0]}]},"end",
           "end","end""#,
        " modules components local 0 local 1;;; modules components upvar 0 modules components upvar 1 upvar 0;",
    ),
];

/// Adds a variable, of the body around or of what that captured.
fn show_variable(out: &mut String, is_local: bool, number: u32) -> Result<(), AllocError> {
    out.push_str(if is_local { " local " } else { " upvar " })?;
    write!(out, "{number}")
}

fn show_module(out: &mut String, v: ClosedOverModule) -> Result<(), AllocError> {
    match v {
        ClosedOverModule::Local(n) => show_variable(out, true, n.0),
        ClosedOverModule::Upvar(n) => show_variable(out, false, n.0),
    }
}

fn show_component(out: &mut String, v: ClosedOverComponent) -> Result<(), AllocError> {
    match v {
        ClosedOverComponent::Local(n) => show_variable(out, true, n.0),
        ClosedOverComponent::Upvar(n) => show_variable(out, false, n.0),
    }
}

/// Adds what a component is given.
fn show_vars(out: &mut String, vars: &ClosedOverVars) -> Result<(), AllocError> {
    out.push_str(" modules")?;
    for v in vars.modules.as_slice() {
        show_module(out, *v)?;
    }
    out.push_str(" components")?;
    for v in vars.components.as_slice() {
        show_component(out, *v)?;
    }
    Ok(())
}

/// Adds what a body gives the components in it.
fn show_body(out: &mut String, body: &Translation) -> Result<(), AllocError> {
    for item in body.initializers.as_slice() {
        if let LocalInitializer::ComponentStatic { vars, .. } = item {
            show_vars(out, vars)?;
        }
    }
    out.push_str(";")
}

/// Adds what the bodies of a program give the components in them.
fn show(out: &mut String, program: &LocalProgram) -> Result<(), AllocError> {
    show_body(out, &program.root)?;
    for body in program.components.as_slice() {
        show_body(out, body)?;
    }
    Ok(())
}

/// Whether the bodies of a program give the components in them this.
fn gives(alloc: Global, program: &LocalProgram, want: &str) -> bool {
    let mut out = String::new(alloc);
    show(&mut out, program).is_ok() && out.as_str() == want
}

/// The program of an input, where each thing in it has a number.
fn program_of(alloc: Global, input: &Input) -> Result<LocalProgram, Error> {
    let payloads = input.payloads.as_slice();
    if !is_numbered(&input.table, payloads) {
        return Err(Error::TooMany);
    }
    translate_payloads(alloc, Seed::fixed(), &input.table, None, payloads)
}

/// Whether an input has such a program.
fn captures(alloc: Global, input: &Input, want: &str) -> bool {
    match program_of(alloc, input) {
        Ok(program) => gives(alloc, &program, want),
        Err(_) => false,
    }
}

/// Whether payloads are read and have such a program.
fn is_captured(alloc: Global, payloads: &str, want: &str) -> Result<bool, AllocError> {
    let text = between(alloc, PAYLOADS.before, payloads, PAYLOADS.after)?;
    match input_of(alloc, &text) {
        Ok(input) => Ok(captures(alloc, &input, want)),
        Err(_) => Ok(false),
    }
}

#[test]
fn each_body_between_captures_once(rt: HostRuntime) {
    for (payloads, want) in CAPTURES.iter() {
        let is_so = is_captured(rt.alloc(), payloads, want);
        holds(&rt, payloads, is_so.unwrap_or(false));
    }
}
