//! Translations into one types builder, one after the other: a type keeps its number, also where one is refused, and no
//! resource is known when the next one begins.

use crate::inputs::{Around, between, holds, input_of};
use crate::translator::options_into;
use pc_entity::{ModuleInternedTypeIndex, Seed};
use pc_input::Input;
use pc_types::{Error, InterfaceType, Place, TypeFuncIndex, TypeKind};
use pc_types_builder::ComponentTypesBuilder;
use std::alloc::{AllocError, Global};

/// A host function that is lowered with a memory and a realloc.
const HOST_LOWERING: &str =
    r#"{"limit":100,"intrinsics":null,"types":{"core":[[["i32","i32"],[]],[["i32","i32","i32","i32"],["i32"]]],
       "types":[{"func":{"params":[["s","string"]],"result":null,"async":false}},{"module":[[],[]]}]},
       "payloads":["version",{"imports":[["log",["func",0]]]},
       {"module":{"ty":1,"imports":[],"funcs":[1],"tables":0,"memories":[false],"globals":0,"tags":0,
       "exports":[["mem","memory",0],["realloc","func",0]]}},
       {"module":{"ty":1,"imports":[["env","log",["func",0]]],"funcs":[],"tables":0,"memories":[],"globals":0,
       "tags":0,"exports":[]}},{"instances":[{"instantiate":[0,[]]}]},
       {"aliases":[{"core-export":["memory",0,"mem"]},{"core-export":["func",0,"realloc"]}]},
       {"canon":[["lower",0,0,0,[["memory",0],["realloc",0]]]]},
       {"instances":[{"exports":[["log","func",1]]},{"instantiate":[1,[["env",1]]]}]},"end"]}"#;

/// A lift of a core function that isn't there.
const CORE_FUNCTION_MISSING: &str =
    r#"{"limit":100,"intrinsics":null,"types":{"core":[[["i32"],["i32"]]],
       "types":[{"func":{"params":[["x","u32"]],"result":"u32","async":false}},{"module":[[],[]]}]},
       "payloads":["version",{"module":{"ty":1,"imports":[],"funcs":[0],"tables":0,"memories":[],"globals":0,
       "tags":0,"exports":[["f","func",0]]}},{"instances":[{"instantiate":[0,[]]}]},
       {"aliases":[{"core-export":["func",0,"f"]}]},{"canon":[["lift",1,0,0,[]]]},{"exports":[["f","func",0]]},
       "end"]}"#;

/// Whether an input has a plan, translated into a builder, and why not.
fn plans(alloc: Global, types: &mut ComponentTypesBuilder, input: &Input) -> Result<(), Error> {
    options_into(alloc, types, input)?;
    Ok(())
}

/// The same of the input that a text is. Each text here is one, so it is for memory where it isn't read.
fn answer(alloc: Global, types: &mut ComponentTypesBuilder, text: &str) -> Result<(), Error> {
    match input_of(alloc, text) {
        Ok(input) => plans(alloc, types, &input),
        Err(_) => Err(Error::NoMemory),
    }
}

/// Whether a list of types is that of a string alone.
fn is_a_string(types: &[InterfaceType]) -> bool {
    match types.first() {
        Some(InterfaceType::String) => types.len() == 1,
        _ => false,
    }
}

/// Whether the first function type is that of a function which takes a string and returns nothing.
fn first_takes_a_string(types: &ComponentTypesBuilder) -> bool {
    if types.held(TypeKind::Func) == 0 {
        return false;
    }
    let first = types.func(TypeFuncIndex(0));
    is_a_string(types.tuple(first.params).types.as_slice())
        && types.tuple(first.results).types.is_empty()
}

/// Whether the first core signature is that of a function which takes two numbers.
fn first_takes_two_numbers(types: &ComponentTypesBuilder) -> bool {
    types.held(TypeKind::Signature) > 0
        && types.signature(ModuleInternedTypeIndex(0)).params.len() == 2
}

/// Whether the builder has the types of the host function that is lowered first, under the first numbers.
fn begins_with_the_host_function(types: &ComponentTypesBuilder) -> bool {
    first_takes_a_string(types) && first_takes_two_numbers(types)
}

/// Where the second input lifts a function that isn't there.
const AT: Place = Place::Reading {
    instance: 0,
    item: 3,
};

/// Whether an input has this answer, and the builder then begins with the types of the host function.
fn keeps_the_first(
    alloc: Global,
    types: &mut ComponentTypesBuilder,
    text: &str,
    want: Result<(), Error>,
) -> bool {
    let is_so = answer(alloc, types, text) == want;
    is_so && begins_with_the_host_function(types)
}

/// Whether types keep their numbers while an input is planned, another one is refused, and the first one is planned
/// again.
fn numbers_stay(alloc: Global) -> bool {
    let mut types = ComponentTypesBuilder::new(alloc, Seed::fixed());
    let first = HOST_LOWERING;
    let refused = Err(Error::Invalid(AT));
    keeps_the_first(alloc, &mut types, first, Ok(()))
        && keeps_the_first(alloc, &mut types, CORE_FUNCTION_MISSING, refused)
        && keeps_the_first(alloc, &mut types, first, Ok(()))
}

#[test]
fn types_keep_their_numbers_where_an_input_is_refused(rt: HostRuntime) {
    holds(&rt, "one builder", numbers_stay(rt.alloc()));
}

/// What stands around payloads. The types are a resource, and an instance that exports it.
const RESOURCE: Around = Around {
    before: r#"{"limit":2,"intrinsics":null,"types":{"core":[],"types":["resource",{"instance":[["r",["type",0]]]}]},
       "payloads":["version","#,
    after: r#","end"]}"#,
};

/// The root declares the resource.
const DECLARED: &str = r#"{"types":[{"resource":[0,"i32",null]}]}"#;

/// A child exports it, and would know it from the root alone.
const EXPORTED: &str = r#""component","version",{"exports":[["r","type",0]]},"end",
       {"component-instances":[{"instantiate":[0,[],1]}]}"#;

/// The root declares it, and then the child knows it.
const KNOWN: &str =
    r#"{"types":[{"resource":[0,"i32",null]}]},"component","version",{"exports":[["r","type",0]]},
       "end",{"component-instances":[{"instantiate":[0,[],1]}]}"#;

/// Where the child is instantiated.
const INSTANTIATED: Place = Place::Reading {
    instance: 0,
    item: 1,
};

/// Payloads that are translated one after the other into one builder, and what they answer.
static IN_A_ROW: [(&str, Result<(), Error>); 4] = [
    (EXPORTED, Err(Error::BadType(INSTANTIATED))),
    (KNOWN, Ok(())),
    (DECLARED, Ok(())),
    (EXPORTED, Err(Error::BadType(INSTANTIATED))),
];

/// Whether the input of these payloads has this answer.
fn is_answer(
    alloc: Global,
    types: &mut ComponentTypesBuilder,
    payloads: &str,
    want: &Result<(), Error>,
) -> Result<bool, AllocError> {
    let input = between(alloc, RESOURCE.before, payloads, RESOURCE.after)?;
    Ok(answer(alloc, types, &input) == *want)
}

/// Whether all of them have their answers.
fn are_answers(alloc: Global) -> Result<bool, AllocError> {
    let mut types = ComponentTypesBuilder::new(alloc, Seed::fixed());
    for (payloads, want) in IN_A_ROW.iter() {
        if !is_answer(alloc, &mut types, payloads, want)? {
            return Ok(false);
        }
    }
    Ok(true)
}

#[test]
fn a_translation_begins_without_resources(rt: HostRuntime) {
    let is_so = are_answers(rt.alloc());
    holds(&rt, "one after the other", is_so.unwrap_or(false));
}
