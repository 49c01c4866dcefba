//! Translations into a types builder that is handed in: each public call of the translator.
//!
//! What these calls promise is long, and is opened wherever a plan of theirs is looked at. So each stands in a function
//! that hands its plan on.

use crate::inputs::{SMALLEST, holds, input_of};
use pc_entity::{ModuleInternedTypeIndex, PackedOption, Seed};
use pc_input::Input;
use pc_translate::{PlanWithModules, Translator, plan_payloads, translate};
use pc_types::{Error, Place, TypeKind};
use pc_types_builder::ComponentTypesBuilder;
use std::alloc::Global;

/// The plan of an input, into a builder.
fn plan_into(
    alloc: Global,
    types: &mut ComponentTypesBuilder,
    input: &Input,
) -> Result<PlanWithModules, Error> {
    let payloads = input.payloads.as_slice();
    translate(alloc, &input.tunables, &input.table, types, None, payloads)
}

/// The same by a translator.
fn plan_by(
    alloc: Global,
    types: &mut ComponentTypesBuilder,
    input: &Input,
) -> Result<PlanWithModules, Error> {
    let translator = Translator::new(alloc, &input.tunables, &input.table, types);
    translator.translate(input.payloads.as_slice())
}

/// The same by one that exposes the unsafe intrinsics as `unsafe`.
fn plan_exposing(
    alloc: Global,
    types: &mut ComponentTypesBuilder,
    input: &Input,
) -> Result<PlanWithModules, Error> {
    let mut translator = Translator::new(alloc, &input.tunables, &input.table, types);
    translator.expose_unsafe_intrinsics("unsafe");
    translator.translate(input.payloads.as_slice())
}

/// How many options entries a plan has.
fn options_of(plan: Result<PlanWithModules, Error>) -> Result<usize, Error> {
    let plan = plan?;
    Ok(plan.0.component.options.len())
}

/// How many options entries the plan has that goes into a builder.
pub(crate) fn options_into(
    alloc: Global,
    types: &mut ComponentTypesBuilder,
    input: &Input,
) -> Result<usize, Error> {
    options_of(plan_into(alloc, types, input))
}

/// What three translations of an input answer: a plain one, one by a translator, and one by a translator that exposes
/// the name.
type Answers = (
    Result<usize, Error>,
    Result<usize, Error>,
    Result<usize, Error>,
);

fn three_ways(alloc: Global, types: &mut ComponentTypesBuilder, input: &Input) -> Answers {
    let plain = options_into(alloc, types, input);
    let by_translator = options_of(plan_by(alloc, types, input));
    (
        plain,
        by_translator,
        options_of(plan_exposing(alloc, types, input)),
    )
}

/// Whether an input is read, has these answers, and leaves one type of a function in the builder.
fn are_answers(alloc: Global, text: &str, want: Answers) -> bool {
    let mut types = ComponentTypesBuilder::new(alloc, Seed::fixed());
    match input_of(alloc, text) {
        Ok(input) => {
            three_ways(alloc, &mut types, &input) == want && types.held(TypeKind::Func) == 1
        }
        Err(_) => false,
    }
}

#[test]
fn a_builder_gains_the_types_of_a_plan_once(rt: HostRuntime) {
    let is_so = are_answers(rt.alloc(), SMALLEST, (Ok(1), Ok(1), Ok(1)));
    holds(&rt, "smallest", is_so);
}

/// An import of this name, of a function.
const IMPORT: &str = r#"{"limit":1,"intrinsics":null,"types":{"core":[],
       "types":[{"func":{"params":[],"result":null,"async":false}}]},
       "payloads":["version",{"imports":[["unsafe",["func",0]]]},"end"]}"#;

/// Where the import stands.
const AT: Place = Place::Payload {
    payload: 1,
    item: 0,
};

#[test]
fn an_import_of_the_name_has_to_be_an_instance(rt: HostRuntime) {
    let want = (Ok(0), Ok(0), Err(Error::BadIntrinsics(AT)));
    holds(&rt, "a function", are_answers(rt.alloc(), IMPORT, want));
}

/// One intrinsic, lowered under the second core signature and then under the first. A module is given the last.
const LOWERED_TWICE: &str =
    r#"{"limit":1,"intrinsics":"i","types":{"core":[[["i64"],["i32"]],[[],["i32"]]],
       "types":[{"func":{"params":[["a","u64"]],"result":"u8","async":false}},
       {"instance":[["u8-native-load",["func",0]]]},{"module":[[],[]]}]},
       "payloads":["version",{"imports":[["i",["instance",1]]]},{"aliases":[{"export":["func",0,"u8-native-load"]}]},
       {"canon":[["lower",0,0,1,[]],["lower",0,0,0,[]]]},
       {"module":{"ty":2,"imports":[["e","a",["func",0]]],"funcs":[],"tables":0,"memories":[],"globals":0,"tags":0,
       "exports":[]}},{"instances":[{"exports":[["a","func",1]]},{"instantiate":[0,[["e",0]]]}]},"end"]}"#;

/// The plan of an input, where the unsafe intrinsics are exposed as `i`.
fn plan_of(alloc: Global, input: Input) -> Result<PlanWithModules, Error> {
    let Input {
        tunables,
        table,
        payloads,
        ..
    } = input;
    plan_payloads(alloc, Seed::fixed(), &tunables, &table, Some("i"), payloads)
}

/// The core signature that a plan has for the second intrinsic.
fn second_signature(
    plan: Result<PlanWithModules, Error>,
) -> Result<PackedOption<ModuleInternedTypeIndex>, Error> {
    let plan = plan?;
    Ok(plan.0.component.unsafe_intrinsics[1])
}

/// Whether an input is read, and its plan has this signature.
fn is_signed(alloc: Global, text: &str, number: u32) -> bool {
    let want = PackedOption::Some(ModuleInternedTypeIndex(number));
    match input_of(alloc, text) {
        Ok(input) => second_signature(plan_of(alloc, input)) == Ok(want),
        Err(_) => false,
    }
}

#[test]
fn the_first_signature_of_an_intrinsic_stands(rt: HostRuntime) {
    let is_so = is_signed(rt.alloc(), LOWERED_TWICE, 0);
    holds(&rt, "an intrinsic that is lowered twice", is_so);
}
