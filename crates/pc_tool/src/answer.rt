//! From bytes to the text that answers them.

ghost use Rattle.std.specs.Prelude.{◌≡◌, IfErr, IfOk, ◌≢◌};
ghost use Rattle.std.specs.Option.{option_map};
ghost use Rattle.pc_offsets.specs.Context.{context_size};
ghost use Rattle.pc_text.specs.ContextText.{context_text};
ghost use Rattle.pc_text.specs.FaultText.{too_long as too_long_line};
ghost use Rattle.pc_text.specs.UsageText.{usage as usage_line};
ghost use Rattle.pc_tool.specs.Answers.{AnswersInput};
ghost use Rattle.pc_tool.specs.Headline.{Decodes, Explains, IsBadForm, IsErrorOf, IsFaultText, IsNotJson};
ghost use Rattle.pc_tool.specs.Headline.{IsPlanFor, IsTextOf, IsValidInput, Prints};
ghost use Rattle.pc_tool.specs.Refusal.{valid_has_no_fault};

use crate::words::Command;
use pc_entity::{NoMemory, PrimaryMap, Seed, StaticModuleIndex, Text};
use pc_info::{ComponentTranslation, ModuleTranslation};
use pc_input::{DecodeError, Input, decode_input};
use pc_offsets::{PtrWidth, VMComponentOffsets};
use pc_serve::{Answer, Answers};
use pc_text::{
    bad_form_text, context_text, fault_text, not_json_text, plan_text, too_long_text, usage_text,
};
use pc_text_facts::facts_text;
use pc_translate::plan_payloads;
use pc_types::Error;
use std::alloc::Global;

/// The import name of the unsafe intrinsics, if one is given.
fn exposed_name(intrinsics: &Option<Text>) -> Option<&str>
    ensures { option_map (λ name. name.now) result ≡ intrinsics.now }
{
    match intrinsics {
        Some(name) => Some(name.as_str()),
        None => None,
    }
}

/// The plan of an input, and its core modules. It is `plan_payloads`, for callers that see an input and not its parts.
/// The payloads go once they are read, and the rest of the input before the plan is looked at.
fn translate_input(
    alloc: Global,
    seed: Seed,
    input: Input,
) -> Result<
    (
        ComponentTranslation,
        PrimaryMap<StaticModuleIndex, ModuleTranslation>,
    ),
    Error,
>
    ensures ok { IfOk result (λ r. IsPlanFor input r.0 r.1) }
    ensures err { IfErr result (IsErrorOf input) }
{
    let Input {
        tunables,
        intrinsics,
        table,
        payloads,
    } = input;
    plan_payloads(
        alloc,
        seed,
        &tunables,
        &table,
        exposed_name(&intrinsics),
        payloads,
    )
}

/// The text of how many bytes the context of a plan takes, with pointers of four bytes and of eight.
fn print_context(alloc: Global, plan: &ComponentTranslation) -> Result<Vec<u8>, NoMemory>
    ensures { IfOk result (λ text. text.items
        ≡ context_text (context_size 4 plan.now.component) (context_size 8 plan.now.component)) }
{
    let four = VMComponentOffsets::size_for(PtrWidth::Four, &plan.component);
    let eight = VMComponentOffsets::size_for(PtrWidth::Eight, &plan.component);
    context_text(alloc, four, eight)
}

/// The text that a command makes of the plan of an input.
fn print(
    alloc: Global,
    command: Command,
    plan: &ComponentTranslation,
    modules: &PrimaryMap<StaticModuleIndex, ModuleTranslation>,
) -> Result<Vec<u8>, NoMemory>
    requires { (input : Input) × IsPlanFor input plan.now modules.now }
    ensures { IfOk result (λ text. Prints command plan.now modules.now text.items) }
{
    match command {
        Command::Translate => plan_text(alloc, plan, modules),
        Command::Context => print_context(alloc, plan),
        Command::Facts => facts_text(alloc, modules),
    }
}

/// The text of an error. It is `fault_text`, for callers that don't look into what a text is.
fn explain(alloc: Global, error: &Error) -> Result<Vec<u8>, NoMemory>
    requires { error.now ≢ Error.NoMemory }
    ensures { IfOk result (λ text. Explains error.now text.items) }
{
    fault_text(alloc, error)
}

/// The answer of a command to an input, by maps that have this seed.
fn answer_input(
    alloc: Global,
    seed: Seed,
    command: Command,
    input: Input,
) -> Result<Answer, NoMemory>
    ensures { IfOk result (AnswersInput command input) }
{
    match translate_input(alloc, seed, input) {
        Ok((plan, modules)) => Ok(Answer::Made(print(alloc, command, &plan, &modules)?)),
        Err(Error::NoMemory) => Err(NoMemory),
        Err(error) => Ok(Answer::Refused(explain(alloc, &error)?)),
    }
}

/// The input that bytes stand for. It is `decode_input`, for callers that don't look into how bytes are read. The bytes
/// go before the input is looked at.
fn decode(alloc: Global, bytes: Vec<u8>) -> Result<Input, DecodeError>
    ensures ok { IfOk result (Decodes bytes.items) }
    ensures not_json { result ≡ Err DecodeError.NotJson → IsNotJson bytes.items }
    ensures bad_form { result ≡ Err DecodeError.BadForm → IsBadForm bytes.items }
{
    decode_input(alloc, bytes.as_slice())
}

/// A text that is always the same.
fn fixed(alloc: Global, text: &str) -> Result<Vec<u8>, NoMemory>
    ensures { IfOk result (λ made. made.items ≡ text.now) }
{
    Ok(text.as_bytes().to_vec(alloc)?)
}

impl Answers for Command {
    ghost use Rattle.pc_input.specs.declared.input.Input.{Input};

    ghost Meaning = { Input };

    ghost StandsFor = { Decodes };

    ghost IsValid = { IsValidInput };

    ghost Says = { IsTextOf };

    ghost Refuses = { IsFaultText };

    ghost usage = { usage_line };

    ghost too_long = { too_long_line };

    ghost completes = { valid_has_no_fault };

    fn answer(&self, alloc: Global, bytes: Vec<u8>) -> Result<Answer, NoMemory> {
        let seed = Seed::of_input(bytes.as_slice());
        match decode(alloc, bytes) {
            Ok(input) => answer_input(alloc, seed, *self, input),
            Err(DecodeError::NotJson) => Ok(Answer::Refused(fixed(alloc, not_json_text())?)),
            Err(DecodeError::BadForm) => Ok(Answer::Refused(fixed(alloc, bad_form_text())?)),
            Err(DecodeError::NoMemory) => Err(NoMemory),
        }
    }

    fn usage_text() -> &'static str {
        usage_text()
    }

    fn too_long_text() -> &'static str {
        too_long_text()
    }
}
