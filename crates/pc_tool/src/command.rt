//! The top call: from words and a source to a sink.

ghost use Rattle.std.specs.Prelude.{◌≡◌, ◌≤◌, ◌⊎◌, ⊤, ℕ, None, Some, map};
ghost use Rattle.std.specs.String.{string_bytes};
ghost use Rattle.pc_serve.specs.Ended.{Tells};
ghost use Rattle.pc_tool.specs.Chain.{ChainEnded};
ghost use Rattle.pc_tool.specs.Headline.{IsContextText, IsFactsText, IsPlanText};
ghost use Rattle.pc_tool.specs.Run.{Ended};
ghost use Rattle.pc_tool.specs.Words.{chain_of, command_of};
ghost use Rattle.pc_tool.specs.declared.words.Command.TheVariants as command;

use crate::chain::chain_text;
use crate::words::{chain_of, command_of};
use crate::{Sink, Source, Status};
use pc_entity::NoMemory;
use pc_serve::{say, serve};
use std::alloc::Global;

/// Writes what the plan of a generated chain of so many links has.
fn write_chain<W: Sink>(alloc: Global, n: u32, out: &mut W) -> Status
    requires few { n ≤ 10000 }
    ensures { ChainEnded n ⊤ (W.written out.old) (W.written out.new)
        (W.faults out.old) (W.faults out.new) (out.new ≡ out.old) result }
{
    match chain_text(alloc, n) {
        Ok(text) => say(out, Status::Done, &text),
        Err(NoMemory) => Status::NoMemory,
    }
}

/// Does what words say: reads the whole source, makes the whole text, and only then writes it.
///
/// No memory is taken once the first byte is offered, and whatever the sink leaves is offered again.
pub fn run<S: Source, W: Sink>(alloc: Global, words: &[String], src: &mut S, out: &mut W) -> Status
    // The headline: what was written is the text of a plan that does what the nested reading of the bytes says.
    ensures translated { command_of (map string_bytes words.now) ≡ Some command.Translate → result ≡ Status.Done
        → Tells IsPlanText (S.left src.old) (S.left src.new) (W.written out.old) (W.written out.new) }

    // The same of `context`: what was written is the text of how many bytes the context of such a plan takes.
    ensures context { command_of (map string_bytes words.now) ≡ Some command.Context → result ≡ Status.Done
        → Tells IsContextText (S.left src.old) (S.left src.new) (W.written out.old) (W.written out.new) }

    // The same of `facts`: what was written is the text of what is recorded of the core modules of such a plan.
    ensures facts { command_of (map string_bytes words.now) ≡ Some command.Facts → result ≡ Status.Done
        → Tells IsFactsText (S.left src.old) (S.left src.new) (W.written out.old) (W.written out.new) }

    // The words `gen` and a number leave the source alone: what was written says what the plan of a generated chain of
    // that length has. Such an input is valid, so it isn't refused.
    ensures generated { (n : ℕ) → chain_of (map string_bytes words.now) ≡ Some n
        → ChainEnded n (src.new ≡ src.old) (W.written out.old) (W.written out.new)
        (W.faults out.old) (W.faults out.new) (out.new ≡ out.old) result }

    // Words that name no command leave the source alone.
    ensures no_command { command_of (map string_bytes words.now) ≡ None → chain_of (map string_bytes words.now) ≡ None
        → (src.new ≡ src.old) × ((result ≡ Status.Usage) ⊎ (result ≡ Status.WriteFault)) }

    // Each end of a command on an input has its cause, and so has that of words that name no command. Its fields:
    // `done`, `refused`, `completes`, `succeeds`, `usage`, `too_long`, `gave`, `read_fault`, `write_fault`, `memory`,
    // `reads_never_fall`, `writes_never_fall`.
    ensures ended { chain_of (map string_bytes words.now) ≡ None → Ended (command_of (map string_bytes words.now))
        (S.left src.old) (S.left src.new) (S.faults src.old) (S.faults src.new)
        (W.written out.old) (W.written out.new) (W.faults out.old) (W.faults out.new) (out.new ≡ out.old) result }
{
    match chain_of(words) {
        Some(n) => write_chain(alloc, n, out),
        None => serve(alloc, command_of(words), src, out),
    }
}
