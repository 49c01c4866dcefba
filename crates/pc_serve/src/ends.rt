//! From a command and a source to a sink.

ghost use Rattle.std.specs.Prelude.{◌≡◌, ◌≤◌, ◌⊎◌, None, Some};
ghost use Rattle.pc_serve.specs.Ended.{Ended};
ghost use Rattle.pc_serve.specs.Said.{Said};

use crate::{Answer, Answers, Status};
use pc_numbers::NoMemory;
use pc_stream::{Failed, ReadEnd, Sink, Source, read_all, write_all};
use std::alloc::Global;

/// Writes a text, and answers the status that it has, or that a write failed.
pub fn say<W: Sink>(out: &mut W, status: Status, text: &[u8]) -> Status
    ensures said { Said (W.written out.old) (W.written out.new) (W.faults out.old) (W.faults out.new)
        status text.now result }
    ensures never_falls { W.faults out.old ≤ W.faults out.new }
{
    match write_all(out, text) {
        Ok(()) => status,
        Err(Failed) => Status::WriteFault,
    }
}

/// Does a command on all that a source has: writes its answer, or that there is too much.
fn execute<C: Answers, S: Source, W: Sink>(
    alloc: Global,
    command: &C,
    src: &mut S,
    out: &mut W,
) -> Status
    ensures { Ended C.StandsFor C.IsValid C.Says C.Refuses C.usage C.too_long (Some command.now)
        (S.left src.old) (S.left src.new) (S.faults src.old) (S.faults src.new)
        (W.written out.old) (W.written out.new) (W.faults out.old) (W.faults out.new) (out.new ≡ out.old) result }
{
    match read_all(alloc, src) {
        Ok(bytes) => match command.answer(alloc, bytes) {
            Ok(Answer::Made(text)) => say(out, Status::Done, text.as_slice()),
            Ok(Answer::Refused(text)) => say(out, Status::Refused, text.as_slice()),
            Err(NoMemory) => Status::NoMemory,
        },
        Err(ReadEnd::TooLong) => say(out, Status::TooLong, C::too_long_text().as_bytes()),
        Err(ReadEnd::Fault) => Status::ReadFault,
        Err(ReadEnd::NoMemory) => Status::NoMemory,
    }
}

/// Does a command on all that a source has, or says which commands there are.
///
/// No memory is taken once the first byte is offered, and whatever the sink leaves is offered again.
pub fn serve<C: Answers, S: Source, W: Sink>(
    alloc: Global,
    asked: Option<C>,
    src: &mut S,
    out: &mut W,
) -> Status
    // Words that name no command leave the source alone.
    ensures no_command { asked ≡ None → (src.new ≡ src.old) × ((result ≡ Status.Usage) ⊎ (result ≡ Status.WriteFault)) }

    // Each end has its cause. Its fields: `done`, `refused`, `completes`, `succeeds`, `usage`, `too_long`, `gave`,
    // `read_fault`, `write_fault`, `memory`, `reads_never_fall`, `writes_never_fall`.
    ensures ended { Ended C.StandsFor C.IsValid C.Says C.Refuses C.usage C.too_long asked
        (S.left src.old) (S.left src.new) (S.faults src.old) (S.faults src.new)
        (W.written out.old) (W.written out.new) (W.faults out.old) (W.faults out.new) (out.new ≡ out.old) result }
{
    match asked {
        Some(command) => execute(alloc, &command, src, out),
        None => say(out, Status::Usage, C::usage_text().as_bytes()),
    }
}
