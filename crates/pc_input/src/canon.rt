//! Canonical functions.
//!
//! In the array of a canonical function the name comes first. How many parts follow the name, and of which shape they
//! are, tells the functions apart first. So each name stands in one place, in a table of those with the same parts.

ghost use Rattle.std.specs.Prelude.{◌≡◌, map};
ghost use Rattle.pc_entity.specs.Lists.{value_of};
ghost use Rattle.pc_input.specs.Canon.{of_nothing, of_signature, thread_of_signature};
ghost use Rattle.pc_input.specs.Canon.{of_index, of_flag, of_options, of_one, of_cancel, of_copy, of_slot, of_start};
ghost use Rattle.pc_input.specs.Canon.{of_two_numbered, of_two_with_options, of_two, of_function, of_four, of_rest};
ghost use Rattle.pc_input.specs.Canon.{canon_from, with_signature};
ghost use Rattle.pc_input.specs.Canon.{canon_item, task_return};
ghost use Rattle.pc_input_values.specs.Reads.{Reads};

use crate::entry::{ReadEntry, entries};
use pc_entity::Seq;
use pc_input_tokens::{Tree, headed};
use pc_input_values::{DecodeError, Form, ReadForm, read};
use pc_parsed::{CanonItem, CanonOption};
use pc_types::WasmValType;
use std::alloc::Global;

/// A canonical function of a name alone. A component that has one is refused later on.
#[tactic(auto, unfolding(crate::specs::Canon::of_nothing))]
fn of_nothing(name: &str) -> Option<CanonItem>
    ensures { result ≡ value_of name.now of_nothing }
{
    match name {
        "thread.spawn-ref" => Some(CanonItem::ThreadSpawnRef),
        "thread.spawn-indirect" => Some(CanonItem::ThreadSpawnIndirect),
        "thread.available-parallelism" => Some(CanonItem::ThreadAvailableParallelism),
        "stream.forward" => Some(CanonItem::StreamForward),
        "future.forward" => Some(CanonItem::FutureForward),
        _ => None,
    }
}

/// A canonical function of threads, of a signature.
#[tactic(auto, unfolding(crate::specs::Canon::thread_of_signature))]
fn thread_of_signature(name: &str, core: u32) -> Option<CanonItem>
    ensures { result ≡ value_of name.now (thread_of_signature core) }
{
    match name {
        "thread.index" => Some(CanonItem::ThreadIndex(core)),
        "thread.resume-later" => Some(CanonItem::ThreadResumeLater(core)),
        "thread.suspend" => Some(CanonItem::ThreadSuspend(core)),
        "thread.yield" => Some(CanonItem::ThreadYield(core)),
        "thread.suspend-then-resume" => Some(CanonItem::ThreadSuspendThenResume(core)),
        "thread.yield-then-resume" => Some(CanonItem::ThreadYieldThenResume(core)),
        "thread.suspend-then-promote" => Some(CanonItem::ThreadSuspendThenPromote(core)),
        "thread.yield-then-promote" => Some(CanonItem::ThreadYieldThenPromote(core)),
        _ => None,
    }
}

/// A canonical function of a signature.
#[tactic(auto, unfolding(crate::specs::Canon::of_signature))]
fn of_signature(name: &str, core: u32) -> Option<CanonItem>
    ensures { result ≡ value_of name.now (of_signature core) }
{
    match name {
        "backpressure.inc" => Some(CanonItem::BackpressureInc(core)),
        "backpressure.dec" => Some(CanonItem::BackpressureDec(core)),
        "task.cancel" => Some(CanonItem::TaskCancel(core)),
        "waitable-set.new" => Some(CanonItem::WaitableSetNew(core)),
        "waitable-set.drop" => Some(CanonItem::WaitableSetDrop(core)),
        "waitable.join" => Some(CanonItem::WaitableJoin(core)),
        "subtask.drop" => Some(CanonItem::SubtaskDrop(core)),
        "error-context.drop" => Some(CanonItem::ErrorContextDrop(core)),
        _ => thread_of_signature(name, core),
    }
}

/// A canonical function of a signature and a number.
#[tactic(auto, unfolding(crate::specs::Canon::of_index))]
fn of_index(name: &str, core: u32, n: u32) -> Option<CanonItem>
    ensures { result ≡ value_of name.now (of_index core n) }
{
    match name {
        "resource.new" => Some(CanonItem::ResourceNew(core, n)),
        "resource.rep" => Some(CanonItem::ResourceRep(core, n)),
        "resource.drop" => Some(CanonItem::ResourceDrop(core, n)),
        "waitable-set.wait" => Some(CanonItem::WaitableSetWait(core, n)),
        "waitable-set.poll" => Some(CanonItem::WaitableSetPoll(core, n)),
        "stream.new" => Some(CanonItem::StreamNew(core, n)),
        "stream.drop-readable" => Some(CanonItem::StreamDropReadable(core, n)),
        "stream.drop-writable" => Some(CanonItem::StreamDropWritable(core, n)),
        "future.new" => Some(CanonItem::FutureNew(core, n)),
        "future.drop-readable" => Some(CanonItem::FutureDropReadable(core, n)),
        "future.drop-writable" => Some(CanonItem::FutureDropWritable(core, n)),
        _ => None,
    }
}

/// A canonical function of a signature, asynchronous or not.
#[tactic(auto, unfolding(crate::specs::Canon::of_flag))]
fn of_flag(name: &str, core: u32, async_: bool) -> Option<CanonItem>
    ensures { result ≡ value_of name.now (of_flag core async_) }
{
    match name {
        "subtask.cancel" => Some(CanonItem::SubtaskCancel(core, async_)),
        _ => None,
    }
}

/// A canonical function of a signature and options.
#[tactic(auto, unfolding(crate::specs::Canon::of_options))]
fn of_options(name: &str, core: u32, opts: Seq<CanonOption>) -> Option<CanonItem>
    ensures { result ≡ value_of name.now (of_options core opts) }
{
    match name {
        "error-context.new" => Some(CanonItem::ErrorContextNew(core, opts)),
        "error-context.debug-message" => Some(CanonItem::ErrorContextDebugMessage(core, opts)),
        _ => None,
    }
}

/// A canonical function of a signature and one part. The part's shape tells apart what it may be.
#[tactic(auto, unfolding(crate::specs::Canon::of_one))]
fn of_one<F: Form, V: Tree>(
    form: &F,
    alloc: Global,
    name: &str,
    core: u32,
    part: &V,
) -> Result<CanonItem, DecodeError>
    ensures { Reads result (of_one core name.now (V.means part.now)) }
{
    if let Some(async_) = part.as_bool() {
        return of_flag(name, core, async_).ok_or(DecodeError::BadForm);
    }
    if part.is_number() {
        let n = u32::read(form, alloc, part)?;
        return of_index(name, core, n).ok_or(DecodeError::BadForm);
    }
    let opts = entries(form, alloc, part)?;
    of_options(name, core, opts).ok_or(DecodeError::BadForm)
}

/// A canonical function of a signature and a stream or future type, asynchronous or not.
#[tactic(auto, unfolding(crate::specs::Canon::of_cancel))]
fn of_cancel(name: &str, core: u32, ty: u32, async_: bool) -> Option<CanonItem>
    ensures { result ≡ value_of name.now (of_cancel core ty async_) }
{
    match name {
        "stream.cancel-read" => Some(CanonItem::StreamCancelRead(core, ty, async_)),
        "stream.cancel-write" => Some(CanonItem::StreamCancelWrite(core, ty, async_)),
        "future.cancel-read" => Some(CanonItem::FutureCancelRead(core, ty, async_)),
        "future.cancel-write" => Some(CanonItem::FutureCancelWrite(core, ty, async_)),
        _ => None,
    }
}

/// A canonical function of a signature, a stream or future type, and options.
#[tactic(auto, unfolding(crate::specs::Canon::of_copy))]
fn of_copy(name: &str, core: u32, ty: u32, opts: Seq<CanonOption>) -> Option<CanonItem>
    ensures { result ≡ value_of name.now (of_copy core ty opts) }
{
    match name {
        "stream.read" => Some(CanonItem::StreamRead(core, ty, opts)),
        "stream.write" => Some(CanonItem::StreamWrite(core, ty, opts)),
        "future.read" => Some(CanonItem::FutureRead(core, ty, opts)),
        "future.write" => Some(CanonItem::FutureWrite(core, ty, opts)),
        _ => None,
    }
}

/// A canonical function of a signature, the type of a slot, and the slot.
#[tactic(auto, unfolding(crate::specs::Canon::of_slot))]
fn of_slot(name: &str, core: u32, ty: WasmValType, slot: u32) -> Option<CanonItem>
    ensures { result ≡ value_of name.now (of_slot core ty slot) }
{
    match name {
        "context.get" => Some(CanonItem::ContextGet(core, ty, slot)),
        "context.set" => Some(CanonItem::ContextSet(core, ty, slot)),
        _ => None,
    }
}

/// A canonical function of a signature, a start type, and a table.
#[tactic(auto, unfolding(crate::specs::Canon::of_start))]
fn of_start(name: &str, core: u32, ty: u32, table: u32) -> Option<CanonItem>
    ensures { result ≡ value_of name.now (of_start core ty table) }
{
    match name {
        "thread.new-indirect" => Some(CanonItem::ThreadNewIndirect(core, ty, table)),
        _ => None,
    }
}

/// A canonical function of a signature and two parts, of which the second is a number.
#[tactic(auto, unfolding(crate::specs::Canon::of_two_numbered))]
fn of_two_numbered<F: Form, V: Tree>(
    form: &F,
    alloc: Global,
    name: &str,
    core: u32,
    a: &V,
    b: &V,
) -> Result<CanonItem, DecodeError>
    ensures { Reads result (of_two_numbered core name.now (V.means a.now) (V.means b.now)) }
{
    if a.is_number() {
        let ty = u32::read(form, alloc, a)?;
        let table = u32::read(form, alloc, b)?;
        return of_start(name, core, ty, table).ok_or(DecodeError::BadForm);
    }
    let ty = WasmValType::read(form, alloc, a)?;
    let slot = u32::read(form, alloc, b)?;
    of_slot(name, core, ty, slot).ok_or(DecodeError::BadForm)
}

/// `task.return` of a signature, with its result and options.
fn task_return<F: Form, V: Tree>(
    form: &F,
    alloc: Global,
    core: u32,
    a: &V,
    b: &V,
) -> Result<CanonItem, DecodeError>
    ensures { Reads result (task_return core (V.means a.now) (V.means b.now)) }
{
    let result = read(form, alloc, a)?;
    let opts = entries(form, alloc, b)?;
    Ok(CanonItem::TaskReturn(core, result, opts))
}

/// A canonical function of a signature and two parts, of which the second has options.
#[tactic(auto, unfolding(crate::specs::Canon::of_two_with_options))]
fn of_two_with_options<F: Form, V: Tree>(
    form: &F,
    alloc: Global,
    name: &str,
    core: u32,
    a: &V,
    b: &V,
) -> Result<CanonItem, DecodeError>
    ensures { Reads result (of_two_with_options core name.now (V.means a.now) (V.means b.now)) }
{
    if name == "task.return" {
        return task_return(form, alloc, core, a, b);
    }
    let ty = u32::read(form, alloc, a)?;
    let opts = entries(form, alloc, b)?;
    of_copy(name, core, ty, opts).ok_or(DecodeError::BadForm)
}

/// A canonical function of a signature and two parts. The second's shape tells apart what they may be.
#[tactic(auto, unfolding(crate::specs::Canon::of_two))]
fn of_two<F: Form, V: Tree>(
    form: &F,
    alloc: Global,
    name: &str,
    core: u32,
    a: &V,
    b: &V,
) -> Result<CanonItem, DecodeError>
    ensures { Reads result (of_two core name.now (V.means a.now) (V.means b.now)) }
{
    if let Some(async_) = b.as_bool() {
        let ty = u32::read(form, alloc, a)?;
        return of_cancel(name, core, ty, async_).ok_or(DecodeError::BadForm);
    }
    if b.is_number() {
        of_two_numbered(form, alloc, name, core, a, b)
    } else {
        of_two_with_options(form, alloc, name, core, a, b)
    }
}

/// `lift` or `lower`.
#[tactic(auto, unfolding(crate::specs::Canon::of_function))]
fn of_function(
    name: &str,
    func: u32,
    ty: u32,
    core: u32,
    opts: Seq<CanonOption>,
) -> Option<CanonItem>
    ensures { result ≡ value_of name.now (of_function func ty core opts) }
{
    match name {
        "lift" => Some(CanonItem::Lift(func, ty, core, opts)),
        "lower" => Some(CanonItem::Lower(func, ty, core, opts)),
        _ => None,
    }
}

/// `lift` or `lower`, by its four parts.
#[tactic(auto, unfolding(crate::specs::Canon::of_four))]
fn of_four<F: Form, V: Tree>(
    form: &F,
    alloc: Global,
    name: &str,
    func: &V,
    ty: &V,
    core: &V,
    opts: &V,
) -> Result<CanonItem, DecodeError>
    ensures { Reads result (of_four name.now (V.means func.now) (V.means ty.now) (V.means core.now)
        (V.means opts.now)) }
{
    let func = u32::read(form, alloc, func)?;
    let ty = u32::read(form, alloc, ty)?;
    let core = u32::read(form, alloc, core)?;
    let opts = entries(form, alloc, opts)?;
    of_function(name, func, ty, core, opts).ok_or(DecodeError::BadForm)
}

/// A canonical function of a signature and what follows it.
fn of_rest<F: Form, V: Tree>(
    form: &F,
    alloc: Global,
    name: &str,
    core: u32,
    parts: &[V],
) -> Result<CanonItem, DecodeError>
    ensures { Reads result (of_rest core name.now (map V.means parts.now)) }
{
    match parts {
        [] => of_signature(name, core).ok_or(DecodeError::BadForm),
        [a] => of_one(form, alloc, name, core, a),
        [a, b] => of_two(form, alloc, name, core, a, b),
        _ => Err(DecodeError::BadForm),
    }
}

/// A canonical function of a signature, yet to be read, and what follows it.
fn with_signature<F: Form, V: Tree>(
    form: &F,
    alloc: Global,
    name: &str,
    core: &V,
    rest: &[V],
) -> Result<CanonItem, DecodeError>
    ensures { Reads result (with_signature name.now (V.means core.now) (map V.means rest.now)) }
{
    let core = u32::read(form, alloc, core)?;
    of_rest(form, alloc, name, core, rest)
}

/// A canonical function, by its name and what follows it.
#[tactic(auto, unfolding(crate::specs::Canon::canon_from))]
fn from_parts<F: Form, V: Tree>(
    form: &F,
    alloc: Global,
    name: &str,
    parts: &[V],
) -> Result<CanonItem, DecodeError>
    ensures { Reads result (canon_from name.now (map V.means parts.now)) }
{
    match parts {
        [] => of_nothing(name).ok_or(DecodeError::BadForm),
        [func, ty, core, opts] => of_four(form, alloc, name, func, ty, core, opts),
        [core, rest @ ..] => with_signature(form, alloc, name, core, rest),
    }
}

impl ReadEntry for CanonItem {
    ghost shape = { λ _. canon_item };

    #[tactic(auto, unfolding(crate::specs::Canon::canon_item))]
    fn read<F: Form, V: Tree>(
        form: &F,
        alloc: Global,
        value: &V,
    ) -> Result<CanonItem, DecodeError> {
        match headed(value) {
            Some((name, parts)) => from_parts(form, alloc, name, parts),
            None => Err(DecodeError::BadForm),
        }
    }
}
