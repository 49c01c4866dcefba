//! What each canonical function names beside its signature.

ghost use Rattle.std.specs.Prelude.{◌≡◌, IfSome, Some, is_some, option_and_then, true};
ghost use Rattle.pc_spec_reading.specs.Canonical.{canonical_item};
ghost use Rattle.pc_inline_builtins.specs.Written.{HasItsShape, if_builtin, item_of};
ghost use Rattle.pc_inline_builtins.specs.declared.builtin.First.TheVariants as first;
ghost use Rattle.pc_inline_builtins.specs.declared.builtin.Handle.TheVariants as handle;
ghost use Rattle.pc_inline_builtins.specs.declared.builtin.Second.TheVariants as second;

use crate::builtin::{Builtin, First, Handle, Second};
use pc_parsed::CanonItem;
use pc_types::TrampolineKind as Kind;

/// A builtin of these.
fn of<'a>(kind: Kind, core: u32, first: First, second: Second<'a>) -> Option<Builtin<'a>>
    ensures { result ≡ Some (record { kind = kind; core = core; first = first; second = second.entry }) }
{
    Some(Builtin {
        kind,
        core,
        first,
        second,
    })
}

/// A builtin with its signature alone.
fn plain<'a>(kind: Kind, core: u32) -> Option<Builtin<'a>>
    ensures { result ≡ Some (record {
      kind = kind;
      core = core;
      first = first.Nothing;
      second = second.Nothing;
    }) }
{
    of(kind, core, First::Nothing, Second::Nothing)
}

/// A builtin over a resource.
fn over_resource<'a>(kind: Kind, core: u32, id: u32) -> Option<Builtin<'a>>
    ensures { result ≡ Some (record {
      kind = kind;
      core = core;
      first = first.Handle handle.Resource id;
      second = second.Nothing;
    }) }
{
    of(
        kind,
        core,
        First::Handle(Handle::Resource, id),
        Second::Nothing,
    )
}

/// A builtin over a stream, and what else it names.
fn over_stream<'a>(kind: Kind, core: u32, ty: u32, more: Second<'a>) -> Option<Builtin<'a>>
    ensures { result ≡ Some (record {
      kind = kind;
      core = core;
      first = first.Handle handle.Stream ty;
      second = more.entry;
    }) }
{
    of(kind, core, First::Handle(Handle::Stream, ty), more)
}

/// The same over a future.
fn over_future<'a>(kind: Kind, core: u32, ty: u32, more: Second<'a>) -> Option<Builtin<'a>>
    ensures { result ≡ Some (record {
      kind = kind;
      core = core;
      first = first.Handle handle.Future ty;
      second = more.entry;
    }) }
{
    of(kind, core, First::Handle(Handle::Future, ty), more)
}

/// The builtin that a canonical function is, if it is one with a row of its own in no other table: all but the end of
/// a task, context slots, and the making of a thread.
#[tactic(auto, unfolding(pc_spec_reading::specs::Canonical::canonical_item, pc_trampoline::specs::Shape::shape_of, crate::specs::Written::HasItsShape))]
pub(crate) fn builtin_of(item: &CanonItem) -> Option<Builtin<'_>>
    ensures says { option_and_then item_of result ≡ if_builtin (canonical_item item.now) }
    ensures named { IfSome result (λ b. is_some (item_of b) ≡ true) }
    ensures shaped { IfSome result HasItsShape }
{
    match item {
        CanonItem::ResourceNew(core, id) => over_resource(Kind::ResourceNew, *core, *id),
        CanonItem::ResourceRep(core, id) => over_resource(Kind::ResourceRep, *core, *id),
        CanonItem::ResourceDrop(core, id) => over_resource(Kind::ResourceDrop, *core, *id),
        CanonItem::BackpressureInc(core) => plain(Kind::BackpressureInc, *core),
        CanonItem::BackpressureDec(core) => plain(Kind::BackpressureDec, *core),
        CanonItem::TaskCancel(core) => plain(Kind::TaskCancel, *core),
        CanonItem::WaitableSetNew(core) => plain(Kind::WaitableSetNew, *core),
        CanonItem::WaitableSetDrop(core) => plain(Kind::WaitableSetDrop, *core),
        CanonItem::WaitableJoin(core) => plain(Kind::WaitableJoin, *core),
        CanonItem::SubtaskDrop(core) => plain(Kind::SubtaskDrop, *core),
        CanonItem::ThreadIndex(core) => plain(Kind::ThreadIndex, *core),
        CanonItem::ThreadResumeLater(core) => plain(Kind::ThreadResumeLater, *core),
        CanonItem::ThreadSuspend(core) => plain(Kind::ThreadSuspend, *core),
        CanonItem::ThreadYield(core) => plain(Kind::ThreadYield, *core),
        CanonItem::ThreadSuspendThenResume(core) => plain(Kind::ThreadSuspendThenResume, *core),
        CanonItem::ThreadYieldThenResume(core) => plain(Kind::ThreadYieldThenResume, *core),
        CanonItem::ThreadSuspendThenPromote(core) => plain(Kind::ThreadSuspendThenPromote, *core),
        CanonItem::ThreadYieldThenPromote(core) => plain(Kind::ThreadYieldThenPromote, *core),
        CanonItem::SubtaskCancel(core, is_async) => {
            of(
                Kind::SubtaskCancel,
                *core,
                First::Nothing,
                Second::Flag(*is_async),
            )
        }
        CanonItem::WaitableSetWait(core, memory) => {
            of(
                Kind::WaitableSetWait,
                *core,
                First::Nothing,
                Second::Memory(*memory),
            )
        }
        CanonItem::WaitableSetPoll(core, memory) => {
            of(
                Kind::WaitableSetPoll,
                *core,
                First::Nothing,
                Second::Memory(*memory),
            )
        }
        CanonItem::StreamNew(core, ty) => {
            over_stream(Kind::StreamNew, *core, *ty, Second::Nothing)
        }
        CanonItem::StreamDropReadable(core, ty) => {
            over_stream(Kind::StreamDropReadable, *core, *ty, Second::Nothing)
        }
        CanonItem::StreamDropWritable(core, ty) => {
            over_stream(Kind::StreamDropWritable, *core, *ty, Second::Nothing)
        }
        CanonItem::StreamRead(core, ty, opts) => {
            over_stream(Kind::StreamRead, *core, *ty, Second::Options(opts))
        }
        CanonItem::StreamWrite(core, ty, opts) => {
            over_stream(Kind::StreamWrite, *core, *ty, Second::Options(opts))
        }
        CanonItem::StreamCancelRead(core, ty, is_async) => {
            over_stream(Kind::StreamCancelRead, *core, *ty, Second::Flag(*is_async))
        }
        CanonItem::StreamCancelWrite(core, ty, is_async) => {
            over_stream(Kind::StreamCancelWrite, *core, *ty, Second::Flag(*is_async))
        }
        CanonItem::FutureNew(core, ty) => {
            over_future(Kind::FutureNew, *core, *ty, Second::Nothing)
        }
        CanonItem::FutureDropReadable(core, ty) => {
            over_future(Kind::FutureDropReadable, *core, *ty, Second::Nothing)
        }
        CanonItem::FutureDropWritable(core, ty) => {
            over_future(Kind::FutureDropWritable, *core, *ty, Second::Nothing)
        }
        CanonItem::FutureRead(core, ty, opts) => {
            over_future(Kind::FutureRead, *core, *ty, Second::Options(opts))
        }
        CanonItem::FutureWrite(core, ty, opts) => {
            over_future(Kind::FutureWrite, *core, *ty, Second::Options(opts))
        }
        CanonItem::FutureCancelRead(core, ty, is_async) => {
            over_future(Kind::FutureCancelRead, *core, *ty, Second::Flag(*is_async))
        }
        CanonItem::FutureCancelWrite(core, ty, is_async) => {
            over_future(Kind::FutureCancelWrite, *core, *ty, Second::Flag(*is_async))
        }
        CanonItem::ErrorContextNew(core, opts) => {
            of(
                Kind::ErrorContextNew,
                *core,
                First::ErrorContexts,
                Second::Options(opts),
            )
        }
        CanonItem::ErrorContextDebugMessage(core, opts) => {
            of(
                Kind::ErrorContextDebugMessage,
                *core,
                First::ErrorContexts,
                Second::Options(opts),
            )
        }
        CanonItem::ErrorContextDrop(core) => {
            of(
                Kind::ErrorContextDrop,
                *core,
                First::ErrorContexts,
                Second::Nothing,
            )
        }
        CanonItem::Lift(..)
        | CanonItem::Lower(..)
        | CanonItem::TaskReturn(..)
        | CanonItem::ContextGet(..)
        | CanonItem::ContextSet(..)
        | CanonItem::ThreadNewIndirect(..)
        | CanonItem::ThreadSpawnRef
        | CanonItem::ThreadSpawnIndirect
        | CanonItem::ThreadAvailableParallelism
        | CanonItem::StreamForward
        | CanonItem::FutureForward => None,
    }
}
