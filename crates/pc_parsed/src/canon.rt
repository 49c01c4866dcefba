//! Canonical functions, as they are written. In each the field that is called `core` in the input is the number of
//! a core signature in the type table.

use pc_entity::Seq;
use pc_types::{ValType, WasmValType};

/// An option of a canonical function. Of one that is repeated the last counts.
#[derive(Clone, Copy, Debug, PartialEq, Eq)]
pub enum CanonOption {
    Utf8,
    Utf16,
    CompactUtf16,
    Async,
    Gc,
    Memory(u32),
    Realloc(u32),
    PostReturn(u32),
    Callback(u32),
    CoreType(u32),
}

/// A canonical function. Fields in their written order.
#[derive(Drop)]
pub enum CanonItem {
    /// Core function, function type, signature, options.
    Lift(u32, u32, u32, Seq<CanonOption>),
    /// Component function, function type, signature, options.
    Lower(u32, u32, u32, Seq<CanonOption>),
    /// Signature, resource.
    ResourceNew(u32, u32),
    ResourceRep(u32, u32),
    ResourceDrop(u32, u32),
    /// Signature.
    BackpressureInc(u32),
    BackpressureDec(u32),
    TaskCancel(u32),
    WaitableSetNew(u32),
    WaitableSetDrop(u32),
    WaitableJoin(u32),
    SubtaskDrop(u32),
    ErrorContextDrop(u32),
    ThreadIndex(u32),
    ThreadResumeLater(u32),
    ThreadSuspend(u32),
    ThreadYield(u32),
    ThreadSuspendThenResume(u32),
    ThreadYieldThenResume(u32),
    ThreadSuspendThenPromote(u32),
    ThreadYieldThenPromote(u32),
    /// Signature, result, options.
    TaskReturn(u32, Option<ValType>, Seq<CanonOption>),
    /// Signature, memory.
    WaitableSetWait(u32, u32),
    WaitableSetPoll(u32, u32),
    /// Signature, async.
    SubtaskCancel(u32, bool),
    /// Signature, stream or future type.
    StreamNew(u32, u32),
    StreamDropReadable(u32, u32),
    StreamDropWritable(u32, u32),
    FutureNew(u32, u32),
    FutureDropReadable(u32, u32),
    FutureDropWritable(u32, u32),
    /// Signature, stream or future type, options.
    StreamRead(u32, u32, Seq<CanonOption>),
    StreamWrite(u32, u32, Seq<CanonOption>),
    FutureRead(u32, u32, Seq<CanonOption>),
    FutureWrite(u32, u32, Seq<CanonOption>),
    /// Signature, stream or future type, async.
    StreamCancelRead(u32, u32, bool),
    StreamCancelWrite(u32, u32, bool),
    FutureCancelRead(u32, u32, bool),
    FutureCancelWrite(u32, u32, bool),
    /// Signature, options.
    ErrorContextNew(u32, Seq<CanonOption>),
    ErrorContextDebugMessage(u32, Seq<CanonOption>),
    /// Signature, type of the slot, slot.
    ContextGet(u32, WasmValType, u32),
    ContextSet(u32, WasmValType, u32),
    /// Signature, start type, table.
    ThreadNewIndirect(u32, u32, u32),
    ThreadSpawnRef,
    ThreadSpawnIndirect,
    ThreadAvailableParallelism,
    StreamForward,
    FutureForward,
}
