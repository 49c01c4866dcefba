//! The trampolines of graphs and plans, in one type over the numbers that these have for slots and options.

ghost use Rattle.std.specs.Prelude.{◌≡◌, ⊤};

use crate::{Transcode, Trap};
use pc_entity::{ComponentTypeIndex, NoMemory, RuntimeComponentInstanceIndex, TryClone};
use pc_types::{
    TypeComponentLocalErrorContextTableIndex, TypeFuncIndex, TypeFutureTableIndex,
    TypeResourceTableIndex, TypeStreamTableIndex, TypeTupleIndex,
};
use std::alloc::{AllocError, Global};

/// A function that the runtime gives: a lowered host function, a builtin of the canonical ABI, or a helper that only
/// adapter modules use.
///
/// `L` numbers what is lowered, `O` options, `M` memories, `T` tables, `C` callbacks and `P` post-return functions. So
/// the trampolines of a graph and of a plan are one type, over the numbers of each.
pub enum Trampoline<L, O, M, T, C, P> {
    /// The lowering of a host function, with its number among those that are lowered; in a graph, its import.
    LowerImport {
        index: L,
        lower_ty: TypeFuncIndex,
        options: O,
    },
    /// Makes a handle of a resource.
    ResourceNew {
        instance: RuntimeComponentInstanceIndex,
        ty: TypeResourceTableIndex,
    },
    /// What a handle of a resource stands for.
    ResourceRep {
        instance: RuntimeComponentInstanceIndex,
        ty: TypeResourceTableIndex,
    },
    /// Drops a handle of a resource.
    ResourceDrop {
        instance: RuntimeComponentInstanceIndex,
        ty: TypeResourceTableIndex,
    },
    /// Takes on no new calls, until as many times taken back.
    BackpressureInc {
        instance: RuntimeComponentInstanceIndex,
    },
    /// Takes one such wish back.
    BackpressureDec {
        instance: RuntimeComponentInstanceIndex,
    },
    /// Gives the results of an async call.
    TaskReturn {
        instance: RuntimeComponentInstanceIndex,
        results: TypeTupleIndex,
        options: O,
    },
    /// Ends a call that is to be cancelled.
    TaskCancel {
        instance: RuntimeComponentInstanceIndex,
    },
    /// Makes a set of waitables.
    WaitableSetNew {
        instance: RuntimeComponentInstanceIndex,
    },
    /// Waits for one of a set.
    WaitableSetWait {
        instance: RuntimeComponentInstanceIndex,
        options: O,
    },
    /// Looks whether one of a set is ready.
    WaitableSetPoll {
        instance: RuntimeComponentInstanceIndex,
        options: O,
    },
    /// Drops a set of waitables.
    WaitableSetDrop {
        instance: RuntimeComponentInstanceIndex,
    },
    /// Puts a waitable into a set.
    WaitableJoin {
        instance: RuntimeComponentInstanceIndex,
    },
    /// Drops a call that was begun.
    SubtaskDrop {
        instance: RuntimeComponentInstanceIndex,
    },
    /// Cancels a call that was begun.
    SubtaskCancel {
        instance: RuntimeComponentInstanceIndex,
        async_: bool,
    },
    /// Makes a stream.
    StreamNew {
        instance: RuntimeComponentInstanceIndex,
        ty: TypeStreamTableIndex,
    },
    /// Reads from a stream.
    StreamRead {
        instance: RuntimeComponentInstanceIndex,
        ty: TypeStreamTableIndex,
        options: O,
    },
    /// Writes to a stream.
    StreamWrite {
        instance: RuntimeComponentInstanceIndex,
        ty: TypeStreamTableIndex,
        options: O,
    },
    /// Cancels a read from a stream.
    StreamCancelRead {
        instance: RuntimeComponentInstanceIndex,
        ty: TypeStreamTableIndex,
        async_: bool,
    },
    /// Cancels a write to a stream.
    StreamCancelWrite {
        instance: RuntimeComponentInstanceIndex,
        ty: TypeStreamTableIndex,
        async_: bool,
    },
    /// Drops the end of a stream that reads.
    StreamDropReadable {
        instance: RuntimeComponentInstanceIndex,
        ty: TypeStreamTableIndex,
    },
    /// Drops the end of a stream that writes.
    StreamDropWritable {
        instance: RuntimeComponentInstanceIndex,
        ty: TypeStreamTableIndex,
    },
    /// Makes a future.
    FutureNew {
        instance: RuntimeComponentInstanceIndex,
        ty: TypeFutureTableIndex,
    },
    /// Reads from a future.
    FutureRead {
        instance: RuntimeComponentInstanceIndex,
        ty: TypeFutureTableIndex,
        options: O,
    },
    /// Writes to a future.
    FutureWrite {
        instance: RuntimeComponentInstanceIndex,
        ty: TypeFutureTableIndex,
        options: O,
    },
    /// Cancels a read from a future.
    FutureCancelRead {
        instance: RuntimeComponentInstanceIndex,
        ty: TypeFutureTableIndex,
        async_: bool,
    },
    /// Cancels a write to a future.
    FutureCancelWrite {
        instance: RuntimeComponentInstanceIndex,
        ty: TypeFutureTableIndex,
        async_: bool,
    },
    /// Drops the end of a future that reads.
    FutureDropReadable {
        instance: RuntimeComponentInstanceIndex,
        ty: TypeFutureTableIndex,
    },
    /// Drops the end of a future that writes.
    FutureDropWritable {
        instance: RuntimeComponentInstanceIndex,
        ty: TypeFutureTableIndex,
    },
    /// Makes an error context.
    ErrorContextNew {
        instance: RuntimeComponentInstanceIndex,
        ty: TypeComponentLocalErrorContextTableIndex,
        options: O,
    },
    /// The message of an error context.
    ErrorContextDebugMessage {
        instance: RuntimeComponentInstanceIndex,
        ty: TypeComponentLocalErrorContextTableIndex,
        options: O,
    },
    /// Drops an error context.
    ErrorContextDrop {
        instance: RuntimeComponentInstanceIndex,
        ty: TypeComponentLocalErrorContextTableIndex,
    },
    /// The number of the running thread.
    ThreadIndex {
        instance: RuntimeComponentInstanceIndex,
    },
    /// Makes a thread of a function in a table.
    ThreadNewIndirect {
        instance: RuntimeComponentInstanceIndex,
        start_func_ty_idx: ComponentTypeIndex,
        start_func_table_idx: T,
    },
    /// Lets a thread run at some later time.
    ThreadResumeLater {
        instance: RuntimeComponentInstanceIndex,
    },
    /// Suspends the running thread.
    ThreadSuspend {
        instance: RuntimeComponentInstanceIndex,
    },
    /// Lets other threads run.
    ThreadYield {
        instance: RuntimeComponentInstanceIndex,
    },
    /// Suspends the running thread for another, which was suspended.
    ThreadSuspendThenResume {
        instance: RuntimeComponentInstanceIndex,
    },
    /// Yields to another thread, which was suspended.
    ThreadYieldThenResume {
        instance: RuntimeComponentInstanceIndex,
    },
    /// Suspends the running thread for another, which was ready.
    ThreadSuspendThenPromote {
        instance: RuntimeComponentInstanceIndex,
    },
    /// Yields to another thread, which was ready.
    ThreadYieldThenPromote {
        instance: RuntimeComponentInstanceIndex,
    },
    /// Copies a string from one memory into another, and changes its encoding.
    Transcoder {
        op: Transcode,
        from: M,
        from64: bool,
        to: M,
        to64: bool,
    },
    /// Moves an owned handle to another component instance.
    ResourceTransferOwn,
    /// Lends a handle to another component instance.
    ResourceTransferBorrow,
    /// Prepares a call between two component instances of which one is async.
    PrepareCall {
        memory: Option<M>,
    },
    /// Starts a call that was prepared.
    StartCall {
        callback: Option<C>,
        post_return: Option<P>,
    },
    /// Moves a future to another component instance.
    FutureTransfer,
    /// Moves a stream to another component instance.
    StreamTransfer,
    /// Moves an error context to another component instance.
    ErrorContextTransfer,
    /// Traps.
    Trap(Trap),
    /// Begins a call of a sync function.
    EnterSyncCall,
    /// Ends such a call.
    ExitSyncCall,
}

impl<L: Copy, O: Copy, M: Copy, T: Copy, C: Copy, P: Copy> Clone for Trampoline<L, O, M, T, C, P> {
    ghost is_clone = { λ x y. y ≡ x };

    ghost is_infallible = { λ _. ⊤ };

    fn clone(&self) -> Result<Trampoline<L, O, M, T, C, P>, AllocError> {
        Ok(*self)
    }
}

impl<L: Copy, O: Copy, M: Copy, T: Copy, C: Copy, P: Copy> Copy for Trampoline<L, O, M, T, C, P> {}

impl<L: Copy, O: Copy, M: Copy, T: Copy, C: Copy, P: Copy> TryClone
    for Trampoline<L, O, M, T, C, P> {
    fn try_clone(&self, _alloc: Global) -> Result<Trampoline<L, O, M, T, C, P>, NoMemory> {
        Ok(*self)
    }
}
