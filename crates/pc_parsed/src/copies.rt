//! Copies of what payloads hold. Each is its source again.

use crate::canon::{CanonItem, CanonOption};
use crate::payload::{ExternName, ItemKind};
use pc_entity::{NoMemory, TryClone};
use std::alloc::Global;

impl TryClone for ExternName {
    fn try_clone(&self, alloc: Global) -> Result<ExternName, NoMemory> {
        Ok(ExternName {
            name: self.name.try_clone(alloc)?,
            implements: self.implements.try_clone(alloc)?,
            external_id: self.external_id.try_clone(alloc)?,
        })
    }
}

impl TryClone for ItemKind {
    fn try_clone(&self, _alloc: Global) -> Result<ItemKind, NoMemory> {
        Ok(*self)
    }
}

impl TryClone for CanonOption {
    fn try_clone(&self, _alloc: Global) -> Result<CanonOption, NoMemory> {
        Ok(*self)
    }
}

impl TryClone for CanonItem {
    fn try_clone(&self, alloc: Global) -> Result<CanonItem, NoMemory> {
        Ok(match self {
            CanonItem::Lift(a, b, c, d) => CanonItem::Lift(*a, *b, *c, d.try_clone(alloc)?),
            CanonItem::Lower(a, b, c, d) => CanonItem::Lower(*a, *b, *c, d.try_clone(alloc)?),
            CanonItem::ResourceNew(a, b) => CanonItem::ResourceNew(*a, *b),
            CanonItem::ResourceRep(a, b) => CanonItem::ResourceRep(*a, *b),
            CanonItem::ResourceDrop(a, b) => CanonItem::ResourceDrop(*a, *b),
            CanonItem::BackpressureInc(a) => CanonItem::BackpressureInc(*a),
            CanonItem::BackpressureDec(a) => CanonItem::BackpressureDec(*a),
            CanonItem::TaskCancel(a) => CanonItem::TaskCancel(*a),
            CanonItem::WaitableSetNew(a) => CanonItem::WaitableSetNew(*a),
            CanonItem::WaitableSetDrop(a) => CanonItem::WaitableSetDrop(*a),
            CanonItem::WaitableJoin(a) => CanonItem::WaitableJoin(*a),
            CanonItem::SubtaskDrop(a) => CanonItem::SubtaskDrop(*a),
            CanonItem::ErrorContextDrop(a) => CanonItem::ErrorContextDrop(*a),
            CanonItem::ThreadIndex(a) => CanonItem::ThreadIndex(*a),
            CanonItem::ThreadResumeLater(a) => CanonItem::ThreadResumeLater(*a),
            CanonItem::ThreadSuspend(a) => CanonItem::ThreadSuspend(*a),
            CanonItem::ThreadYield(a) => CanonItem::ThreadYield(*a),
            CanonItem::ThreadSuspendThenResume(a) => CanonItem::ThreadSuspendThenResume(*a),
            CanonItem::ThreadYieldThenResume(a) => CanonItem::ThreadYieldThenResume(*a),
            CanonItem::ThreadSuspendThenPromote(a) => CanonItem::ThreadSuspendThenPromote(*a),
            CanonItem::ThreadYieldThenPromote(a) => CanonItem::ThreadYieldThenPromote(*a),
            CanonItem::TaskReturn(a, b, c) => CanonItem::TaskReturn(*a, *b, c.try_clone(alloc)?),
            CanonItem::WaitableSetWait(a, b) => CanonItem::WaitableSetWait(*a, *b),
            CanonItem::WaitableSetPoll(a, b) => CanonItem::WaitableSetPoll(*a, *b),
            CanonItem::SubtaskCancel(a, b) => CanonItem::SubtaskCancel(*a, *b),
            CanonItem::StreamNew(a, b) => CanonItem::StreamNew(*a, *b),
            CanonItem::StreamDropReadable(a, b) => CanonItem::StreamDropReadable(*a, *b),
            CanonItem::StreamDropWritable(a, b) => CanonItem::StreamDropWritable(*a, *b),
            CanonItem::FutureNew(a, b) => CanonItem::FutureNew(*a, *b),
            CanonItem::FutureDropReadable(a, b) => CanonItem::FutureDropReadable(*a, *b),
            CanonItem::FutureDropWritable(a, b) => CanonItem::FutureDropWritable(*a, *b),
            CanonItem::StreamRead(a, b, c) => CanonItem::StreamRead(*a, *b, c.try_clone(alloc)?),
            CanonItem::StreamWrite(a, b, c) => CanonItem::StreamWrite(*a, *b, c.try_clone(alloc)?),
            CanonItem::FutureRead(a, b, c) => CanonItem::FutureRead(*a, *b, c.try_clone(alloc)?),
            CanonItem::FutureWrite(a, b, c) => CanonItem::FutureWrite(*a, *b, c.try_clone(alloc)?),
            CanonItem::StreamCancelRead(a, b, c) => CanonItem::StreamCancelRead(*a, *b, *c),
            CanonItem::StreamCancelWrite(a, b, c) => CanonItem::StreamCancelWrite(*a, *b, *c),
            CanonItem::FutureCancelRead(a, b, c) => CanonItem::FutureCancelRead(*a, *b, *c),
            CanonItem::FutureCancelWrite(a, b, c) => CanonItem::FutureCancelWrite(*a, *b, *c),
            CanonItem::ErrorContextNew(a, b) => CanonItem::ErrorContextNew(*a, b.try_clone(alloc)?),
            CanonItem::ErrorContextDebugMessage(a, b) => CanonItem::ErrorContextDebugMessage(
                *a,
                b.try_clone(alloc)?,
            ),
            CanonItem::ContextGet(a, b, c) => CanonItem::ContextGet(*a, *b, *c),
            CanonItem::ContextSet(a, b, c) => CanonItem::ContextSet(*a, *b, *c),
            CanonItem::ThreadNewIndirect(a, b, c) => CanonItem::ThreadNewIndirect(*a, *b, *c),
            CanonItem::ThreadSpawnRef => CanonItem::ThreadSpawnRef,
            CanonItem::ThreadSpawnIndirect => CanonItem::ThreadSpawnIndirect,
            CanonItem::ThreadAvailableParallelism => CanonItem::ThreadAvailableParallelism,
            CanonItem::StreamForward => CanonItem::StreamForward,
            CanonItem::FutureForward => CanonItem::FutureForward,
        })
    }
}
