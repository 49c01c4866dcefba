//! Trampolines taken apart. What asks for all kinds goes by the parts, so this is the one place that looks at each;
//! `put_together` has the way back.

ghost use Rattle.std.specs.Prelude.{◌≡◌, slice_get};
ghost use Rattle.pc_trampoline.specs.Parts.{error_context_part, future_part, list_of, parts_of, resource_part};
ghost use Rattle.pc_trampoline.specs.Parts.{stream_part, tuple_part};
ghost use Rattle.pc_trampoline.specs.Shape.{IsShaped};

use crate::{Head, Part, PartList, Parts, Trampoline};
use pc_types::{
    InterfaceType, TrampolineKind as Kind, TypeComponentLocalErrorContextTableIndex, TypeDef,
    TypeFutureTableIndex, TypeResourceTableIndex, TypeStreamTableIndex, TypeTupleIndex,
};

/// A tuple type as a part.
fn tuple<O, M, T, C, P>(ty: TypeTupleIndex) -> Part<O, M, T, C, P>
    ensures { result ≡ tuple_part ty }
{
    Part::Type_(TypeDef::Interface(InterfaceType::Tuple(ty)))
}

/// A resource as a part.
fn resource<O, M, T, C, P>(ty: TypeResourceTableIndex) -> Part<O, M, T, C, P>
    ensures { result ≡ resource_part ty }
{
    Part::Type_(TypeDef::Resource(ty))
}

/// A stream type as a part.
fn stream<O, M, T, C, P>(ty: TypeStreamTableIndex) -> Part<O, M, T, C, P>
    ensures { result ≡ stream_part ty }
{
    Part::Type_(TypeDef::Interface(InterfaceType::Stream(ty)))
}

/// A future type as a part.
fn future<O, M, T, C, P>(ty: TypeFutureTableIndex) -> Part<O, M, T, C, P>
    ensures { result ≡ future_part ty }
{
    Part::Type_(TypeDef::Interface(InterfaceType::Future(ty)))
}

/// The error contexts of a component instance as a part.
fn error_context<O, M, T, C, P>(ty: TypeComponentLocalErrorContextTableIndex) -> Part<O, M, T, C, P>
    ensures { result ≡ error_context_part ty }
{
    Part::Type_(TypeDef::Interface(InterfaceType::ErrorContext(ty)))
}

/// The kind of a trampoline, by the variant of the same name.
macro_rules! same_name {
    ($trampoline:expr; $($kind:ident)*) => {
        match $trampoline {
            $(Trampoline::$kind { .. } => Kind::$kind,)*
        }
    };
}

/// A trampoline of one of these kinds, which all have this field.
macro_rules! with {
    ($field:ident; $($kind:ident)*) => { $(Trampoline::$kind { $field, .. })|* };
}

/// A trampoline of one of these kinds.
macro_rules! any_of {
    ($($kind:ident)*) => { $(Trampoline::$kind { .. })|* };
}

impl<L: Copy, O: Copy, M: Copy, T: Copy, C: Copy, P: Copy> Trampoline<L, O, M, T, C, P> {
    /// Its kind.
    #[tactic(auto, unfolding(crate::specs::Parts::parts_of))]
    fn kind(&self) -> Kind
        ensures { result ≡ (parts_of self.now).kind }
    {
        same_name!(self;
            LowerImport
            ResourceNew ResourceRep ResourceDrop
            BackpressureInc BackpressureDec TaskReturn TaskCancel
            WaitableSetNew WaitableSetWait WaitableSetPoll WaitableSetDrop WaitableJoin
            SubtaskDrop SubtaskCancel
            StreamNew StreamRead StreamWrite StreamCancelRead
            StreamCancelWrite StreamDropReadable StreamDropWritable
            FutureNew FutureRead FutureWrite FutureCancelRead
            FutureCancelWrite FutureDropReadable FutureDropWritable
            ErrorContextNew ErrorContextDebugMessage ErrorContextDrop
            ThreadIndex ThreadNewIndirect ThreadResumeLater ThreadSuspend ThreadYield
            ThreadSuspendThenResume ThreadYieldThenResume
            ThreadSuspendThenPromote ThreadYieldThenPromote
            Transcoder
            ResourceTransferOwn ResourceTransferBorrow PrepareCall StartCall
            FutureTransfer StreamTransfer ErrorContextTransfer
            Trap EnterSyncCall ExitSyncCall
        )
    }

    /// What stands before its parts.
    #[tactic(auto, unfolding(crate::specs::Parts::parts_of))]
    fn head(&self) -> Head<L, O>
        ensures { result ≡ (parts_of self.now).head }
    {
        match self {
            Trampoline::LowerImport {
                index,
                lower_ty,
                options,
            } => Head::Lowering(*index, *lower_ty, *options),
            with!(instance;
                ResourceNew ResourceRep ResourceDrop
                BackpressureInc BackpressureDec TaskReturn TaskCancel
                WaitableSetNew WaitableSetWait WaitableSetPoll WaitableSetDrop WaitableJoin
                SubtaskDrop SubtaskCancel
                StreamNew StreamRead StreamWrite StreamCancelRead
                StreamCancelWrite StreamDropReadable StreamDropWritable
                FutureNew FutureRead FutureWrite FutureCancelRead
                FutureCancelWrite FutureDropReadable FutureDropWritable
                ErrorContextNew ErrorContextDebugMessage ErrorContextDrop
                ThreadIndex ThreadNewIndirect ThreadResumeLater ThreadSuspend ThreadYield
                ThreadSuspendThenResume ThreadYieldThenResume
                ThreadSuspendThenPromote ThreadYieldThenPromote
            ) => Head::Builtin(*instance),
            Trampoline::Transcoder {
                op,
                from64,
                to64,
                ..
            } => Head::Transcoding(*op, *from64, *to64),
            Trampoline::Trap(code) => Head::Trapping(*code),
            any_of!(
                ResourceTransferOwn ResourceTransferBorrow PrepareCall StartCall
                FutureTransfer StreamTransfer ErrorContextTransfer
                EnterSyncCall ExitSyncCall
            ) => Head::Helper,
        }
    }

    /// Its first part, if it has one.
    #[tactic(auto, unfolding(crate::specs::Parts::parts_of))]
    fn first(&self) -> Option<Part<O, M, T, C, P>>
        ensures { result ≡ slice_get (list_of (parts_of self.now).parts) 0 }
    {
        match self {
            with!(ty; ResourceNew ResourceRep ResourceDrop) => Some(resource(*ty)),
            Trampoline::TaskReturn { results, .. } => Some(tuple(*results)),
            with!(options; WaitableSetWait WaitableSetPoll) => Some(Part::Options(*options)),
            Trampoline::SubtaskCancel { async_, .. } => Some(Part::Flag(*async_)),
            with!(ty;
                StreamNew StreamRead StreamWrite StreamCancelRead
                StreamCancelWrite StreamDropReadable StreamDropWritable
            ) => Some(stream(*ty)),
            with!(ty;
                FutureNew FutureRead FutureWrite FutureCancelRead
                FutureCancelWrite FutureDropReadable FutureDropWritable
            ) => Some(future(*ty)),
            with!(ty;
                ErrorContextNew ErrorContextDebugMessage ErrorContextDrop
            ) => Some(error_context(*ty)),
            Trampoline::ThreadNewIndirect {
                start_func_ty_idx: ty,
                ..
            } => Some(Part::Number(ty.0)),
            Trampoline::Transcoder { from, .. } => Some(Part::Memory(*from)),
            Trampoline::PrepareCall { memory } => Some(Part::MaybeMemory(*memory)),
            Trampoline::StartCall { callback, .. } => Some(Part::Callback(*callback)),
            any_of!(
                LowerImport BackpressureInc BackpressureDec TaskCancel
                WaitableSetNew WaitableSetDrop WaitableJoin SubtaskDrop
                ThreadIndex ThreadResumeLater ThreadSuspend ThreadYield
                ThreadSuspendThenResume ThreadYieldThenResume
                ThreadSuspendThenPromote ThreadYieldThenPromote
                ResourceTransferOwn ResourceTransferBorrow
                FutureTransfer StreamTransfer ErrorContextTransfer
                Trap EnterSyncCall ExitSyncCall
            ) => None,
        }
    }

    /// Its second part, if it has one.
    #[tactic(auto, unfolding(crate::specs::Parts::parts_of))]
    fn second(&self) -> Option<Part<O, M, T, C, P>>
        ensures { result ≡ slice_get (list_of (parts_of self.now).parts) 1 }
    {
        match self {
            with!(options;
                TaskReturn StreamRead StreamWrite FutureRead FutureWrite
                ErrorContextNew ErrorContextDebugMessage
            ) => Some(Part::Options(*options)),
            with!(async_;
                StreamCancelRead StreamCancelWrite FutureCancelRead FutureCancelWrite
            ) => Some(Part::Flag(*async_)),
            Trampoline::ThreadNewIndirect {
                start_func_table_idx: table,
                ..
            } => Some(Part::Table(*table)),
            Trampoline::Transcoder { to, .. } => Some(Part::Memory(*to)),
            Trampoline::StartCall { post_return, .. } => Some(Part::PostReturn(*post_return)),
            any_of!(
                LowerImport ResourceNew ResourceRep ResourceDrop
                BackpressureInc BackpressureDec TaskCancel
                WaitableSetNew WaitableSetWait WaitableSetPoll WaitableSetDrop WaitableJoin
                SubtaskDrop SubtaskCancel StreamNew
                StreamDropReadable StreamDropWritable FutureNew
                FutureDropReadable FutureDropWritable ErrorContextDrop
                ThreadIndex ThreadResumeLater ThreadSuspend ThreadYield
                ThreadSuspendThenResume ThreadYieldThenResume
                ThreadSuspendThenPromote ThreadYieldThenPromote
                ResourceTransferOwn ResourceTransferBorrow PrepareCall
                FutureTransfer StreamTransfer ErrorContextTransfer
                Trap EnterSyncCall ExitSyncCall
            ) => None,
        }
    }

    /// Its parts.
    #[tactic(auto, using(crate::proofs::ListLemmas::list_again))]
    fn list(&self) -> PartList<Part<O, M, T, C, P>>
        ensures { result ≡ (parts_of self.now).parts }
    {
        match (self.first(), self.second()) {
            (Some(first), Some(second)) => PartList::Two(first, second),
            (Some(part), None) => PartList::One(part),
            (None, _) => PartList::Empty,
        }
    }

    /// What it is made of.
    #[tactic(auto, using(crate::proofs::ShapeLemmas::made_shaped))]
    pub fn parts(&self) -> Parts<L, O, M, T, C, P>
        ensures parts { result ≡ parts_of self.now }
        ensures shaped { IsShaped result }
    {
        Parts {
            kind: self.kind(),
            head: self.head(),
            parts: self.list(),
        }
    }
}
