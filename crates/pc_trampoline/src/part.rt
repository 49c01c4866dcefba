//! What trampolines are made of.

use crate::{Transcode, Trap};
use pc_entity::{ModuleInternedTypeIndex, RuntimeComponentInstanceIndex};
use pc_types::{TrampolineKind, TypeDef, TypeFuncIndex};

/// What stands in a graph or a plan where a type or a core signature does.
#[derive(Clone, Copy, PartialEq, Eq, Hash)]
pub enum Mark {
    /// A type.
    Type_(TypeDef),
    /// A core signature.
    Signature(ModuleInternedTypeIndex),
}

/// A part of a builtin or helper: a type, a number, a flag, a slot or an options entry.
#[derive(Clone, Copy, PartialEq, Eq, Hash)]
pub enum Part<O, M, T, C, P> {
    /// A type.
    Type_(TypeDef),
    /// A number that nothing is looked up by.
    Number(u32),
    /// Whether it is async.
    Flag(bool),
    /// A memory.
    Memory(M),
    /// A memory, if there is one.
    MaybeMemory(Option<M>),
    /// A table.
    Table(T),
    /// A callback, if there is one.
    Callback(Option<C>),
    /// A post-return function, if there is one.
    PostReturn(Option<P>),
    /// An options entry.
    Options(O),
}

/// None, one or two parts, in order.
#[derive(Clone, Copy, PartialEq, Eq, Hash)]
pub enum PartList<A> {
    /// No part.
    Empty,
    /// One part.
    One(A),
    /// Two parts.
    Two(A, A),
}

/// What stands before the parts of a trampoline.
#[derive(Clone, Copy, PartialEq, Eq, Hash)]
pub enum Head<L, O> {
    /// Of a lowering: what is lowered, with its type and its options.
    Lowering(L, TypeFuncIndex, O),
    /// Of a builtin: the component instance that it is declared in.
    Builtin(RuntimeComponentInstanceIndex),
    /// Of a helper: nothing.
    Helper,
    /// Of a transcoder: what it does, and whether the addresses of either memory have 64 bits.
    Transcoding(Transcode, bool, bool),
    /// Of a trap: its code.
    Trapping(Trap),
}

/// A trampoline taken apart.
#[derive(Clone, Copy, PartialEq, Eq, Hash)]
pub struct Parts<L, O, M, T, C, P> {
    /// What it does.
    pub kind: TrampolineKind,
    /// What stands before its parts.
    pub head: Head<L, O>,
    /// Its parts.
    pub parts: PartList<Part<O, M, T, C, P>>,
}
