//! What a builtin is made of, as it is written.

use pc_entity::Seq;
use pc_parsed::CanonOption;
use pc_types::{TrampolineKind, ValType};

/// The types that stand alone in a part.
#[derive(Clone, Copy)]
pub(crate) enum Handle {
    /// A resource that is known.
    Resource,
    /// A stream type.
    Stream,
    /// A future type.
    Future,
}

/// What stands first: a type or a number, if anything does.
#[derive(Clone, Copy)]
pub(crate) enum First {
    Nothing,
    /// A type, by its number in the type table.
    Handle(Handle, u32),
    /// The tuple of no or one result.
    Results(Option<ValType>),
    /// The error contexts of the component instance.
    ErrorContexts,
    /// A number that nothing is looked up by.
    Number(u32),
}

/// What stands behind that, if anything does.
#[derive(Clone, Copy)]
pub(crate) enum Second<'a> {
    Nothing,
    /// Whether it is async.
    Flag(bool),
    /// Options, as they are written.
    Options(&'a Seq<CanonOption>),
    /// Options that say nothing but the memory at this index.
    Memory(u32),
    /// The table at this index.
    Table(u32),
}

/// A builtin, with the number of its core signature in the type table.
#[derive(Clone, Copy)]
pub(crate) struct Builtin<'a> {
    pub kind: TrampolineKind,
    pub core: u32,
    pub first: First,
    pub second: Second<'a>,
}
