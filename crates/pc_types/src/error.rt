//! Why a translation was refused, and where.

ghost use Rattle.std.specs.Prelude.{◌≡◌};

use pc_entity::NoMemory;
use std::fmt;
use thiserror::Error;

/// Where a refusal arose.
#[derive(Clone, Copy, Debug, PartialEq, Eq)]
pub enum Place {
    /// An entry of the type table, by number.
    Table(u32),
    /// A payload, and an item within it: 0 where the payload is no list of items.
    Payload { payload: u64, item: u64 },
    /// An item of the body that a component instance reads, both numbered from 0.
    Reading { instance: u32, item: u64 },
    /// An export of the root component, by number.
    Export(u64),
    /// An adapter, by number.
    Adapter(u32),
}

impl fmt::Display for Place {
    fn fmt<W: fmt::Write>(&self, f: &mut fmt::Formatter<W>) -> fmt::Result {
        match self {
            Place::Table(n) => put(f, "table entry", *n as u64),
            Place::Payload { payload, item } => put_item(f, "payload", *payload, *item),
            Place::Reading { instance, item } => {
                put_item(f, "component instance", *instance as u64, *item)
            }
            Place::Export(n) => put(f, "export", *n),
            Place::Adapter(n) => put(f, "adapter", *n as u64),
        }
    }
}

/// A thing by its number.
fn put<W: fmt::Write>(f: &mut fmt::Formatter<W>, what: &str, number: u64) -> fmt::Result {
    write!(f, "{what} {number}")
}

/// An item of a thing, both by number.
fn put_item<W: fmt::Write>(
    f: &mut fmt::Formatter<W>,
    what: &str,
    number: u64,
    item: u64,
) -> fmt::Result {
    write!(f, "{what} {number}, item {item}")
}

/// What a translation doesn't support.
#[derive(Clone, Copy, Debug, PartialEq, Eq, Error)]
pub enum Unsupported {
    #[error("a core module in place of a component")]
    Module,
    #[error("starting threads")]
    ThreadSpawn,
    #[error("getting a context slot that isn't an i32")]
    ContextGetType,
    #[error("setting a context slot that isn't an i32")]
    ContextSetType,
    #[error("forwarding a stream")]
    StreamForward,
    #[error("forwarding a future")]
    FutureForward,
    #[error("a start function of a component")]
    StartSection,
    #[error("component values")]
    ComponentValue,
    #[error("a component imported at the root")]
    ComponentImport,
    #[error("an unsafe intrinsic as an export of the root")]
    ReexportedIntrinsic,
    #[error("the unsafe intrinsics as an export of the root")]
    ReexportedIntrinsics,
    #[error("a component as an export of the root")]
    ExportedComponent,
}

/// Why there is no plan. Each variant but the last three says where.
#[derive(Clone, Copy, Debug, PartialEq, Eq, Error)]
pub enum Error {
    /// The payloads are no well-formed component body.
    #[error("malformed payloads at {0}")]
    Malformed(Place),
    /// A type table entry or a module record is inconsistent.
    #[error("inconsistent types at {0}")]
    BadTable(Place),
    /// What stands there isn't supported.
    #[error("unsupported at {1}: {0}")]
    Unsupported(Unsupported, Place),
    /// The import of the unsafe intrinsics doesn't declare what they are.
    #[error("the unsafe intrinsics are declared wrongly at {0}")]
    BadIntrinsics(Place),
    /// A name is none of the unsafe intrinsics.
    #[error("no unsafe intrinsic of this name at {0}")]
    UnknownIntrinsic(Place),
    /// A list of names has one of them more than once.
    #[error("a name is defined twice at {0}")]
    DefinedTwice(Place),
    /// An index, a name or a kind fits nothing.
    #[error("an index, name or kind that fits nothing at {0}")]
    Invalid(Place),
    /// No type of the kind that is wanted has this number, or nothing tells which resource it is.
    #[error("a type of another kind at {0}")]
    BadType(Place),
    /// An adapter lacks a memory or a realloc that its types need.
    #[error("options are missing at {0}")]
    BadOptions(Place),
    /// More component instances begin than the limit allows.
    #[error("too many component instances")]
    TooManyInstances,
    /// A numbered list would outgrow its numbers.
    #[error("too many entries")]
    TooMany,
    /// Memory ran out.
    #[error("out of memory")]
    NoMemory,
}

/// Why a type has no number.
#[derive(Clone, Copy, Debug, PartialEq, Eq, Error)]
pub enum TypeError {
    /// The number is missing, is that of another kind, or isn't known.
    #[error("a type number that fits nothing")]
    BadNumber,
    /// A list would outgrow its numbers.
    #[error("too many types")]
    TooMany,
    /// Memory ran out.
    #[error("out of memory")]
    NoMemory,
}

impl From<NoMemory> for TypeError {
    ghost use Rattle.std.specs.Prelude.{◌≡◌};
    ghost use Rattle.pc_types.specs.declared.error.TypeError.TheVariants as refusal;

    ghost from_gives = { λ _ e. e ≡ refusal.NoMemory };

    fn from(_refused: NoMemory) -> TypeError {
        TypeError::NoMemory
    }
}

impl From<NoMemory> for Error {
    ghost use Rattle.std.specs.Prelude.{◌≡◌};
    ghost use Rattle.pc_types.specs.declared.error.Error.TheVariants as error;

    ghost from_gives = { λ _ e. e ≡ error.NoMemory };

    fn from(_refused: NoMemory) -> Error {
        Error::NoMemory
    }
}
