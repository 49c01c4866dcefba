//! What is wrong with a payload, whatever it would do.

ghost use Rattle.std.specs.Prelude.{◌≡◌};
ghost use Rattle.pc_types.specs.declared.error.Place.TheVariants as place;
ghost use Rattle.pc_parsed.specs.StaticFault.{fault_error};

use pc_types::{Error, Place, Unsupported};

/// What is wrong with a payload or an item of it, whatever the list would do.
#[derive(Clone, Copy, Debug, PartialEq, Eq)]
pub enum StaticFault {
    /// The payload stands where it may not, or an outer alias leads past the root.
    Malformed,
    /// What stands there isn't supported.
    Unsupported(Unsupported),
    /// A module record is inconsistent.
    BadTable,
    /// A list of names has one of them more than once.
    DefinedTwice,
    /// The import of the unsafe intrinsics doesn't declare what they are.
    BadIntrinsics,
    /// The import of the unsafe intrinsics declares one that doesn't exist.
    UnknownIntrinsic,
}

impl StaticFault {
    /// The error of this fault at an item of a payload.
    pub(crate) fn at(self, payload: usize, item: usize) -> Error
        ensures { result ≡ fault_error self (place.Payload payload item) }
    {
        let place = Place::Payload {
            payload: payload as u64,
            item: item as u64,
        };
        match self {
            StaticFault::Malformed => Error::Malformed(place),
            StaticFault::Unsupported(what) => Error::Unsupported(what, place),
            StaticFault::BadTable => Error::BadTable(place),
            StaticFault::DefinedTwice => Error::DefinedTwice(place),
            StaticFault::BadIntrinsics => Error::BadIntrinsics(place),
            StaticFault::UnknownIntrinsic => Error::UnknownIntrinsic(place),
        }
    }
}
