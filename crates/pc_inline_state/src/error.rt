//! Why an item wasn't read.

ghost use Rattle.std.specs.Prelude.{◌≡◌};
ghost use Rattle.pc_inline_state.specs.Faults.{error_of};
ghost use Rattle.pc_inline_state.specs.declared.error.ItemError.TheVariants as item_error;

use pc_dfg::PushError;
use pc_entity::NoMemory;
use pc_types::{Error, Place, TypeError, Unsupported};

/// Why a reading is stuck at an item.
#[derive(Clone, Copy)]
pub enum ItemFault {
    /// An index, a name or a kind fits nothing.
    Invalid,
    /// A type number fits nothing.
    BadType,
    /// What stands there isn't supported.
    Unsupported(Unsupported),
    /// A name is none of the unsafe intrinsics.
    UnknownIntrinsic,
}

/// Why an item wasn't read. Its place is added where all items are read.
#[derive(Clone, Copy)]
pub enum ItemError {
    /// The reading is stuck there.
    Fault(ItemFault),
    /// A list of the graph, of the types builder or of the tables is full.
    TooMany,
    NoMemory,
}

impl From<NoMemory> for ItemError {
    ghost from_gives = { λ _ e. e ≡ item_error.NoMemory };

    fn from(_refused: NoMemory) -> ItemError {
        ItemError::NoMemory
    }
}

impl From<PushError> for ItemError {
    ghost use Rattle.pc_inline_state.specs.Faults.{of_push_error};

    ghost from_gives = { λ refused e. e ≡ of_push_error refused };

    fn from(refused: PushError) -> ItemError {
        match refused {
            PushError::TooMany => ItemError::TooMany,
            PushError::NoMemory => ItemError::NoMemory,
        }
    }
}

impl From<TypeError> for ItemError {
    ghost use Rattle.pc_inline_state.specs.Faults.{of_type_error};

    ghost from_gives = { λ refused e. e ≡ of_type_error refused };

    fn from(refused: TypeError) -> ItemError {
        match refused {
            TypeError::BadNumber => ItemError::Fault(ItemFault::BadType),
            TypeError::TooMany => ItemError::TooMany,
            TypeError::NoMemory => ItemError::NoMemory,
        }
    }
}

/// The error of an item that wasn't read, or of an export that is refused.
pub fn error_at(error: ItemError, place: Place) -> Error
    ensures { result ≡ error_of error place }
{
    match error {
        ItemError::Fault(ItemFault::Invalid) => Error::Invalid(place),
        ItemError::Fault(ItemFault::BadType) => Error::BadType(place),
        ItemError::Fault(ItemFault::Unsupported(what)) => Error::Unsupported(what, place),
        ItemError::Fault(ItemFault::UnknownIntrinsic) => Error::UnknownIntrinsic(place),
        ItemError::TooMany => Error::TooMany,
        ItemError::NoMemory => Error::NoMemory,
    }
}
