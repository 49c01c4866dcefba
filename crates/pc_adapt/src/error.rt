//! Why adapters have no modules.

use pc_dfg::{AdapterId, PushError};
use pc_entity::NoMemory;

/// Why the modules of adapters couldn't be made.
#[derive(Clone, Copy, PartialEq, Eq)]
pub enum AdaptError {
    /// This adapter is the first that lacks an option which its types ask for.
    BadOptions(AdapterId),
    /// A list would have 4294967295 entries, which is one more than it may have.
    TooMany,
    /// Memory ran out.
    NoMemory,
}

impl From<NoMemory> for AdaptError {
    ghost use Rattle.std.specs.Prelude.{◌≡◌};
    ghost use Rattle.pc_adapt.specs.declared.error.AdaptError.TheVariants as refusal;

    ghost from_gives = { λ _ e. e ≡ refusal.NoMemory };

    fn from(_refused: NoMemory) -> AdaptError {
        AdaptError::NoMemory
    }
}

impl From<PushError> for AdaptError {
    ghost use Rattle.std.specs.Prelude.{◌≡◌};
    ghost use Rattle.pc_adapt.specs.Refused.{of_push_error};

    ghost from_gives = { λ refused e. e ≡ of_push_error refused };

    fn from(refused: PushError) -> AdaptError {
        match refused {
            PushError::TooMany => AdaptError::TooMany,
            PushError::NoMemory => AdaptError::NoMemory,
        }
    }
}
