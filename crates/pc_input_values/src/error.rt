//! Why bytes were refused.

ghost use Rattle.std.specs.Prelude.{◌≡◌};

use pc_entity::NoMemory;
use thiserror::Error;

/// Why bytes are no input.
#[derive(Clone, Copy, Debug, PartialEq, Eq, Error)]
pub enum DecodeError {
    /// The bytes aren't JSON, or no text at all.
    #[error("not JSON")]
    NotJson,
    /// The bytes are JSON, and have another shape than an input.
    #[error("not of the input form")]
    BadForm,
    /// There was no memory for the tree or the input.
    #[error("out of memory")]
    NoMemory,
}

impl From<NoMemory> for DecodeError {
    ghost use Rattle.pc_input_values.specs.declared.error.DecodeError.TheVariants as error;

    ghost from_gives = { λ _ e. e ≡ error.NoMemory };

    fn from(_refused: NoMemory) -> DecodeError {
        DecodeError::NoMemory
    }
}
