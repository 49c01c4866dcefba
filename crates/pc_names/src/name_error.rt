//! Why a name was not inserted.

ghost use Rattle.std.specs.Prelude.{◌≡◌};

use pc_entity::NoMemory;
use std::{error, fmt};

/// Why a name was not inserted.
#[derive(Clone, Copy, Debug, PartialEq, Eq)]
pub enum NameError {
    /// The map has the name, and may not put another item in its place.
    DefinedTwice,
    /// A growth found no memory.
    NoMemory,
}

impl From<NoMemory> for NameError {
    ghost use Rattle.pc_names.specs.declared.name_error.NameError.TheVariants as name_error;

    ghost from_gives = { λ _ e. e ≡ name_error.NoMemory };

    fn from(_refused: NoMemory) -> NameError {
        NameError::NoMemory
    }
}

impl fmt::Display for NameError {
    ghost use Rattle.std.specs.Prelude.{Some};
    ghost use Rattle.pc_names.specs.NameError.{message_of};

    ghost output = { λ e. Some (message_of e) };

    fn fmt<W: fmt::Write>(&self, f: &mut fmt::Formatter<W>) -> fmt::Result {
        f.write_str(match self {
            NameError::DefinedTwice => "the name is defined twice",
            NameError::NoMemory => "out of memory",
        })
    }
}

impl error::Error for NameError {}
