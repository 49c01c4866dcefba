//! Why a path has no id.

use pc_entity::NoMemory;

/// Why a path couldn't be added.
#[derive(Clone, Copy, Debug, PartialEq, Eq)]
pub enum PathError {
    /// There are 4294967295 paths, which is the most that there may be.
    TooMany,
    /// Memory ran out.
    NoMemory,
}

impl From<NoMemory> for PathError {
    ghost use Rattle.std.specs.Prelude.{◌≡◌};
    ghost use Rattle.pc_inline_paths.specs.declared.path_error.PathError.TheVariants as refusal;

    ghost from_gives = { λ _ e. e ≡ refusal.NoMemory };

    fn from(_refused: NoMemory) -> PathError {
        PathError::NoMemory
    }
}
