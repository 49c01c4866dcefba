//! Why an entry has no number.

use pc_entity::NoMemory;

/// Why an entry couldn't be added to a list of a graph.
#[derive(Clone, Copy, Debug, PartialEq, Eq)]
pub enum PushError {
    /// The list has 4294967295 entries, which is the most that it may have.
    TooMany,
    /// Memory ran out.
    NoMemory,
}

impl From<NoMemory> for PushError {
    ghost use Rattle.std.specs.Prelude.{◌≡◌};
    ghost use Rattle.pc_dfg.specs.declared.push_error.PushError.TheVariants as refusal;

    ghost from_gives = { λ _ e. e ≡ refusal.NoMemory };

    fn from(_refused: NoMemory) -> PushError {
        PushError::NoMemory
    }
}
