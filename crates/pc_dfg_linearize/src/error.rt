//! Why a graph has no plan.

use pc_entity::NoMemory;

/// Why a plan isn't made.
#[derive(Clone, Copy, PartialEq, Eq, Debug)]
pub enum FinishError {
    /// A numbered list of the plan would have 4294967295 entries.
    TooMany,
    /// Memory ran out.
    NoMemory,
}

impl From<NoMemory> for FinishError {
    ghost use Rattle.std.specs.Prelude.{◌≡◌};
    ghost use Rattle.pc_dfg_linearize.specs.declared.error.FinishError.TheVariants as refusal;

    ghost from_gives = { λ _ e. e ≡ refusal.NoMemory };

    fn from(_refused: NoMemory) -> FinishError {
        FinishError::NoMemory
    }
}
