//! Why a type that could be converted has no number.

use pc_entity::NoMemory;
use pc_types::TypeError;

/// What can go wrong where a type is put into its list. A step of a conversion whose numbers were found to fit answers
/// it too, and so doesn't have to say that it never answers `BadNumber`.
#[derive(Clone, Copy)]
pub enum NoPlace {
    /// A list would outgrow its numbers.
    TooMany,
    /// Memory ran out.
    NoMemory,
}

impl From<NoMemory> for NoPlace {
    ghost use Rattle.std.specs.Prelude.{◌≡◌};
    ghost use Rattle.pc_types_lists.specs.declared.no_place.NoPlace.TheVariants as refusal;

    ghost from_gives = { λ _ e. e ≡ refusal.NoMemory };

    fn from(_refused: NoMemory) -> NoPlace {
        NoPlace::NoMemory
    }
}

impl From<NoPlace> for TypeError {
    ghost use Rattle.std.specs.Prelude.{◌≡◌};
    ghost use Rattle.pc_types_lists.specs.Refusal.{type_error};

    ghost from_gives = { λ refused e. e ≡ type_error refused };

    fn from(refused: NoPlace) -> TypeError {
        match refused {
            NoPlace::TooMany => TypeError::TooMany,
            NoPlace::NoMemory => TypeError::NoMemory,
        }
    }
}
