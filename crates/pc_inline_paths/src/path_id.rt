//! The ids of paths.

ghost use Rattle.std.proofs.Common.{refl, rules};

use pc_entity::EntityRef;

/// A path to a host item, by its place among those that are held.
#[derive(Clone, Copy, PartialEq, Eq, PartialOrd, Ord, Hash)]
pub struct PathId(pub u32);

impl EntityRef for PathId {
    ghost number = { λ k. k.0 };

    ghost of_number = { λ n. record { 0 = n } };

    ghost number_of_number = { λ _. refl };

    ghost of_number_number = { λ _. refl };

    ghost exact = { Prim.search rules };

    fn from_u32(n: u32) -> PathId {
        PathId(n)
    }

    fn as_u32(self) -> u32 {
        self.0
    }
}
