//! How many bytes a pointer takes on the machine that runs a plan.

ghost use Rattle.std.specs.Prelude.{◌≡◌, ◌⊎◌, ℕ};
ghost use Rattle.pc_offsets.specs.PtrWidth.{bytes_of, four_or_eight_of};

/// What knows the size of a pointer.
pub trait PtrSize: Copy {
    // The bytes that a pointer takes.
    ghost bytes: { Self → ℕ };

    /// How many bytes a pointer takes.
    fn size(&self) -> u8
        ensures { result ≡ bytes self.now };

    // They are four or eight.
    ghost four_or_eight: { (width : Self) → (bytes width ≡ 4) ⊎ (bytes width ≡ 8) };
}

/// The two sizes that a pointer may have.
#[derive(Clone, Copy, Debug, PartialEq, Eq)]
pub enum PtrWidth {
    /// Four bytes.
    Four,
    /// Eight bytes.
    Eight,
}

impl PtrSize for PtrWidth {
    ghost bytes = { bytes_of };

    ghost four_or_eight = { four_or_eight_of };

    fn size(&self) -> u8 {
        match self {
            PtrWidth::Four => 4,
            PtrWidth::Eight => 8,
        }
    }
}
