//! How often a core module is instantiated, and with what.

use pc_info::CoreDef;

/// What is known of the instantiations of a core module. `Many` is the answer of which nothing follows.
#[derive(Clone, Copy, Default)]
pub enum AbstractInstantiations<'a> {
    /// It may be instantiated in several ways.
    Many,
    /// It is instantiated with these arguments alone.
    One(&'a [CoreDef]),
    /// It is never instantiated.
    #[default]
    None,
}

impl<'a> AbstractInstantiations<'a> {
    ghost use Rattle.std.specs.Prelude.{◌≡◌};
    ghost use Rattle.pc_dfg.specs.Instantiations.{joined, known_of};

    /// Adds what is known from another place. This is the least upper bound, where `None` lies below each list of
    /// arguments and `Many` above.
    pub fn join(&mut self, other: Self)
        ensures { known_of self.new ≡ joined (known_of self.old) (known_of other.entry) }
    {
        *self = match (*self, other) {
            (Self::Many, _) | (_, Self::Many) => Self::Many,
            (Self::One(a), Self::One(b)) => { if a == b { Self::One(a) } else { Self::Many } }
            (known, Self::None) | (Self::None, known) => known,
        };
    }
}
