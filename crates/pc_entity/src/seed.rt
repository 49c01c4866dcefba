//! What the places of names and values in a map depend on, beside the names and values.

ghost use Rattle.std.specs.List.{fold};
ghost use Rattle.std.specs.Hash as fed;
ghost use Rattle.std.specs.Hash.DefaultHasher as sip;

use std::hash::{BuildHasher, DefaultHasher, Hasher};

/// The seed of the hash of a map or an interner.
///
/// Whoever writes an input may choose its names so that all of them share a hash, where the hash is known before. A seed
/// that is made of the whole input is known only once all of its names are, so a name that is changed to share a hash
/// changes the seed too. No answer depends on the seed: it decides where in its table a map looks, and so how long.
#[derive(Clone, Copy, Debug)]
pub struct Seed {
    key: u64,
}

impl Seed {
    /// The same seed for all inputs. It is for inputs that are trusted, and where no names come from outside.
    pub fn fixed() -> Seed {
        Seed { key: 0 }
    }

    /// The seed of an input, made of all its bytes.
    pub fn of_input(input: &[u8]) -> Seed {
        let mut state = DefaultHasher::new();
        state.write(input);
        Seed {
            key: state.finish(),
        }
    }
}

impl BuildHasher for Seed {
    type Hasher = DefaultHasher;

    ghost build_hasher = { λ seed. fold sip.write sip.initial (fed.u64 seed.key) };

    fn build_hasher(&self) -> DefaultHasher {
        let mut state = DefaultHasher::new();
        state.write_u64(self.key);
        state
    }
}
