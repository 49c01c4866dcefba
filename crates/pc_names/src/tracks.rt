//! The newest version of each track, under the track's key, with the place of its definition.

ghost use Rattle.std.specs.Prelude.{◌≡◌, ℕ, [], List, IfOk, OnOk, OnErr};
ghost use Rattle.std.specs.Map.{lookup};
ghost use Rattle.std.specs.Option.{option_map};
ghost use Rattle.std.specs.Ordering.{is_lt};
ghost use Rattle.pc_names.specs.Steps.{keyed_version, noted_at};
ghost use Rattle.pc_names.specs.Track.{version_cmp};
ghost use Rattle.pc_names.specs.Tracks.{noted};
ghost use Rattle.semver.specs.Identifiers.{parts_of};

use crate::entries::Entries;
use pc_entity::{NoMemory, Seed, TryClone};
use semver::Version;
use std::alloc::Global;
use std::hash::Hash;
use std::marker::Model;

/// The newest version of a track, and the place of the definition that has it.
#[derive(Drop)]
pub(crate) struct Newest {
    place: usize,
    version: Version,
}

impl Model for Newest {
    ghost use Rattle.pc_names.specs.Contents.{Newest};
    ghost use Rattle.semver.specs.Identifiers.{parts_of};

    ghost Value = { Newest };

    ghost view = { λ n. (n.place, parts_of n.version) };
}

impl Newest {
    fn is_below(&self, held: &Newest) -> bool
        ensures { result ≡ is_lt (version_cmp self.now.1 held.now.1) }
    {
        self.version < held.version
    }
}

impl TryClone for Newest {
    fn try_clone(&self, _alloc: Global) -> Result<Newest, NoMemory> {
        Ok(Newest {
            place: self.place,
            version: self.version.clone()?,
        })
    }
}

/// The newest version of each track that has one, by the track's key.
#[derive(Drop)]
pub(crate) struct Tracks<K: Eq + Hash> {
    newest: Entries<K, Newest>,
}

impl<K: Eq + Hash> Model for Tracks<K> {
    ghost use Rattle.std.specs.Prelude.{List};
    ghost use Rattle.pc_names.specs.Contents.{Newest};

    ghost Value = { List (K × Newest) };

    ghost view = { λ t. t.newest };
}

impl<K: Eq + Hash> Tracks<K> {
    pub(crate) fn new(alloc: Global, seed: Seed) -> Tracks<K>
        ensures { result ≡ [] }
    {
        Tracks {
            newest: Entries::new(alloc, seed),
        }
    }

    /// The place of the definition with the newest version of a track.
    pub(crate) fn place_of(&self, track: &K) -> Option<usize>
        ensures { result ≡ option_map (λ n. n.0) (lookup (K.eq track.now) self.now) }
    {
        match self.newest.get(track) {
            Some(newest) => Some(newest.place),
            None => None,
        }
    }

    /// Notes the version of a definition on its track, if it has one. Of two equal versions the later one stays.
    pub(crate) fn note(&mut self, track: Option<(K, Version)>, place: usize) -> Result<(), NoMemory>
    where
        K: Drop,
        ensures ok { OnOk result (self.new ≡ noted_at K.eq self.old (keyed_version track) place) }
        ensures err { OnErr result (self.new ≡ self.old) }
    {
        match track {
            Some((key, version)) => self.note_on(key, Newest { place, version }),
            None => Ok(()),
        }
    }

    /// Notes a version on a track.
    fn note_on(&mut self, track: K, newest: Newest) -> Result<(), NoMemory>
    where
        K: Drop,
        ensures ok { OnOk result (self.new ≡ noted K.eq self.old track newest) }
        ensures err { OnErr result (self.new ≡ self.old) }
    {
        if let Some(held) = self.newest.get(&track) {
            if newest.is_below(held) {
                return Ok(());
            }
        }
        self.newest.insert(track, newest)
    }
}

impl<K: Eq + Hash + TryClone + Drop> TryClone for Tracks<K> {
    fn try_clone(&self, alloc: Global) -> Result<Tracks<K>, NoMemory> {
        Ok(Tracks {
            newest: self.newest.try_clone(alloc)?,
        })
    }
}
