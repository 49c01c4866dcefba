//! The map from names, which finds compatible versions.
//!
//! A component that imports `a:b/c@0.2.0` is to be content with `a:b/c@0.2.1`. So beside its definitions the map notes,
//! for each track, the place of the greatest version that was inserted on it. A look-up asks for the name itself first.
//! Only a name that isn't there takes the way over its track, so several versions can stand beside each other, each
//! found by its own name.
//!
//! What the map holds is told by a list of insertions. `StandsFor` says that under an interner's keys it holds just
//! what they define, and each contract speaks of every list that the map stands for. The interner changes between the
//! calls, since it is lent; a text keeps its key in it, and so the map goes on standing for its list.
//!
//! Names are untrusted input, so the hash by which they are found has a seed, which is made of the whole input.

ghost use Rattle.std.specs.Prelude.{◌≡◌, ◌+◌, ◌≤◌, ◌∷◌, ◌++◌, [], ℕ, List, Some, None, Ok, Err, length, IfOk, IfErr};
ghost use Rattle.std.specs.Prelude.{OnOk, OnErr};
ghost use Rattle.std.specs.Borrow.{LendsIf, sem};
ghost use Rattle.std.specs.Map.{lookup, set_value};
ghost use Rattle.std.specs.Option.{option_copied, option_copied_mut};
ghost use Rattle.pc_names.specs.Contents.{no_names};
ghost use Rattle.pc_names.specs.Definitions.{place_in, with_value};
ghost use Rattle.pc_names.specs.Inserted.{Answers, Inserted, IsTwice, TrackGives, last_value};
ghost use Rattle.pc_names.specs.Stands.{StandsFor};
ghost use Rattle.pc_names.specs.Steps.{IsHeld, IsTrackKey, keyed_version, newest_value, noted_at, with_definition};
ghost use Rattle.pc_names.specs.Track.{track_of};
ghost use Rattle.semver.specs.Identifiers.{parts_of};
ghost use Rattle.semver.specs.Parse.{Parts};

use crate::alternate::alternate_lookup_key;
use crate::entries::Entries;
use crate::intern::NameMapIntern;
use crate::name_error::NameError;
use crate::raw_iter::RawIter;
use crate::tracks::Tracks;
use pc_entity::{NoMemory, Seed, Text, TryClone};
use semver::Version;
use std::alloc::Global;
use std::hash::Hash;
use std::marker::Model;

/// A map from names to items, which finds the greatest compatible version of a name that isn't there.
#[derive(Drop)]
pub struct NameMap<K: Eq + Hash, V> {
    alloc: Global,
    definitions: Entries<K, V>,
    tracks: Tracks<K>,
}

impl<K: Eq + Hash, V> Model for NameMap<K, V> {
    ghost use Rattle.pc_names.specs.Contents.{Contents};

    ghost Value = { Contents K V };

    ghost view = { λ m. record { definitions = m.definitions; tracks = m.tracks } };
}

impl<K: Eq + Hash + TryClone + Drop, V: Drop> NameMap<K, V> {
    ghost use Rattle.pc_names.specs.contracts.name_map.NameMap.{the_row};

    /// A map without names, which finds them by a hash with this seed.
    pub fn new(alloc: Global, seed: Seed) -> NameMap<K, V>
        ensures { result ≡ no_names }
    {
        NameMap {
            alloc,
            definitions: Entries::new(alloc, seed),
            tracks: Tracks::new(alloc, seed),
        }
    }

    /// Inserts a name with its item, and answers the name's key. Where shadowing is allowed, a name among the
    /// definitions gets the item and stays where it is.
    pub fn insert<I: NameMapIntern<Key = K>>(
        &mut self,
        name: &Text,
        cx: &mut I,
        allow_shadowing: bool,
        item: V,
    ) -> Result<K, NameError>
        requires { 2 ≤ I.room cx.old }

        // The map stands for one insertion more, and the answer is the name's key.
        ensures ok { OnOk result ((inserted : Inserted V) → StandsFor (I.has_key cx.old) self.old inserted
            → StandsFor (I.has_key cx.new) self.new (inserted ++ (name.now, item) ∷ [])) }
        ensures key { IfOk result (λ key. I.has_key cx.new name.now key) }

        // A name is refused exactly where shadowing is off and it was inserted before.
        ensures twice { (inserted : Inserted V) → StandsFor (I.has_key cx.old) self.old inserted
            → result ≡ Err NameError.DefinedTwice → IsTwice inserted name.now allow_shadowing }
        ensures once { (inserted : Inserted V) → StandsFor (I.has_key cx.old) self.old inserted
            → OnOk result (¬ IsTwice inserted name.now allow_shadowing) }

        // A refusal leaves the map. The interner keeps its keys, and takes two texts at most.
        ensures err { OnErr result (self.new ≡ self.old) }
        ensures kept { (text : List ℕ) (k : K) → I.has_key cx.old text k → I.has_key cx.new text k }
        ensures room { I.room cx.old ≤ I.room cx.new + 2 }
    {
        let key = cx.intern(name)?;
        let place = self.place_for(&key, allow_shadowing)?;
        let track = track_key(self.alloc, name, cx)?;
        self.put(place, &key, track, item)?;
        Ok(key)
    }

    /// The place of a key among the definitions, where the key may only be if shadowing is allowed.
    fn place_for(&self, key: &K, allow_shadowing: bool) -> Result<Option<usize>, NameError>
        ensures place { IfOk result (λ place. place ≡ place_in K.eq self.now.definitions key.now) }
        ensures once { OnOk result (¬ IsHeld K.eq self.now key.now allow_shadowing) }
        ensures twice { IfErr result
            (λ e. (e ≡ NameError.DefinedTwice) × IsHeld K.eq self.now key.now allow_shadowing) }
    {
        let place = self.definitions.place_of(key);
        if place.is_some() && !allow_shadowing {
            return Err(NameError::DefinedTwice);
        }
        Ok(place)
    }

    /// The item of a name, or else that of the greatest version on the name's track.
    pub fn get<I: NameMapIntern<Key = K>>(&self, name: &str, cx: &I) -> Result<Option<&V>, NoMemory>
        ensures { (inserted : Inserted V) → StandsFor (I.has_key cx.now) self.now inserted
            → IfOk result (λ found. Answers inserted name.now (option_copied found)) }
    {
        match self.exact(name, cx)? {
            Some(value) => Ok(Some(value)),
            None => self.on_track(name, cx),
        }
    }

    /// The definitions in the order in which their names were first inserted.
    pub fn raw_iter(&self) -> RawIter<'_, K, V>
        ensures { result ≡ self.now.definitions }
    {
        RawIter::new(self.definitions.iter())
    }

    /// The item under a key, to write.
    pub fn raw_get_mut(&mut self, key: &K) -> Option<&mut V>
        ensures* writes_back { sem 𝓛 (LendsIf (the_row K.row V.row K.PartialEq.own K.Hash.own)
            V.row self.entry result
            (λ w. record self.old { definitions = set_value (K.eq key.now) self.old.definitions w })
            self.old) }
        ensures value { option_copied_mut result ≡ lookup (K.eq key.now) self.old.definitions }
    {
        self.definitions.get_mut(key)
    }

    /// The item of the name itself.
    fn exact<I: NameMapIntern<Key = K>>(&self, name: &str, cx: &I) -> Result<Option<&V>, NoMemory>
        ensures { (inserted : Inserted V) → StandsFor (I.has_key cx.now) self.now inserted
            → IfOk result (λ found. option_copied found ≡ last_value inserted name.now) }
    {
        match cx.lookup(name)? {
            Some(key) => Ok(self.definitions.get(&key)),
            None => Ok(None),
        }
    }

    /// The item of the greatest version on the name's track.
    fn on_track<I: NameMapIntern<Key = K>>(
        &self,
        name: &str,
        cx: &I,
    ) -> Result<Option<&V>, NoMemory>
        ensures { (inserted : Inserted V) → StandsFor (I.has_key cx.now) self.now inserted
            → IfOk result (λ found. TrackGives inserted (track_of name.now) (option_copied found)) }
    {
        match alternate_lookup_key(self.alloc, name)? {
            Some((track, _version)) => self.newest(track.as_str(), cx),
            None => Ok(None),
        }
    }

    /// The item of the greatest version on a track.
    fn newest<'a, I: NameMapIntern<Key = K>>(
        &'a self,
        track: &str,
        cx: &I,
    ) -> Result<Option<&'a V>, NoMemory>
        ensures { (inserted : Inserted V) (version : Parts) → StandsFor (I.has_key cx.now) self.now inserted
            → IfOk result (λ found. TrackGives inserted (Some (track.now, version)) (option_copied found)) }
    {
        match cx.lookup(track)? {
            Some(key) => Ok(self.newest_under(&key)),
            None => Ok(None),
        }
    }

    /// The item of the greatest version under a track's key.
    fn newest_under(&self, key: &K) -> Option<&V>
        ensures { option_copied result ≡ newest_value self.now (lookup (K.eq key.now) self.now.tracks) }
    {
        match self.tracks.place_of(key) {
            Some(place) => self.definitions.at(place),
            None => None,
        }
    }

    /// Defines a key, which has this place if it is there.
    fn put(
        &mut self,
        place: Option<usize>,
        key: &K,
        track: Option<(K, Version)>,
        item: V,
    ) -> Result<(), NoMemory>
        requires { place ≡ place_in K.eq self.old.definitions key.now }
        ensures ok { OnOk result (self.new ≡ with_definition K.eq self.old key.now (keyed_version track) item) }
        ensures err { OnErr result (self.new ≡ self.old) }
    {
        match place {
            Some(place) => self.redefine(place, track, item),
            None => self.define(key, track, item),
        }
    }

    /// Writes the item of a definition. Only its track may take memory, so it comes first.
    fn redefine(
        &mut self,
        place: usize,
        track: Option<(K, Version)>,
        item: V,
    ) -> Result<(), NoMemory>
        ensures ok { OnOk result (self.new ≡ record {
          definitions = with_value self.old.definitions place item;
          tracks = noted_at K.eq self.old.tracks (keyed_version track) place;
        }) }
        ensures err { OnErr result (self.new ≡ self.old) }
    {
        self.tracks.note(track, place)?;
        self.definitions.set(place, item);
        Ok(())
    }

    /// Adds a definition, and takes it back where its track finds no memory.
    fn define(&mut self, key: &K, track: Option<(K, Version)>, item: V) -> Result<(), NoMemory>
        requires { place_in K.eq self.old.definitions key.now ≡ None }
        ensures ok { OnOk result (self.new ≡ record {
          definitions = self.old.definitions ++ (key.now, item) ∷ [];
          tracks = noted_at K.eq self.old.tracks (keyed_version track) (length self.old.definitions);
        }) }
        ensures err { OnErr result (self.new ≡ self.old) }
    {
        let place = self.definitions.len();
        self.definitions.push(key.try_clone(self.alloc)?, item)?;
        if let Err(refused) = self.tracks.note(track, place) {
            self.definitions.pop();
            return Err(refused);
        }
        Ok(())
    }
}

impl<K: Eq + Hash + TryClone + Drop, V: TryClone + Drop> TryClone for NameMap<K, V> {
    fn try_clone(&self, alloc: Global) -> Result<NameMap<K, V>, NoMemory> {
        Ok(NameMap {
            alloc,
            definitions: self.definitions.try_clone(alloc)?,
            tracks: self.tracks.try_clone(alloc)?,
        })
    }
}

/// The key of a name's track, and the name's version there.
fn track_key<I: NameMapIntern>(
    alloc: Global,
    name: &Text,
    cx: &mut I,
) -> Result<Option<(I::Key, Version)>, NoMemory>
    requires { 1 ≤ I.room cx.old }
    ensures key { IfOk result (λ track. IsTrackKey (I.has_key cx.new) (track_of name.now) (keyed_version track)) }
    ensures kept { (text : List ℕ) (k : I.Key) → I.has_key cx.old text k → I.has_key cx.new text k }
    ensures room { I.room cx.old ≤ I.room cx.new + 1 }
{
    match alternate_lookup_key(alloc, name.as_str())? {
        Some((track, version)) => intern_track(Text::from_string(track)?, version, cx),
        None => Ok(None),
    }
}

/// The key of a track, with a version on it.
fn intern_track<I: NameMapIntern>(
    track: Text,
    version: Version,
    cx: &mut I,
) -> Result<Option<(I::Key, Version)>, NoMemory>
    requires { 1 ≤ I.room cx.old }
    ensures key { IfOk result (λ found.
        IsTrackKey (I.has_key cx.new) (Some (track, parts_of version)) (keyed_version found)) }
    ensures kept { (text : List ℕ) (k : I.Key) → I.has_key cx.old text k → I.has_key cx.new text k }
    ensures room { I.room cx.old ≤ I.room cx.new + 1 }
{
    let key = cx.intern(&track)?;
    Ok(Some((key, version)))
}
