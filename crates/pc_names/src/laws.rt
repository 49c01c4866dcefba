//! Laws of name maps. Each function does nothing: its contract is the law.

ghost use Rattle.std.specs.Prelude.{◌≡◌, ◌∷◌, ◌++◌, [], ℕ, List, Option, None, Some, IsSome};
ghost use Rattle.std.specs.Map.{set_value};
ghost use Rattle.pc_names.specs.Contents.{Contents, no_names};
ghost use Rattle.pc_names.specs.Inserted.{Answers, Inserted, definitions_of, last_value};
ghost use Rattle.pc_names.specs.Stands.{StandsFor};
ghost use Rattle.pc_names.specs.Track.{track_of};
ghost use Rattle.semver.specs.Parse.{Parts};

use crate::intern::NameMapIntern;

/// A track is its name cut before a dot of the version.
pub fn track_is_cut()
    ensures { (name track : List ℕ) (version : Parts) → track_of name ≡ Some (track, version)
        → (rest : List ℕ) × (name ≡ track ++ 46 ∷ rest) }
{}

/// A map without names stands for no insertions, under every interner.
pub fn empty_map<V, I: NameMapIntern>(cx: &I)
    ensures { StandsFor {K = I.Key} {V = V} (I.has_key cx.now) no_names [] }
{}

/// A map goes on standing for its insertions while other texts are interned.
pub fn other_texts<V, I: NameMapIntern>(before: &I, after: &I)
    ensures { (map : Contents I.Key V) (inserted : Inserted V)
        → ((text : List ℕ) (key : I.Key) → I.has_key before.now text key → I.has_key after.now text key)
        → StandsFor (I.has_key before.now) map inserted → StandsFor (I.has_key after.now) map inserted }
{}

/// A value that is written under the key of a name is one more insertion of the name.
pub fn written_value<V, I: NameMapIntern>(cx: &I)
    ensures { (map : Contents I.Key V) (inserted : Inserted V) (name : List ℕ) (key : I.Key) (value : V)
        → StandsFor (I.has_key cx.now) map inserted → I.has_key cx.now name key → IsSome (last_value inserted name)
        → StandsFor (I.has_key cx.now)
        (record map { definitions = set_value (I.Key.eq key) map.definitions value })
        (inserted ++ (name, value) ∷ []) }
{}

/// A look-up has one answer: of the names on a track one alone has the greatest version.
pub fn one_answer<V>()
    ensures { (inserted : Inserted V) (name : List ℕ) (answer other : Option V)
        → Answers inserted name answer → Answers inserted name other → answer ≡ other }
{}

/// The order of insertions doesn't matter, where it leaves each name its value.
pub fn any_order<V>()
    ensures { (inserted other : Inserted V) → ((name : List ℕ) → last_value inserted name ≡ last_value other name)
        → (name : List ℕ) (answer : Option V) → Answers inserted name answer → Answers other name answer }
{}

/// Where each text is its own key, the definitions are those of the insertions.
pub fn plain_definitions<V>()
    ensures { (map : Contents (List ℕ) V) (inserted : Inserted V) → StandsFor (λ text key. key ≡ text) map inserted
        → map.definitions ≡ definitions_of inserted }
{}

/// A name that wasn't inserted before is defined last.
pub fn new_name<V>()
    ensures { (inserted : Inserted V) (name : List ℕ) (value : V) → last_value inserted name ≡ None
        → definitions_of (inserted ++ (name, value) ∷ []) ≡ definitions_of inserted ++ (name, value) ∷ [] }
{}
