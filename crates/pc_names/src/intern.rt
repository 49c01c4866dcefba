//! Interners, which turn the names of a map into keys.

ghost use Rattle.std.specs.Prelude.{◌≡◌, ◌+◌, ◌≤◌, ◌↔◌, ℕ, List, IfOk, IfSome, IfNone, IsTrue};

use pc_entity::{Atom, NoMemory, StringPool, Text, TryClone};
use std::alloc::Global;
use std::hash::Hash;

/// Turns texts into keys. An interner may keep the texts and hand out numbers, or make each text its own key.
///
/// One map is used with one interner, which may serve several maps.
pub trait NameMapIntern {
    /// What stands for a text.
    type Key: Eq + Hash + TryClone + Drop;

    // A text has a key here. A text that was interned has one.
    ghost has_key: { Self → List ℕ → Self.Key → Type 0 };

    // How many texts can still be interned.
    ghost room: { Self → ℕ };

    /// How many texts can still be interned.
    fn room(&self) -> usize
        ensures { result ≡ room self.now };

    /// Interns a text.
    fn intern(&mut self, s: &Text) -> Result<Self::Key, NoMemory>
        requires { 1 ≤ room self.old }
        ensures key { IfOk result (λ k. has_key self.new s.now k) }

        // Whatever the answer, each text keeps its key, and at most one place is taken.
        ensures kept { (text : List ℕ) (k : Self.Key) → has_key self.old text k → has_key self.new text k }
        ensures room { room self.old ≤ room self.new + 1 };

    /// The key of a text, if it has one.
    fn lookup(&self, s: &str) -> Result<Option<Self::Key>, NoMemory>
        ensures found { IfOk result (λ found. IfSome found (λ k. has_key self.now s.now k)) }
        ensures missing { IfOk result (λ found. IfNone found ((k : Self.Key) → ¬ has_key self.now s.now k)) };

    // Keys are equal exactly for equal texts.
    ghost same_key: { (x : Self) (text other : List ℕ) (k l : Self.Key) → has_key x text k → has_key x other l
        → IsTrue (Self.Key.eq k l) ↔ (text ≡ other) };
}

/// No interning: each text is its own key, and every text is found.
#[derive(Drop)]
pub struct NameMapNoIntern {
    alloc: Global,
}

impl NameMapNoIntern {
    /// The interner, whose keys are made by this allocator.
    pub fn new(alloc: Global) -> NameMapNoIntern {
        NameMapNoIntern { alloc }
    }
}

impl NameMapIntern for NameMapNoIntern {
    type Key = Text;

    ghost use Rattle.std.specs.Prelude.{◌≡◌, ◌^◌, ◌-◌};
    ghost use Rattle.pc_names.specs.Keys.{text_keys};

    ghost has_key = { λ _ text key. key ≡ text };

    ghost room = { λ _. 2 ^ 64 - 1 };

    ghost same_key = { λ _. text_keys };

    fn room(&self) -> usize {
        usize::MAX
    }

    fn intern(&mut self, s: &Text) -> Result<Text, NoMemory> {
        s.share()
    }

    fn lookup(&self, s: &str) -> Result<Option<Text>, NoMemory> {
        Ok(Some(Text::copy_of(self.alloc, s)?))
    }
}

/// A pool's texts have their numbers as keys. A text that isn't held has none.
impl NameMapIntern for StringPool {
    type Key = Atom;

    ghost use Rattle.std.specs.Prelude.{◌-◌, length};
    ghost use Rattle.pc_names.specs.Keys.{IsNumbered, number_keys};

    ghost has_key = { IsNumbered };

    ghost room = { λ texts. 4294967295 - length texts };

    ghost same_key = { number_keys };

    fn room(&self) -> usize {
        4294967295usize.saturating_sub(self.len())
    }

    fn intern(&mut self, s: &Text) -> Result<Atom, NoMemory> {
        self.insert(s.as_str())
    }

    fn lookup(&self, s: &str) -> Result<Option<Atom>, NoMemory> {
        // Brings the invariant into the proof: the pool's texts are distinct.
        let _distinct = self.len();
        Ok(self.get_atom(s))
    }
}
