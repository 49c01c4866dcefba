//! A text that carries a hash of its bytes.

ghost use Rattle.std.specs.Prelude.{◌≡◌, IfOk};
ghost use Rattle.std.specs.Hash as fed;
ghost use Rattle.std.specs.Str.{bytes_eq};
ghost use Rattle.std.specs.Cmp.Lexicographic.{nat_list_eq_equiv};
ghost use Rattle.std.specs.Cmp.{partial_equiv_from_equiv};
ghost use Rattle.std.proofs.Common.{ap};
ghost use Rattle.pc_entity.specs.Exact.{same_texts};
ghost use Rattle.pc_entity.specs.HashedText.{text_hash};

use crate::{ExactEq, NoMemory, Text, TryClone};
use std::alloc::Global;
use std::hash::{DefaultHasher, Hash, Hasher};
use std::marker::Model;
use std::rc::Rc;

/// A text behind one pointer, with a hash of its bytes. The bytes are read when it is made, and a map that hashes it
/// takes the same time however long it is. Copies share it.
#[derive(Drop)]
pub struct HashedText {
    inner: Rc<Hashed>,
}

#[derive(Drop)]
struct Hashed {
    text: Text,
    hash: u64,
}

impl Model for HashedText {
    ghost use Rattle.std.specs.Prelude.{◌≡◌, ℕ, List};
    ghost use Rattle.pc_entity.specs.HashedText.{text_hash};

    ghost Value = { List ℕ };

    ghost view = { λ t. t.inner.value.text };

    ghost invariant = { λ t. t.inner.value.hash ≡ text_hash t.inner.value.text };
}

/// The hash of a text's bytes. It depends on no seed, so that equal texts have equal hashes; a map that takes it in
/// adds its own.
fn hash_of(text: &Text) -> u64
    ensures { result ≡ text_hash text.now }
{
    let mut state = DefaultHasher::new();
    text.hash(&mut state);
    state.finish()
}

impl HashedText {
    /// The same text with its hash.
    pub fn new(alloc: Global, text: Text) -> Result<HashedText, NoMemory>
        ensures { IfOk result (λ hashed. hashed ≡ text) }
    {
        let hash = hash_of(&text);
        Ok(HashedText {
            inner: Rc::new(alloc, Hashed { text, hash })?,
        })
    }

    /// The text itself.
    pub fn text(&self) -> &Text
        ensures { result.now ≡ self.now }
    {
        &Rc::as_ref(&self.inner).text
    }

    /// The text as a string.
    pub fn as_str(&self) -> &str
        ensures { result.now ≡ self.now }
    {
        self.text().as_str()
    }
}

impl TryClone for HashedText {
    fn try_clone(&self, _alloc: Global) -> Result<HashedText, NoMemory> {
        Ok(HashedText {
            inner: self.inner.clone()?,
        })
    }
}

impl PartialEq for HashedText {
    ghost eq = { λ a b. bytes_eq a b };

    ghost laws = { partial_equiv_from_equiv nat_list_eq_equiv };

    fn eq(&self, other: &HashedText) -> bool {
        self.text() == other.text()
    }
}

impl Eq for HashedText {
    ghost laws = { nat_list_eq_equiv };
}

impl Hash for HashedText {
    ghost hash_input = { λ t. fed.u64 (text_hash t) };

    ghost respects_eq = { λ a b h. ap (λ t. fed.u64 (text_hash t)) (same_texts a b h) };

    fn hash<H: Hasher>(&self, state: &mut H) {
        state.write_u64(Rc::as_ref(&self.inner).hash);
    }
}

impl ExactEq for HashedText {
    ghost exact = { same_texts };
}
