//! The adapters that were made, by what each was made of.

ghost use Rattle.std.specs.Prelude.{◌≡◌, ◌⊎◌, ℕ, [], Some, slice_get, IfSome, OnOk, OnErr};

use crate::definition::{CoreId, Options};
use indexmap::IndexMap;
use pc_dfg::AdapterId;
use pc_entity::{NoMemory, Seed};
use pc_types::TypeFuncIndex;
use std::alloc::Global;
use std::marker::Model;

/// What an adapter is made of: a core function with the type and the options under which it was lifted, and those under
/// which it is lowered. It has numbers alone, so that two are compared without the names of host items.
#[derive(Clone, Copy, PartialEq, Eq, Hash)]
pub struct AdapterKey {
    pub lift_ty: TypeFuncIndex,
    pub func: CoreId,
    pub lift: Options,
    pub lower_ty: TypeFuncIndex,
    pub lower: Options,
}

/// The adapters that were made, by their keys. A contract sees the list of the keys with their adapters.
#[derive(Drop)]
pub struct Adapters {
    made: IndexMap<AdapterKey, AdapterId, Seed>,
}

impl Model for Adapters {
    ghost use Rattle.std.specs.Prelude.{List};
    ghost use Rattle.pc_dfg.specs.declared.ids.AdapterId.{AdapterId};
    ghost use Rattle.pc_inline_state.specs.declared.adapters.AdapterKey.{AdapterKey};

    ghost Value = { List (AdapterKey × AdapterId) };

    ghost view = { λ m. m.made.entries };
}

impl Adapters {
    /// No adapter was made. It takes no memory.
    pub fn new(alloc: Global, seed: Seed) -> Adapters
        ensures { result ≡ [] }
    {
        Adapters {
            made: IndexMap::with_hasher(alloc, seed),
        }
    }

    /// The adapter that was made of this, if one was.
    pub fn get(&self, key: AdapterKey) -> Option<AdapterId>
        ensures { IfSome result (λ adapter. (i : ℕ) × (slice_get self.now i ≡ Some (key, adapter))) }
    {
        self.made.get(&key).copied()
    }

    /// Notes which adapter was made of this.
    pub fn insert(&mut self, key: AdapterKey, adapter: AdapterId) -> Result<(), NoMemory>
        ensures ok { OnOk result ((i : ℕ) (e : _) → slice_get self.new i ≡ Some e
            → (slice_get self.old i ≡ Some e) ⊎ (e ≡ (key, adapter))) }
        ensures err { OnErr result (self.new ≡ self.old) }
    {
        self.made.insert(key, adapter)?;
        Ok(())
    }
}
