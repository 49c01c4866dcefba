//! The core items that were found under names of host modules, by where they stand.

ghost use Rattle.std.specs.Prelude.{◌≡◌, ◌⊎◌, ℕ, [], Some, slice_get, IfSome, OnOk, OnErr};

use crate::definition::CoreId;
use indexmap::IndexMap;
use pc_dfg::InstanceId;
use pc_entity::{NoMemory, Seed};
use std::alloc::Global;
use std::marker::Model;

/// What an instance of a host module exports: the instance, the entry that is the module's type, and the place of the
/// export in it. It has numbers alone, so that two are compared without their names.
#[derive(Clone, Copy, PartialEq, Eq, Hash)]
pub struct HostExport {
    pub instance: InstanceId,
    pub entry: u32,
    pub place: usize,
}

/// The core items that were made of exports of host modules. A contract sees the list of these exports, each with its
/// item.
#[derive(Drop)]
pub struct HostItems {
    made: IndexMap<HostExport, CoreId, Seed>,
}

impl Model for HostItems {
    ghost use Rattle.std.specs.Prelude.{List};
    ghost use Rattle.pc_inline_state.specs.declared.definition.CoreId.{CoreId};
    ghost use Rattle.pc_inline_state.specs.declared.host_items.HostExport.{HostExport};

    ghost Value = { List (HostExport × CoreId) };

    ghost view = { λ m. m.made.entries };
}

impl HostItems {
    /// No item was made. It takes no memory.
    pub fn new(alloc: Global, seed: Seed) -> HostItems
        ensures { result ≡ [] }
    {
        HostItems {
            made: IndexMap::with_hasher(alloc, seed),
        }
    }

    /// The item that was made of an export, if one was.
    pub fn get(&self, export: HostExport) -> Option<CoreId>
        ensures { IfSome result (λ id. (i : ℕ) × (slice_get self.now i ≡ Some (export, id))) }
    {
        self.made.get(&export).copied()
    }

    /// The export that an item was made of, if it is one of these. Items have rising numbers, so the middle is looked at
    /// first.
    pub fn export_of(&self, id: CoreId) -> Option<HostExport>
        ensures { IfSome result (λ export. (i : ℕ) × (slice_get self.now i ≡ Some (export, id))) }
    {
        let mut begin = 0;
        let mut end = self.made.len();
        while begin < end {
            let middle = begin + (end - begin) / 2;
            let (export, made) = self.made.get_index(middle)?;
            if *made == id {
                return Some(*export);
            }
            if made.0 < id.0 {
                begin = middle + 1;
            } else {
                end = middle;
            }
        }
        None
    }

    /// Notes which item was made of an export.
    pub fn insert(&mut self, export: HostExport, id: CoreId) -> Result<(), NoMemory>
        ensures ok { OnOk result ((i : ℕ) (e : _) → slice_get self.new i ≡ Some e
            → (slice_get self.old i ≡ Some e) ⊎ (e ≡ (export, id))) }
        ensures err { OnErr result (self.new ≡ self.old) }
    {
        self.made.insert(export, id)?;
        Ok(())
    }
}
