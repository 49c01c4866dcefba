//! The core items that are entities of core instances, by where they stand.

ghost use Rattle.std.specs.Prelude.{◌≡◌, ◌⊎◌, ℕ, [], Some, slice_get, IfSome, OnOk, OnErr};

use crate::definition::CoreId;
use indexmap::IndexMap;
use pc_dfg::InstanceId;
use pc_entity::{EntityIndex, NoMemory, Seed};
use std::alloc::Global;
use std::marker::Model;

/// An entity of a core instance, whose module was handed in.
#[derive(Clone, Copy, PartialEq, Eq, Hash)]
pub struct InstanceEntity {
    pub instance: InstanceId,
    pub entity: EntityIndex,
}

/// The core items that were made of entities of core instances. A contract sees the list of these entities, each with
/// its item.
#[derive(Drop)]
pub struct EntityItems {
    made: IndexMap<InstanceEntity, CoreId, Seed>,
}

impl Model for EntityItems {
    ghost use Rattle.std.specs.Prelude.{List};
    ghost use Rattle.pc_inline_state.specs.declared.definition.CoreId.{CoreId};
    ghost use Rattle.pc_inline_state.specs.declared.entity_items.InstanceEntity.{InstanceEntity};

    ghost Value = { List (InstanceEntity × CoreId) };

    ghost view = { λ m. m.made.entries };
}

impl EntityItems {
    /// No item was made. It takes no memory.
    pub fn new(alloc: Global, seed: Seed) -> EntityItems
        ensures { result ≡ [] }
    {
        EntityItems {
            made: IndexMap::with_hasher(alloc, seed),
        }
    }

    /// The item that was made of an entity, if one was.
    pub fn get(&self, entity: InstanceEntity) -> Option<CoreId>
        ensures { IfSome result (λ id. (i : ℕ) × (slice_get self.now i ≡ Some (entity, id))) }
    {
        self.made.get(&entity).copied()
    }

    /// Notes which item was made of an entity.
    pub fn insert(&mut self, entity: InstanceEntity, id: CoreId) -> Result<(), NoMemory>
        ensures ok { OnOk result ((i : ℕ) (e : _) → slice_get self.new i ≡ Some e
            → (slice_get self.old i ≡ Some e) ⊎ (e ≡ (entity, id))) }
        ensures err { OnErr result (self.new ≡ self.old) }
    {
        self.made.insert(entity, id)?;
        Ok(())
    }
}
