//! The places in the graph of what was put there already. A core item of a host module is told from others by its
//! name, and so is an adapter that holds one: each is looked for by its name once, and by its number from then on. All
//! aliases of one item of a core instance share its number, so adapters over them do too.

ghost use Rattle.std.specs.Prelude.{◌≡◌};
ghost use Rattle.pc_inline_state.specs.Places.{no_places};

use crate::adapters::Adapters;
use crate::definition::CoreId;
use crate::entity_items::EntityItems;
use crate::host_items::HostItems;
use pc_dfg::{CallbackId, MemoryId, PostReturnId, ReallocId, TableId};
use pc_entity::{SecondaryMap, Seed};
use std::alloc::Global;

/// The slots that core items have in the graph, by the kind of the slot, the adapters that were made, and the core
/// items that stand for entities of core instances and for exports of host modules: one for each, however many aliases
/// it has.
#[derive(Drop)]
pub struct Places {
    pub memories: SecondaryMap<CoreId, Option<MemoryId>>,
    pub tables: SecondaryMap<CoreId, Option<TableId>>,
    pub reallocs: SecondaryMap<CoreId, Option<ReallocId>>,
    pub callbacks: SecondaryMap<CoreId, Option<CallbackId>>,
    pub post_returns: SecondaryMap<CoreId, Option<PostReturnId>>,
    pub adapters: Adapters,
    pub entity_items: EntityItems,
    pub host_items: HostItems,
}

impl Places {
    /// Nothing was put into the graph.
    pub fn new(alloc: Global, seed: Seed) -> Places
        ensures { result ≡ no_places }
    {
        Places {
            memories: SecondaryMap::new(alloc, None),
            tables: SecondaryMap::new(alloc, None),
            reallocs: SecondaryMap::new(alloc, None),
            callbacks: SecondaryMap::new(alloc, None),
            post_returns: SecondaryMap::new(alloc, None),
            adapters: Adapters::new(alloc, seed),
            entity_items: EntityItems::new(alloc, seed),
            host_items: HostItems::new(alloc, seed),
        }
    }
}
