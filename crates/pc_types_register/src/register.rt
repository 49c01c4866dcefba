//! The resources of an entity become known.

ghost use Rattle.std.specs.Prelude.{◌≡◌, None};
ghost use Rattle.pc_types.specs.Table.{table_fault};
ghost use Rattle.pc_spec_reading.specs.Once.{each_once};
ghost use Rattle.pc_spec_reading.specs.Resource.{resource_paths, same_number};
ghost use Rattle.pc_types_register.specs.Registers.{Registers};

use crate::path::path_to;
use pc_entity::{NoMemory, ResourceIndex, Text};
use pc_types::{Entity, TypeTable};
use pc_types_lists::ResourcesBuilder;
use pc_types_walk::Leads;
use std::alloc::Global;

/// Why a walk ended early.
#[derive(Clone, Copy, Debug, PartialEq, Eq, Drop)]
pub enum WalkError<E> {
    /// Nothing was found at a path.
    Find(E),

    /// A growth found no memory.
    NoMemory,
}

impl<E: Drop> From<NoMemory> for WalkError<E> {
    ghost use Rattle.pc_types_register.specs.declared.register.WalkError.{WalkError};

    ghost from_gives = { λ _ e. e ≡ WalkError.NoMemory };

    fn from(_refused: NoMemory) -> WalkError<E> {
        WalkError::NoMemory
    }
}

/// The resources that an entity leads to through the exports of instance types become known, in the order of their
/// paths. `find` is called with the path to each number that isn't known, once a number.
///
/// `Find` where `find` refused. What was registered before a refusal stays, and nothing that was known is replaced.
/// Takes time by the table, by what the entity leads to, and by the paths that it writes out for `find`.
pub fn register_entity<E: Drop, F: FnMut(&[Text]) -> Result<ResourceIndex, E>>(
    alloc: Global,
    resources: &mut ResourcesBuilder,
    table: &TypeTable,
    entity: &Entity,
    mut find: F,
) -> Result<(), WalkError<E>>
    requires callable { F.IsAlwaysCallable find }
    requires sound { table_fault table.now ≡ None }
    ensures { Registers F.FnMut find (each_once same_number (resource_paths table.now entity.now))
        resources.old resources.new result }
{
    let leads = Leads::new(alloc, table)?;
    let walk = leads.walk(alloc, table, *entity)?;
    for found in walk.found.as_slice() {
        if resources.lookup(found.number).is_some() {
            continue;
        }
        let path = path_to(alloc, table, walk.places.as_slice(), found.place)?;
        match find(path.as_slice()) {
            Ok(resource) => resources.register_resource(found.number, resource)?,
            Err(refused) => return Err(WalkError::Find(refused)),
        }
    }
    Ok(())
}
