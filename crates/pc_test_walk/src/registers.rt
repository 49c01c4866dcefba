//! Resources that become known by their paths.

use crate::shapes::{Shape, table_of};
use crate::support::{holds, is_sound};
use pc_entity::{ResourceIndex, Text};
use pc_types::{Entity, TypeTable};
use pc_types_lists::ResourcesBuilder;
use pc_types_register::{WalkError, register_entity};
use std::alloc::Global;
use std::test::*;

/// Resource 1 is found at a path of one name, and resource 2 at one with more; more names than these are refused.
fn by_length(path: &[Text], most: usize) -> Result<ResourceIndex, usize> {
    if path.len() > most {
        Err(path.len())
    } else if path.len() == 1 {
        Ok(ResourceIndex(1))
    } else {
        Ok(ResourceIndex(2))
    }
}

/// The resources of entry 4 become known, each by the length of its path.
fn registered(
    alloc: Global,
    table: &TypeTable,
    resources: &mut ResourcesBuilder,
    most: usize,
) -> Option<Result<(), WalkError<usize>>> {
    if !is_sound(alloc, table) {
        return None;
    }
    let entity = Entity::Instance(4);
    Some(register_entity(
        alloc,
        resources,
        table,
        &entity,
        |path| by_length(path, most),
    ))
}

/// Resource 3 is at `x`, and resource 0 at `y`, `b`.
#[test]
fn each_resource_is_found_by_its_path(rt: HostRuntime) {
    let table = table_of(&rt, rt.alloc(), Shape::Small);
    let mut resources = ResourcesBuilder::new(rt.alloc());
    let done = registered(rt.alloc(), &table, &mut resources, 2).expect(&rt, "no table");
    holds(&rt, "done", done == Ok(()));
    holds(&rt, "x", resources.lookup(3) == Some(ResourceIndex(1)));
    holds(&rt, "y.b", resources.lookup(0) == Some(ResourceIndex(2)));
}

/// The path with two names is refused, and what was found before it stays.
#[test]
fn a_refusal_ends_the_walk(rt: HostRuntime) {
    let table = table_of(&rt, rt.alloc(), Shape::Small);
    let mut resources = ResourcesBuilder::new(rt.alloc());
    let done = registered(rt.alloc(), &table, &mut resources, 1).expect(&rt, "no table");
    holds(&rt, "refused", done == Err(WalkError::Find(2)));
    holds(&rt, "x", resources.lookup(3) == Some(ResourceIndex(1)));
    holds(&rt, "y.b", resources.lookup(0) == None);
}
