//! Walks, and what they find.

use crate::shapes::{Shape, table_of};
use crate::support::{found_together, holds, walk_from};
use pc_types::TypeTable;
use pc_types_walk::{Place, Walk};
use std::test::*;

/// Resource 3 is found at `x`, and resource 0 at `y`, `b`; that it is at `z` too doesn't count.
#[test]
fn each_resource_is_found_at_its_first_path(rt: HostRuntime) {
    let table = table_of(&rt, rt.alloc(), Shape::Small);
    let walk = walk_from(rt.alloc(), &table, 4).expect(&rt, "no walk");
    holds(&rt, "places", walk.places.len() == 3);
    holds(&rt, "x", is_at(&table, &walk, 0, 3, 1, "x"));
    holds(&rt, "y.b", is_at(&table, &walk, 1, 0, 3, "b"));
    holds(&rt, "y", leads_by(&table, &walk, 2, 0, "y"));
    holds(&rt, "below y", leads_by(&table, &walk, 3, 2, "b"));
}

/// Whether a resource is found at a place, to which an export of this name leads.
fn is_at(table: &TypeTable, walk: &Walk, k: usize, number: u32, place: usize, name: &str) -> bool {
    match walk.found.as_slice().get(k) {
        Some(found) => found.number == number
            && found.place == place
            && named(table, walk, place, name),
        None => false,
    }
}

/// Whether a place is behind this parent, and an export of this name leads to it.
fn leads_by(table: &TypeTable, walk: &Walk, place: usize, parent: usize, name: &str) -> bool {
    match place_at(walk, place) {
        Some(p) => p.parent == parent && named(table, walk, place, name),
        None => false,
    }
}

/// A place of a walk, by its number.
fn place_at(walk: &Walk, place: usize) -> Option<Place> {
    if place == 0 {
        return None;
    }
    walk.places.as_slice().get(place - 1).copied()
}

/// Whether the export that leads to a place has this name.
fn named(table: &TypeTable, walk: &Walk, place: usize, name: &str) -> bool {
    match place_at(walk, place) {
        Some(p) => match p.export(table) {
            Some(export) => export.0.as_str() == name,
            None => false,
        },
        None => false,
    }
}

/// There are 2 ^ 40 paths.
#[test]
fn each_of_many_pairs_is_entered_once(rt: HostRuntime) {
    let table = table_of(&rt, rt.alloc(), Shape::Pairs);
    let walk = walk_from(rt.alloc(), &table, 80).expect(&rt, "no walk");
    holds(&rt, "found", walk.found.len() == 1);
    holds(&rt, "places", walk.places.len() == 79);
}

/// The paths have 5 * 10 ^ 9 names.
#[test]
fn a_long_chain_is_walked(rt: HostRuntime) {
    let table = table_of(&rt, rt.alloc(), Shape::Chain);
    let walk = walk_from(rt.alloc(), &table, 199_999).expect(&rt, "no walk");
    holds(&rt, "found", walk.found.len() == 100_000);
    holds(&rt, "places", walk.places.len() == 199_999);
}

/// A walk that looked at each export would look at 4 * 10 ^ 10.
#[test]
fn a_wide_type_is_walked_often(rt: HostRuntime) {
    let table = table_of(&rt, rt.alloc(), Shape::Wide);
    let found = found_together(rt.alloc(), &table, 1, 200_000);
    holds(&rt, "found", found == Some(200_000));
}
