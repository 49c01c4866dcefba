//! Name maps, over both interners, and the tracks of names.

use crate::support::holds;
use pc_entity::{NoMemory, Seed, StringPool, Text, TryClone};
use pc_names::{NameError, NameMap, NameMapIntern, NameMapNoIntern, alternate_lookup_key};
use std::alloc::Global;
use std::hash::Hash;
use std::process::Abort;
use std::test::*;

/// Whether a name is inserted with its item.
fn is_inserted<K: Eq + Hash + TryClone + Drop, I: NameMapIntern<Key = K>>(
    alloc: Global,
    map: &mut NameMap<K, u32>,
    cx: &mut I,
    name: &str,
    item: u32,
) -> bool {
    match Text::copy_of(alloc, name) {
        Ok(name) => cx.room() >= 2 && map.insert(&name, cx, true, item).is_ok(),
        Err(_) => false,
    }
}

/// Inserts names with their items.
fn inserts<K: Eq + Hash + TryClone + Drop, I: NameMapIntern<Key = K>>(
    rt: &impl Abort,
    alloc: Global,
    map: &mut NameMap<K, u32>,
    cx: &mut I,
    names: &[(&str, u32)],
) {
    for (name, item) in names {
        holds(rt, name, is_inserted(alloc, map, cx, name, *item));
    }
}

/// Looks names up, each of which finds this item, or none.
fn finds<K: Eq + Hash + TryClone + Drop, I: NameMapIntern<Key = K>>(
    rt: &impl Abort,
    map: &NameMap<K, u32>,
    cx: &I,
    rows: &[(&str, Option<u32>)],
) {
    for (name, want) in rows {
        let is_found = match map.get(name, cx) {
            Ok(item) => item.copied() == *want,
            Err(_) => false,
        };
        holds(rt, name, is_found);
    }
}

/// Inserts names and looks names up.
fn maps_to<K: Eq + Hash + TryClone + Drop, I: NameMapIntern<Key = K>>(
    rt: &impl Abort,
    alloc: Global,
    cx: &mut I,
    names: &[(&str, u32)],
    rows: &[(&str, Option<u32>)],
) {
    let mut map = NameMap::new(alloc, Seed::fixed());
    inserts(rt, alloc, &mut map, cx, names);
    finds(rt, &map, cx, rows);
}

/// The names of wasmtime's own tests.
static COMPATIBLE: [(&str, u32); 4] = [("a", 0), ("b", 1), ("a:b/c@1.0.0", 2), ("a:b/c@1.0.1", 3)];

/// What is found among them.
static FOUND: [(&str, Option<u32>); 8] = [
    ("a", Some(0)),
    ("b", Some(1)),
    ("a:b/c@1.0.0", Some(2)),
    ("a:b/c@1.0.1", Some(3)),
    ("a:b/c@1.0.2", Some(3)),
    ("a:b/c@1.1.0", Some(3)),
    ("a:b/c", None),
    ("c", None),
];

/// Versions in no order: some on the tracks 1, 0.1 and 0.2 of `a`, some on none, and on `b` with and without build
/// text.
static VERSIONS: [(&str, u32); 10] = [
    ("a@1.2.0", 1),
    ("a@1.10.0", 2),
    ("a@1.9.9", 3),
    ("a@2.0.0-rc.1", 4),
    ("a@0.1.2", 5),
    ("a@0.2.0", 6),
    ("a@0.0.3", 7),
    ("b@1.0.0+10", 8),
    ("b@1.0.0+9", 9),
    ("b@1.0.0", 10),
];

/// What is found among them.
static NEWEST: [(&str, Option<u32>); 15] = [
    ("a@1.9.9", Some(3)),
    ("a@1.0.0", Some(2)),
    ("a@1.99.0+x", Some(2)),
    ("a@2.0.0", None),
    ("a@2.0.0-rc.1", Some(4)),
    ("a@2.0.0-rc.2", None),
    ("a@0.1.9", Some(5)),
    ("a@0.2.9", Some(6)),
    ("a@0.3.0", None),
    ("a@0.0.3", Some(7)),
    ("a@0.0.4", None),
    ("b@1.0.0", Some(10)),
    ("b@1.0.0+8", Some(8)),
    ("b@1.7.0", Some(8)),
    ("b@1", None),
];

#[test]
fn the_greatest_version_of_a_track_is_found(rt: HostRuntime) {
    let mut cx = NameMapNoIntern::new(rt.alloc());
    maps_to(&rt, rt.alloc(), &mut cx, &COMPATIBLE, &FOUND);
    maps_to(&rt, rt.alloc(), &mut cx, &VERSIONS, &NEWEST);
}

#[test]
fn the_greatest_version_is_found_by_numbers_of_texts(rt: HostRuntime) {
    let mut pool = StringPool::new(rt.alloc(), Seed::fixed());
    maps_to(&rt, rt.alloc(), &mut pool, &VERSIONS, &NEWEST);
    // Ten names, and the tracks `a@1`, `a@0.1`, `a@0.2` and `b@1`.
    holds(&rt, "room", pool.room() == 4294967295 - 14);
}

/// Whether a name is refused where shadowing is off.
fn is_refused(
    alloc: Global,
    map: &mut NameMap<Text, u32>,
    cx: &mut NameMapNoIntern,
    name: &str,
) -> bool {
    match Text::copy_of(alloc, name) {
        Ok(name) => map.insert(&name, cx, false, 7).err() == Some(NameError::DefinedTwice),
        Err(_) => false,
    }
}

/// Whether an error has this text.
fn says(alloc: Global, error: NameError, want: &str) -> bool {
    match format!(in alloc; "{error}") {
        Ok(text) => text.as_str() == want,
        Err(_) => false,
    }
}

#[test]
fn an_error_says_its_cause(rt: HostRuntime) {
    let twice = says(
        rt.alloc(),
        NameError::DefinedTwice,
        "the name is defined twice",
    );
    holds(&rt, "defined twice", twice);
    let refused = NameError::from(NoMemory);
    holds(&rt, "no memory", refused == NameError::NoMemory);
}

/// Whether a definition has this name and this item.
fn is_row(row: Option<(&Text, &u32)>, name: &str, item: u32) -> bool {
    match row {
        Some((key, value)) => key.as_str() == name && *value == item,
        None => false,
    }
}

/// Whether the definitions are `a` and `b`, in this order, with these items.
fn lists(map: &NameMap<Text, u32>, a: u32, b: u32) -> bool {
    let mut rows = map.raw_iter();
    is_row(rows.next(), "a", a) && is_row(rows.next(), "b", b) && rows.next().is_none()
}

/// Writes 5 under a name.
fn is_overwritten(alloc: Global, map: &mut NameMap<Text, u32>, name: &str) -> bool {
    let Ok(key) = Text::copy_of(alloc, name) else {
        return false;
    };
    match map.raw_get_mut(&key) {
        Some(item) => {
            *item = 5;
            true
        }
        None => false,
    }
}

/// Whether a copy lists `a` and `b`, in this order, with these items.
fn copy_lists(alloc: Global, map: &NameMap<Text, u32>, a: u32, b: u32) -> bool {
    match map.try_clone(alloc) {
        Ok(copy) => lists(&copy, a, b),
        Err(_) => false,
    }
}

/// The definitions of two names.
static TWO: [(&str, u32); 2] = [("a", 0), ("b", 1)];

/// What is found where a third name was refused.
static FIRST: [(&str, Option<u32>); 3] = [("a", Some(0)), ("b", Some(1)), ("c", None)];

#[test]
fn a_name_is_defined_once_or_shadowed_in_its_place(rt: HostRuntime) {
    let alloc = rt.alloc();
    let mut cx = NameMapNoIntern::new(alloc);
    let mut map = NameMap::new(alloc, Seed::fixed());
    inserts(&rt, alloc, &mut map, &mut cx, &TWO);
    holds(&rt, "refused", is_refused(alloc, &mut map, &mut cx, "a"));
    finds(&rt, &map, &cx, &FIRST);
    inserts(&rt, alloc, &mut map, &mut cx, &[("a", 2)]);
    let is_shadowed = lists(&map, 2, 1) && is_overwritten(alloc, &mut map, "a");
    holds(
        &rt,
        "shadowed",
        is_shadowed && copy_lists(alloc, &map, 5, 1),
    );
}

/// Names and their tracks: those of wasmtime's own tests, and names without a version or with an odd one. A name
/// without a track has an empty text here, which is no track.
static TRACKS: [(&str, &str); 27] = [
    ("x", ""),
    ("x:y/z", ""),
    ("x:y/z@1.0.0", "x:y/z@1"),
    ("x:y/z@1.1.0", "x:y/z@1"),
    ("x:y/z@1.1.2", "x:y/z@1"),
    ("x:y/z@2.1.2", "x:y/z@2"),
    ("x:y/z@2.1.2+abc", "x:y/z@2"),
    ("x:y/z@0.1.2", "x:y/z@0.1"),
    ("x:y/z@0.1.3", "x:y/z@0.1"),
    ("x:y/z@0.2.3", "x:y/z@0.2"),
    ("x:y/z@0.2.3+abc", "x:y/z@0.2"),
    ("x:y/z@0.0.1", ""),
    ("x:y/z@0.0.1-pre", ""),
    ("x:y/z@0.1.0-pre", ""),
    ("x:y/z@1.0.0-pre", ""),
    ("", ""),
    ("@", ""),
    ("a@", ""),
    ("a@1", ""),
    ("a@1.0.0@2.0.0", ""),
    ("a@01.0.0", ""),
    ("a@1.0.0 ", ""),
    ("a@18446744073709551616.0.0", ""),
    ("a@18446744073709551615.0.0", "a@18446744073709551615"),
    ("@1.2.3", "@1"),
    ("é@0.3.1+x.y", "é@0.3"),
    ("a@0.0.7+x", ""),
];

/// Whether a name has this track.
fn has_track(alloc: Global, name: &str, want: &str) -> bool {
    match alternate_lookup_key(alloc, name) {
        Ok(Some(found)) => found.0.as_str() == want,
        Ok(None) => want.is_empty(),
        Err(_) => false,
    }
}

#[test]
fn a_version_has_a_track(rt: HostRuntime) {
    for (name, track) in &TRACKS {
        holds(&rt, name, has_track(rt.alloc(), name, track));
    }
}
