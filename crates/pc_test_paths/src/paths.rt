//! Paths that are taken in, and written out.

use crate::support::{far_member, holds, many_members, member, names, numbered_names};
use pc_entity::{Atom, ImportIndex, Seed, Seq, Text};
use pc_inline_paths::{PathId, Paths};
use std::alloc::Global;
use std::test::*;

/// The import and the names of a path, if it is held and memory is there.
fn written(alloc: Global, paths: &Paths<'_>, id: PathId) -> Option<(ImportIndex, Seq<Text>)> {
    if (id.0 as usize) < paths.len() {
        return paths.names(alloc, id).ok();
    }
    None
}

/// Whether the name at a place is this one.
fn is_named(names: &Seq<Text>, place: usize, name: &str) -> bool {
    match names.as_slice().get(place) {
        Some(text) => text.as_str() == name,
        None => false,
    }
}

/// The path `a` and then `b` behind import 3, which is taken in twice.
#[test]
fn a_path_is_written_out(rt: HostRuntime) {
    let texts = names(rt.alloc(), &["a", "b"]).expect(&rt, "no texts");
    let mut paths = Paths::new(rt.alloc(), Seed::fixed(), &texts);
    holds(&rt, "empty", paths.is_empty());
    let root = paths.import(ImportIndex(3)).expect(&rt, "no import");
    let a = member(&mut paths, root, Atom(0)).expect(&rt, "no a");
    let b = member(&mut paths, a, Atom(1)).expect(&rt, "no b");
    holds(&rt, "again", member(&mut paths, a, Atom(1)) == Some(b));
    holds(&rt, "no name", !paths.has_name(Atom(2)));
    holds(&rt, "ids", paths.len() == 3);
    let path = written(rt.alloc(), &paths, b).expect(&rt, "no names");
    holds(&rt, "import", path.0 == ImportIndex(3));
    holds(&rt, "names", path.1.len() == 2);
    holds(&rt, "a", is_named(&path.1, 0, "a"));
    holds(&rt, "b", is_named(&path.1, 1, "b"));
}

/// The paths have 2 * 10 ^ 10 names together.
#[test]
fn members_far_down_are_taken_in(rt: HostRuntime) {
    let texts = numbered_names(rt.alloc(), 150_000).expect(&rt, "no texts");
    let mut paths = Paths::new(rt.alloc(), Seed::fixed(), &texts);
    let root = paths.import(ImportIndex(0)).expect(&rt, "no import");
    let far = far_member(&mut paths, root, 100_000).expect(&rt, "no chain");
    let many = many_members(&mut paths, far, 150_000);
    holds(&rt, "members", many.is_some());
    holds(&rt, "ids", paths.len() == 250_001);
    let path = written(rt.alloc(), &paths, far).expect(&rt, "no names");
    holds(&rt, "names", path.1.len() == 100_000);
}
