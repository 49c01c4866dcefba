//! What the tests share.

ghost use Rattle.std.specs.Prelude.{◌≡◌, true};

use pc_entity::{Atom, Interner, Seed, Text};
use pc_inline_paths::{PathId, Paths};
use std::alloc::Global;
use std::process::Abort;

/// That something holds. All assertions stand here, since each is proved anew where it stands.
pub(crate) fn holds(rt: &impl Abort, what: &str, holds: bool)
    ensures { holds ≡ true }
{
    assert!(rt; holds, "{what}");
}

/// Texts by number, in order.
pub(crate) fn names(alloc: Global, texts: &[&str]) -> Option<Interner<Text>> {
    let mut names = Interner::new(alloc, Seed::fixed());
    for text in texts {
        add(alloc, &mut names, text)?;
    }
    Some(names)
}

/// The numbers from zero on as texts.
pub(crate) fn numbered_names(alloc: Global, count: u32) -> Option<Interner<Text>> {
    let mut names = Interner::new(alloc, Seed::fixed());
    for n in 0..count {
        let text = format!(in alloc; "{n}").ok()?;
        add(alloc, &mut names, text.as_str())?;
    }
    Some(names)
}

/// One text more, if there is a number for it and memory.
fn add(alloc: Global, names: &mut Interner<Text>, text: &str) -> Option<u32> {
    let text = Text::copy_of(alloc, text).ok()?;
    if names.len() < 4294967295 {
        return names.push(text).ok();
    }
    None
}

/// The path one name further than another, if that is held, the number is that of a name and memory is there.
pub(crate) fn member(paths: &mut Paths<'_>, parent: PathId, number: Atom) -> Option<PathId> {
    if (parent.0 as usize) < paths.len() && paths.has_name(number) {
        return paths.member(parent, number).ok();
    }
    None
}

/// So many names further than a path, each of them the first.
pub(crate) fn far_member(paths: &mut Paths<'_>, from: PathId, names: u32) -> Option<PathId> {
    let mut at = from;
    for _ in 0..names {
        at = member(paths, at, Atom(0))?;
    }
    Some(at)
}

/// So many members of one instance, the first names.
pub(crate) fn many_members(paths: &mut Paths<'_>, instance: PathId, members: u32) -> Option<()> {
    for n in 0..members {
        member(paths, instance, Atom(n))?;
    }
    Some(())
}
