//! What a module defines that its importers know, a line each.

ghost use Rattle.std.specs.Prelude.{◌≡◌, ◌++◌, OnOk};
ghost use Rattle.pc_spec_facts.specs.Recorded.{is_known_by};
ghost use Rattle.pc_spec_facts.specs.Text.{each_below, known_line};

use crate::line::put_head;
use pc_entity::{EntityRef, NoMemory};
use pc_info::KnownToImporters;
use pc_text_pieces::put;

/// The line of an entity, if importers know it.
fn put_entity(
    out: &mut Vec<u8>,
    word: &str,
    place: usize,
    n: u32,
    is_known: bool,
) -> Result<(), NoMemory>
    ensures { OnOk result (out.new.items ≡ out.old.items ++ known_line word.now place n is_known) }
{
    if is_known {
        put_head(out, word, place, n)?;
        put(out, "\n")
    } else {
        Ok(())
    }
}

/// A line for each of so many entities that importers know.
pub(crate) fn put_known<K: EntityRef>(
    out: &mut Vec<u8>,
    word: &str,
    place: usize,
    defined: u32,
    known: &KnownToImporters<K>,
) -> Result<(), NoMemory>
    ensures { OnOk result (out.new.items ≡ out.old.items
        ++ each_below defined (λ n. known_line word.now place n (is_known_by known.now n))) }
{
    for n in 0..defined {
        put_entity(out, word, place, n, known.contains(K::from_u32(n)))?;
    }
    Ok(())
}
