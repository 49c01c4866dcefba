//! The parts that the lines have in common.

ghost use Rattle.std.specs.Prelude.{◌≡◌, ◌++◌, codes, OnOk, IfOk};
ghost use Rattle.pc_spec_plan.specs.Text.{number};

use pc_entity::{EntityRef, NoMemory, StaticModuleIndex};
use pc_text_pieces::{put, put_key, put_number};

/// How many numbers a list gives its items. A list with more items than there are numbers is one that no memory holds.
pub(crate) fn numbers_of(len: usize) -> Result<u32, NoMemory>
    ensures { IfOk result (λ n. n ≡ len) }
{
    if len <= u32::MAX as usize {
        Ok(len as u32)
    } else {
        Err(NoMemory)
    }
}

/// What a line begins with: its word, the number of a module, and a number in it.
pub(crate) fn put_head(out: &mut Vec<u8>, word: &str, place: usize, n: u32) -> Result<(), NoMemory>
    ensures { OnOk result (out.new.items ≡ out.old.items ++ word.now ++ number place ++ number n) }
{
    put(out, word)?;
    put_number(out, place as u64)?;
    put_number(out, u64::from(n))
}

/// What an import is known to be, where a module defines it.
pub(crate) fn put_defined<K: EntityRef>(
    out: &mut Vec<u8>,
    owner: StaticModuleIndex,
    index: K,
) -> Result<(), NoMemory>
    ensures { OnOk result (out.new.items
        ≡ out.old.items ++ codes " defined" ++ number owner.0 ++ number (K.number index)) }
{
    put(out, " defined")?;
    put_key(out, owner)?;
    put_key(out, index)
}
