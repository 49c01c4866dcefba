//! The text of how many bytes the context of a plan takes.

ghost use Rattle.std.specs.Prelude.{◌≡◌, ◌++◌, IfOk, OnOk};
ghost use Rattle.pc_text.specs.ContextText.{context_text, size_line};

use pc_entity::NoMemory;
use pc_text_pieces::{put, put_maybe_number};
use std::alloc::Global;

/// A line that begins with this head and ends with a size.
fn put_size(out: &mut Vec<u8>, head: &str, size: Option<u32>) -> Result<(), NoMemory>
    ensures { OnOk result (out.new.items ≡ out.old.items ++ size_line head.now size) }
{
    put(out, head)?;
    put_maybe_number(out, size)?;
    put(out, "\n")
}

/// The text of a context's size: a line for pointers of four bytes and one for pointers of eight. A dash stands where
/// there is no size.
pub fn context_text(
    alloc: Global,
    four: Option<u32>,
    eight: Option<u32>,
) -> Result<Vec<u8>, NoMemory>
    ensures { IfOk result (λ text. text.items ≡ context_text four eight) }
{
    let mut out = Vec::new(alloc);
    put_size(&mut out, "context 4", four)?;
    put_size(&mut out, "context 8", eight)?;
    Ok(out)
}
