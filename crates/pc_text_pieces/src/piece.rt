//! The pieces that lines are made of. Each function appends one, and leaves what stands before it.

ghost use Rattle.std.specs.Prelude.{◌≡◌, ◌++◌, OnOk, option_map};
ghost use Rattle.std.specs.List.{flat_map};
ghost use Rattle.std.specs.Fmt.{decimal};
ghost use Rattle.pc_spec_plan.specs.Text.{escaped, maybe_number, number, quoted};

use itoa::Buffer;
use pc_entity::{EntityRef, NoMemory};

/// The text as it is.
pub fn put(out: &mut Vec<u8>, text: &str) -> Result<(), NoMemory>
    ensures { OnOk result (out.new.items ≡ out.old.items ++ text.now) }
{
    out.extend_from_slice(text.as_bytes())?;
    Ok(())
}

/// A number, with no space before it.
pub(crate) fn put_decimal(out: &mut Vec<u8>, n: u64) -> Result<(), NoMemory>
    ensures { OnOk result (out.new.items ≡ out.old.items ++ decimal n) }
{
    let mut digits = Buffer::new();
    put(out, digits.format(n))
}

/// A number after a space.
pub fn put_number(out: &mut Vec<u8>, n: u64) -> Result<(), NoMemory>
    ensures { OnOk result (out.new.items ≡ out.old.items ++ number n) }
{
    put(out, " ")?;
    put_decimal(out, n)
}

/// A number after a space, or a dash where there is none.
pub fn put_maybe_number(out: &mut Vec<u8>, n: Option<u32>) -> Result<(), NoMemory>
    ensures { OnOk result (out.new.items ≡ out.old.items ++ maybe_number n) }
{
    match n {
        None => put(out, " -"),
        Some(n) => put_number(out, u64::from(n)),
    }
}

/// Each number after a space.
pub fn put_numbers(out: &mut Vec<u8>, numbers: &[u64]) -> Result<(), NoMemory>
    ensures { OnOk result (out.new.items ≡ out.old.items ++ flat_map number numbers.now) }
{
    for n in numbers {
        put_number(out, *n)?;
    }
    Ok(())
}

/// The number of a key after a space.
pub fn put_key<K: EntityRef>(out: &mut Vec<u8>, key: K) -> Result<(), NoMemory>
    ensures { OnOk result (out.new.items ≡ out.old.items ++ number (K.number key)) }
{
    put_number(out, u64::from(key.as_u32()))
}

/// The number of a key after a space, or a dash where there is none.
pub fn put_maybe_key<K: EntityRef>(out: &mut Vec<u8>, key: Option<K>) -> Result<(), NoMemory>
    ensures { OnOk result (out.new.items ≡ out.old.items ++ maybe_number (option_map K.number key)) }
{
    match key {
        None => put(out, " -"),
        Some(key) => put_key(out, key),
    }
}

/// A name between double quotes, in which a quote, a backslash and a line feed stand behind a backslash.
pub fn put_quoted(out: &mut Vec<u8>, name: &str) -> Result<(), NoMemory>
    ensures { OnOk result (out.new.items ≡ out.old.items ++ quoted name.now) }
{
    put(out, "\"")?;
    put_all_escaped(out, name.as_bytes())?;
    put(out, "\"")
}

/// The bytes of a name, each as it stands between quotes.
fn put_all_escaped(out: &mut Vec<u8>, bytes: &[u8]) -> Result<(), NoMemory>
    ensures { OnOk result (out.new.items ≡ out.old.items ++ flat_map escaped bytes.now) }
{
    for byte in bytes {
        put_escaped(out, *byte)?;
    }
    Ok(())
}

/// A byte of a name as it stands between quotes.
fn put_escaped(out: &mut Vec<u8>, byte: u8) -> Result<(), NoMemory>
    ensures { OnOk result (out.new.items ≡ out.old.items ++ escaped byte) }
{
    match byte {
        b'"' => put(out, "\\\""),
        b'\\' => put(out, "\\\\"),
        b'\n' => put(out, "\\n"),
        _ => {
            out.push(byte)?;
            Ok(())
        }
    }
}
