//! String encodings of lifted and lowered functions.

ghost use Rattle.std.specs.Prelude.{◌≡◌, ◌∷◌, [], slice_get};
ghost use Rattle.pc_types.specs.declared.encoding.StringEncoding.TheVariants as encoding;

/// How a side of a call spells its strings in linear memory.
#[derive(Clone, Copy, Debug, PartialEq, Eq, Hash)]
pub enum StringEncoding {
    Utf8,
    Utf16,
    CompactUtf16,
}

impl StringEncoding {
    /// The encoding of a number, if it is one of an encoding.
    pub fn from_u8(val: u8) -> Option<StringEncoding>
        ensures { result ≡ slice_get (encoding.Utf8 ∷ encoding.Utf16 ∷ encoding.CompactUtf16 ∷ []) val }
    {
        match val {
            0 => Some(StringEncoding::Utf8),
            1 => Some(StringEncoding::Utf16),
            2 => Some(StringEncoding::CompactUtf16),
            _ => None,
        }
    }
}
