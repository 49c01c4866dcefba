//! How a string is copied from one memory into another, and why an adapter may trap.

ghost use Rattle.std.specs.Prelude.{◌≡◌, Some, slice_get};
ghost use Rattle.pc_spec_plan.specs.Text.{transcodings};
ghost use Rattle.pc_trampoline.specs.Transcoding.{alignment_of, descriptions, place_of, width_of};

/// An encoding of strings that is known when an adapter is compiled.
#[derive(Clone, Copy, PartialEq, Eq, Hash)]
pub enum FixedEncoding {
    Utf8,
    Utf16,
    Latin1,
}

/// What a transcoder does: it copies a string as it is, or changes its encoding.
#[derive(Clone, Copy, PartialEq, Eq, Hash)]
pub enum Transcode {
    Copy(FixedEncoding),
    Latin1ToUtf16,
    Latin1ToUtf8,
    Utf16ToCompactProbablyUtf16,
    Utf16ToCompactUtf16,
    Utf16ToLatin1,
    Utf16ToUtf8,
    Utf8ToCompactUtf16,
    Utf8ToLatin1,
    Utf8ToUtf16,
}

/// The code of a trap.
#[derive(Clone, Copy, PartialEq, Eq, Hash)]
pub struct Trap(pub u8);

impl FixedEncoding {
    /// How many bytes a unit of it takes.
    pub fn width(&self) -> u8
        ensures { result ≡ width_of self.now }
    {
        match self {
            FixedEncoding::Utf8 => 1,
            FixedEncoding::Utf16 => 2,
            FixedEncoding::Latin1 => 1,
        }
    }

    /// What the address of a string of it is a multiple of.
    pub fn align(&self) -> u8
        ensures { result ≡ alignment_of self.now }
    {
        match self {
            FixedEncoding::Utf8 => 1,
            FixedEncoding::Utf16 => 2,
            FixedEncoding::Latin1 => 2,
        }
    }
}

impl Transcode {
    /// Its word in the symbol of a transcoder.
    pub fn symbol_fragment(&self) -> &'static str
        ensures { slice_get transcodings (place_of self.now) ≡ Some result.now }
    {
        match self {
            Transcode::Copy(FixedEncoding::Utf8) => "copy_utf8",
            Transcode::Copy(FixedEncoding::Utf16) => "copy_utf16",
            Transcode::Copy(FixedEncoding::Latin1) => "copy_latin1",
            Transcode::Latin1ToUtf16 => "latin1_to_utf16",
            Transcode::Latin1ToUtf8 => "latin1_to_utf8",
            Transcode::Utf16ToCompactProbablyUtf16 => "utf16_to_compact_probably_utf16",
            Transcode::Utf16ToCompactUtf16 => "utf16_to_compact_utf16",
            Transcode::Utf16ToLatin1 => "utf16_to_latin1",
            Transcode::Utf16ToUtf8 => "utf16_to_utf8",
            Transcode::Utf8ToCompactUtf16 => "utf8_to_compact_utf16",
            Transcode::Utf8ToLatin1 => "utf8_to_latin1",
            Transcode::Utf8ToUtf16 => "utf8_to_utf16",
        }
    }

    /// What it does, in words.
    pub fn desc(&self) -> &'static str
        ensures { slice_get descriptions (place_of self.now) ≡ Some result.now }
    {
        match self {
            Transcode::Copy(FixedEncoding::Utf8) => "utf8-to-utf8",
            Transcode::Copy(FixedEncoding::Utf16) => "utf16-to-utf16",
            Transcode::Copy(FixedEncoding::Latin1) => "latin1-to-latin1",
            Transcode::Latin1ToUtf16 => "latin1-to-utf16",
            Transcode::Latin1ToUtf8 => "latin1-to-utf8",
            Transcode::Utf16ToCompactProbablyUtf16 => "utf16-to-compact-probably-utf16",
            Transcode::Utf16ToCompactUtf16 => "utf16-to-compact-utf16",
            Transcode::Utf16ToLatin1 => "utf16-to-latin1",
            Transcode::Utf16ToUtf8 => "utf16-to-utf8",
            Transcode::Utf8ToCompactUtf16 => "utf8-to-compact-utf16",
            Transcode::Utf8ToLatin1 => "utf8-to-latin1",
            Transcode::Utf8ToUtf16 => "utf8-to-utf16",
        }
    }
}
