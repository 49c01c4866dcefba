//! A whole source read, and a whole text written.
//!
//! A source may give little at a time and a sink may take little at a time; neither call gives up for that. Input is
//! read in pieces and stops as soon as more than `MAX_INPUT` bytes have come, so that no source makes a program hold
//! more.
ghost use Rattle.std.specs.Prelude.{ℕ, ◌<◌, ◌≤◌, ◌≡◌, ◌↔◌, List, [], length, take, drop, IfOk, OnOk, OnErr, vec_len};
ghost use Rattle.pc_stream.specs.declared.whole.ReadEnd.TheVariants.{NoMemory};
ghost use Rattle.pc_stream.specs.Stream.{Takes, ShowsFault};
ghost use Rattle.pc_stream.specs.Piece.{AddsPiece};

use crate::{Failed, Sink, Source};
use std::alloc::{AllocError, Global};

/// The most bytes that an input may have: 64 MiB.
pub const MAX_INPUT: usize = 67108864;

/// How many bytes a read may give.
const PIECE: usize = 65536;

/// Why a source was not read to its end.
#[derive(Clone, Copy, Debug, PartialEq, Eq)]
pub enum ReadEnd {
    /// A read failed.
    Fault,
    /// The source gave more than `MAX_INPUT` bytes.
    TooLong,
    /// There was no memory for its bytes.
    NoMemory,
}

impl From<AllocError> for ReadEnd {
    ghost from_gives = { λ _ e. e ≡ NoMemory };

    fn from(_: AllocError) -> Self {
        ReadEnd::NoMemory
    }
}

/// All the bytes of a source, up to its end. It holds at most `MAX_INPUT` of them and one piece.
pub fn read_all<S: Source>(alloc: Global, src: &mut S) -> Result<Vec<u8>, ReadEnd>
    // Where bytes are told, the answer is all of them, and none is left.
    ensures whole { IfOk result (λ bytes. (told : List ℕ) → S.left src.old ≡ Some told
        → (bytes.items ≡ told) × (S.left src.new ≡ Some [])) }
    ensures fits { IfOk result (λ bytes. length bytes.items ≤ MAX_INPUT) }

    // Where bytes are told, n of them were given, from the front, and it is too long exactly where n is above the
    // limit.
    ensures too_long { (told : List ℕ) → S.left src.old ≡ Some told → (n : ℕ) × (n ≤ length told)
        × (S.left src.new ≡ Some (drop n told)) × ((result ≡ Err ReadEnd.TooLong) ↔ (MAX_INPUT < n)) }

    ensures fault { result ≡ Err ReadEnd.Fault → ShowsFault (S.faults src.old) (S.faults src.new) }
    ensures never_falls { S.faults src.old ≤ S.faults src.new }
{
    let mut piece = piece_of_zeros(alloc)?;
    let mut bytes = Vec::new(alloc);
    while read_piece(src, &mut piece, &mut bytes)? {}
    Ok(bytes)
}

/// Room for one piece.
fn piece_of_zeros(alloc: Global) -> Result<Vec<u8>, AllocError>
    ensures { IfOk result (λ piece. 0 < vec_len piece) }
{
    vec![in alloc; 0; PIECE]
}

/// Reads one piece and adds it to the bytes. It answers whether there was one.
fn read_piece<S: Source>(
    src: &mut S,
    piece: &mut [u8],
    bytes: &mut Vec<u8>,
) -> Result<bool, ReadEnd>
    requires room { 0 < length piece.old }
    requires fits { vec_len bytes.old ≤ MAX_INPUT }
    ensures adds { AddsPiece (S.left src.old) (S.left src.new) bytes.old.items bytes.new.items result }
    ensures still_fits { vec_len bytes.new ≤ MAX_INPUT }
    ensures fault { result ≡ Err ReadEnd.Fault → ShowsFault (S.faults src.old) (S.faults src.new) }
    ensures never_falls { S.faults src.old ≤ S.faults src.new }
{
    let n = match src.read(piece) {
        Ok(n) => n,
        Err(Failed) => return Err(ReadEnd::Fault),
    };
    if n > MAX_INPUT - bytes.len() {
        return Err(ReadEnd::TooLong);
    }
    bytes.extend_from_slice(&piece[..n])?;
    Ok(n > 0)
}

/// Writes the whole text. Each write offers all that is left of it, and it takes no memory.
pub fn write_all<W: Sink>(out: &mut W, text: &[u8]) -> Result<(), Failed>
    ensures ok { OnOk result (Takes (W.written out.old) (W.written out.new) text.now) }
    ensures err { OnErr result ((n : ℕ) × (n ≤ length text.now)
        × Takes (W.written out.old) (W.written out.new) (take n text.now)) }
    ensures cause { OnErr result (ShowsFault (W.faults out.old) (W.faults out.new)) }
    ensures never_falls { W.faults out.old ≤ W.faults out.new }
{
    let mut taken = 0;
    while taken < text.len() {
        taken += out.write(&text[taken..])?;
    }
    Ok(())
}
