//! What a source and a sink promise, whatever stands behind them.
//!
//! A stream says what it knows: the bytes that are left, or written, where it can tell them, and how often it has
//! failed. A file or a pipe tells no bytes, and a stream in memory does, so one contract serves both. The count of
//! faults is what gives a failure its cause: no caller can raise it, so whoever answers for a failed call has the count
//! to show for it.
ghost use Rattle.std.specs.Prelude.{ℕ, ◌<◌, ◌≤◌, ◌≡◌, List, [], length, take, Option, IfOk, OnErr};
ghost use Rattle.pc_stream.specs.Stream.{Gives, Takes, IsAtEnd, ShowsFault};

/// A call of a stream failed: it gave or took nothing.
#[derive(Clone, Copy, Debug, PartialEq, Eq)]
pub struct Failed;

/// What gives bytes.
pub trait Source {
    /// The bytes that are left, where the source tells them.
    ghost left: { Self → Option (List ℕ) };

    /// How often it has failed, up to the last value of a `u64`, where the count stays.
    ghost faults: { Self → ℕ };

    /// Puts bytes at the front of `buf`, and answers how many. What `buf` holds past them is open, also after `Failed`.
    /// An answer of no bytes is the end, unless the buffer had no room.
    fn read(&mut self, buf: &mut [u8]) -> Result<usize, Failed>
        ensures within { IfOk result (λ n. n ≤ length buf.old) }
        ensures front { IfOk result (λ n. Gives (left self.old) (left self.new) (take n buf.new)) }
        ensures end { IfOk result (λ n. n ≡ 0 → 0 < length buf.old → IsAtEnd (left self.new)) }
        ensures failed_gives_nothing { OnErr result (Gives (left self.old) (left self.new) []) }
        ensures never_falls { faults self.old ≤ faults self.new }
        ensures cause { OnErr result (ShowsFault (faults self.old) (faults self.new)) };
}

/// What takes bytes.
pub trait Sink {
    /// The bytes that are written, where the sink tells them.
    ghost written: { Self → Option (List ℕ) };

    /// How often it has failed, up to the last value of a `u64`, where the count stays.
    ghost faults: { Self → ℕ };

    /// Takes bytes from the front of `piece`, and answers how many: one at least, if `piece` has one.
    fn write(&mut self, piece: &[u8]) -> Result<usize, Failed>
        ensures within { IfOk result (λ n. n ≤ length piece.now) }
        ensures some { IfOk result (λ n. 0 < length piece.now → 0 < n) }
        ensures front { IfOk result (λ n. Takes (written self.old) (written self.new) (take n piece.now)) }
        ensures failed_takes_nothing { OnErr result (Takes (written self.old) (written self.new) []) }
        ensures never_falls { faults self.old ≤ faults self.new }
        ensures cause { OnErr result (ShowsFault (faults self.old) (faults self.new)) };
}
