//! Sources over bytes in memory: one that never fails, and one for tests, which gives little a call and fails the calls
//! that it is told to.
ghost use Rattle.std.specs.Prelude.{◌<◌, ◌≤◌, ◌≡◌, ◌↔◌, length, take, drop, min, Some, IsErr, IfOk, OnErr};
ghost use Rattle.pc_stream.specs.Memory.{FailsNext, calls_after_success, calls_after_fault};

use crate::calls::CallCounter;
use crate::{Failed, Source};
use std::marker::Model;

/// Gives all its bytes, as many a call as the buffer has room for, and never fails.
#[derive(Drop)]
pub struct SureSource {
    bytes: Vec<u8>,
    given: usize,
}

impl Model for SureSource {
    ghost use Rattle.std.specs.Prelude.{ℕ, ◌≤◌, List, drop, vec_len};

    ghost Value = { List ℕ };

    ghost view = { λ s. drop s.given s.bytes.items };

    ghost invariant = { λ s. s.given ≤ vec_len s.bytes };
}

impl SureSource {
    /// The source of these bytes.
    pub fn new(bytes: Vec<u8>) -> Self
        ensures { result ≡ bytes.items }
    {
        SureSource { bytes, given: 0 }
    }

    /// The bytes that it has not given yet.
    pub fn left(&self) -> &[u8]
        ensures { result.now ≡ self.now }
    {
        &self.bytes[self.given..]
    }
}

impl Source for SureSource {
    ghost left = { λ bytes. Some bytes };

    ghost faults = { λ _. 0 };

    fn read(&mut self, buf: &mut [u8]) -> Result<usize, Failed>
        ensures count { result ≡ Ok (min (length buf.old) (length self.old)) }
        ensures given { IfOk result (λ n. take n buf.new ≡ take n self.old) }
        ensures rest { IfOk result (λ n. self.new ≡ drop n self.old) }
    {
        let left = &self.bytes[self.given..];
        let n = buf.len().min(left.len());
        buf[..n].copy_from_slice(&left[..n]);
        self.given += n;
        Ok(n)
    }
}

/// Gives at most so many bytes a call, and fails the calls that it is told to fail.
#[derive(Drop)]
pub struct MemSource {
    source: SureSource,
    most: usize,
    calls: CallCounter,
}

impl Model for MemSource {
    ghost use Rattle.std.specs.Prelude.{◌<◌};
    ghost use Rattle.pc_stream.specs.Memory.{Supply};

    ghost Value = { Supply };

    ghost view = { λ s. record { left = s.source; most = s.most; calls = s.calls } };

    ghost invariant = { λ s. 0 < s.most };
}

impl MemSource {
    /// Calls are numbered from 0 in `fails`. The last number of a `u64` serves its call and all later ones.
    pub fn new(bytes: Vec<u8>, most: usize, fails: Vec<u64>) -> Self
        requires { 0 < most }
        ensures { result ≡ record {
          left = bytes.items;
          most = most;
          calls = record { fails = fails.items; next = 0; faults = 0 };
        } }
    {
        MemSource {
            source: SureSource::new(bytes),
            most,
            calls: CallCounter::new(fails),
        }
    }

    /// The bytes that it has not given yet.
    pub fn left(&self) -> &[u8]
        ensures { result.now ≡ self.now.left }
    {
        self.source.left()
    }

    /// How many calls have failed.
    pub fn faults(&self) -> u64
        ensures { result ≡ self.now.calls.faults }
    {
        self.calls.faults()
    }
}

impl Source for MemSource {
    ghost left = { λ s. Some s.left };

    ghost faults = { λ s. s.calls.faults };

    fn read(&mut self, buf: &mut [u8]) -> Result<usize, Failed>
        ensures fails { IsErr result ↔ FailsNext self.old.calls }
        ensures err { OnErr result (self.new ≡ record self.old { calls = calls_after_fault self.old.calls }) }

        ensures count { IfOk result (λ n. n ≡ min (min self.old.most (length buf.old)) (length self.old.left)) }
        ensures given { IfOk result (λ n. take n buf.new ≡ take n self.old.left) }
        ensures ok { IfOk result (λ n. self.new ≡ record self.old {
          left = drop n self.old.left;
          calls = calls_after_success self.old.calls;
        }) }

        // What holds of every source of this type, and its value alone doesn't show.
        ensures gives_some { 0 < self.old.most }
        ensures never_falls { self.old.calls.faults ≤ self.new.calls.faults }
    {
        self.calls.begin()?;
        let room = self.most.min(buf.len());
        self.source.read(&mut buf[..room])
    }
}
