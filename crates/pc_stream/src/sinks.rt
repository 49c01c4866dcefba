//! Sinks that keep what they take in memory: one that never fails, and one for tests, which takes little a call and
//! fails the calls that it is told to.
ghost use Rattle.std.specs.Prelude.{◌<◌, ◌≤◌, ◌≡◌, ◌↔◌, length, take, min, true, IsErr, IfOk, OnErr, vec_capacity};
ghost use Rattle.pc_stream.specs.Memory.{FailsNext, calls_after_success, calls_after_fault, store_with, told_bytes};

use crate::calls::CallCounter;
use crate::{Failed, Sink};
use std::marker::Model;

/// Takes each piece whole, and never fails. It keeps what fits the room that it was given, so a call takes no memory,
/// and drops the rest. It tells its bytes while nothing was dropped.
#[derive(Drop)]
pub struct SureSink {
    kept: Vec<u8>,
    // The room's capacity when it came: no contract of `Vec` says that it stays.
    capacity: usize,
    is_whole: bool,
}

impl Model for SureSink {
    ghost use Rattle.std.specs.Prelude.{◌≤◌, vec_len, vec_capacity};
    ghost use Rattle.pc_stream.specs.Memory.{Store};

    ghost Value = { Store };

    ghost view = { λ s. record { kept = s.kept.items; capacity = s.capacity; is_whole = s.is_whole } };

    ghost invariant = { λ s. (vec_len s.kept ≤ s.capacity) × (s.capacity ≤ vec_capacity s.kept) };
}

impl SureSink {
    /// What the room holds already counts as written.
    pub fn new(room: Vec<u8>) -> Self
        ensures { result ≡ record { kept = room.items; capacity = vec_capacity room; is_whole = true } }
    {
        let capacity = room.capacity();
        SureSink {
            kept: room,
            capacity,
            is_whole: true,
        }
    }

    /// The bytes that it keeps.
    pub fn kept(&self) -> &[u8]
        ensures { result.now ≡ self.now.kept }
    {
        &self.kept
    }

    /// Whether nothing was dropped.
    pub fn is_whole(&self) -> bool
        ensures { result ≡ self.now.is_whole }
    {
        self.is_whole
    }
}

impl Sink for SureSink {
    ghost written = { told_bytes };

    ghost faults = { λ _. 0 };

    fn write(&mut self, piece: &[u8]) -> Result<usize, Failed>
        ensures count { result ≡ Ok (length piece.now) }
        ensures keeps { self.new ≡ store_with self.old piece.now }
    {
        let fits = piece.len().min(self.capacity - self.kept.len());
        // There is room, so it takes no memory.
        self.kept.extend_from_slice(&piece[..fits]).unwrap();
        self.is_whole = self.is_whole && fits == piece.len();
        Ok(piece.len())
    }
}

/// Takes at most so many bytes a call, and fails the calls that it is told to fail. What it keeps, and what
/// it tells, is as with `SureSink`.
#[derive(Drop)]
pub struct MemSink {
    sink: SureSink,
    most: usize,
    calls: CallCounter,
}

impl Model for MemSink {
    ghost use Rattle.std.specs.Prelude.{◌<◌};
    ghost use Rattle.pc_stream.specs.Memory.{Intake};

    ghost Value = { Intake };

    ghost view = { λ s. record { store = s.sink; most = s.most; calls = s.calls } };

    ghost invariant = { λ s. 0 < s.most };
}

impl MemSink {
    /// What the room holds already counts as written. Calls are numbered from 0 in `fails`. The last number of a `u64`
    /// serves its call and all later ones.
    pub fn new(room: Vec<u8>, most: usize, fails: Vec<u64>) -> Self
        requires { 0 < most }
        ensures { result ≡ record {
          store = record { kept = room.items; capacity = vec_capacity room; is_whole = true };
          most = most;
          calls = record { fails = fails.items; next = 0; faults = 0 };
        } }
    {
        MemSink {
            sink: SureSink::new(room),
            most,
            calls: CallCounter::new(fails),
        }
    }

    /// The bytes that it keeps.
    pub fn kept(&self) -> &[u8]
        ensures { result.now ≡ self.now.store.kept }
    {
        self.sink.kept()
    }

    /// Whether nothing was dropped.
    pub fn is_whole(&self) -> bool
        ensures { result ≡ self.now.store.is_whole }
    {
        self.sink.is_whole()
    }

    /// How many calls have failed.
    pub fn faults(&self) -> u64
        ensures { result ≡ self.now.calls.faults }
    {
        self.calls.faults()
    }
}

impl Sink for MemSink {
    ghost written = { λ s. told_bytes s.store };

    ghost faults = { λ s. s.calls.faults };

    fn write(&mut self, piece: &[u8]) -> Result<usize, Failed>
        ensures fails { IsErr result ↔ FailsNext self.old.calls }
        ensures err { OnErr result (self.new ≡ record self.old { calls = calls_after_fault self.old.calls }) }

        ensures count { IfOk result (λ n. n ≡ min self.old.most (length piece.now)) }
        ensures ok { IfOk result (λ n. self.new ≡ record self.old {
          store = store_with self.old.store (take n piece.now);
          calls = calls_after_success self.old.calls;
        }) }

        // What holds of every sink of this type, and its value alone doesn't show.
        ensures takes_some { 0 < self.old.most }
        ensures never_falls { self.old.calls.faults ≤ self.new.calls.faults }
    {
        self.calls.begin()?;
        let n = self.most.min(piece.len());
        self.sink.write(&piece[..n])
    }
}
