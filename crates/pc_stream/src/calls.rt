//! The calls of a stream in memory, and which of them fail.
ghost use Rattle.std.specs.Prelude.{◌≡◌, ◌↔◌, ◌≤◌, IsErr, OnOk, OnErr};
ghost use Rattle.pc_stream.specs.Memory.{FailsNext, calls_after_success, calls_after_fault};

use crate::Failed;
use std::marker::Model;

/// Counts calls from 0. The call of the last number, and all later ones, go by that number.
#[derive(Drop)]
pub(crate) struct CallCounter {
    fails: Vec<u64>,
    next: u64,
    faults: u64,
}

impl Model for CallCounter {
    ghost use Rattle.pc_stream.specs.Memory.{Calls};

    ghost Value = { Calls };

    ghost view = { λ c. record { fails = c.fails.items; next = c.next; faults = c.faults } };
}

impl CallCounter {
    /// Counts from 0, where the calls of these numbers fail.
    pub(crate) fn new(fails: Vec<u64>) -> Self
        ensures { result ≡ record { fails = fails.items; next = 0; faults = 0 } }
    {
        CallCounter {
            fails,
            next: 0,
            faults: 0,
        }
    }

    /// How many calls have failed.
    pub(crate) fn faults(&self) -> u64
        ensures { result ≡ self.now.faults }
    {
        self.faults
    }

    /// Begins a call: it fails where its number is among those that fail.
    pub(crate) fn begin(&mut self) -> Result<(), Failed>
        ensures fails { IsErr result ↔ FailsNext self.old }
        ensures ok { OnOk result (self.new ≡ calls_after_success self.old) }
        ensures err { OnErr result (self.new ≡ calls_after_fault self.old) }
        ensures never_falls { self.old.faults ≤ self.new.faults }
    {
        let fails = self.fails.contains(&self.next);
        self.next = self.next.saturating_add(1);
        if fails {
            self.faults = self.faults.saturating_add(1);
            return Err(Failed);
        }
        Ok(())
    }
}
