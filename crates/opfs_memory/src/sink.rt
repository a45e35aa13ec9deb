//! A sink in memory.

ghost use Rattle.std.specs.Prelude.{◌≡◌, ◌++◌, ◌-◌, ◌+◌, ◌^◌, ◌<◌, ◌≤◌, ℕ, List, [], length, take, min, IfOk, OnErr};
ghost use Rattle.opfs_memory.specs.Streams.{write_reply, write_after};

use opfs_outside::{Failed, Sink};
use std::alloc::{AllocError, Global};
use std::marker::Model;

/// Bytes in memory, up to its room. Its calls are numbered from 1; it fails exactly at the numbers that it was
/// given, and where nothing of a piece that is not empty fits.
#[derive(Drop)]
pub struct MemSink {
    written: Vec<u8>,
    room: usize,
    fails: Vec<u64>,
    calls: u64,
    faults: u64,
}

impl Model for MemSink {
    ghost use Rattle.std.specs.Prelude.{◌≤◌, length};
    ghost use Rattle.std.specs.Vec.{vec_capacity};
    ghost use Rattle.opfs_memory.specs.Streams.{Drain};

    ghost Value = { Drain };

    ghost view = { λ s. record { written = s.written.items; room = s.room; fails = s.fails.items; calls = s.calls; faults = s.faults } };

    ghost invariant = { λ s. (s.room ≤ vec_capacity s.written) × (length s.written.items ≤ s.room) };
}

impl MemSink {
    /// A sink with room for so many bytes whose calls of these numbers fail.
    pub fn make(alloc: Global, room: u64, fails: Vec<u64>) -> Result<MemSink, AllocError>
        ensures { IfOk result (λ sink. sink ≡ record { written = []; room = room; fails = fails.items; calls = 0; faults = 0 }) }
    {
        let room = room as usize;
        Ok(MemSink {
            written: Vec::with_capacity(alloc, room)?,
            room,
            fails,
            calls: 0,
            faults: 0,
        })
    }

    /// All that it took.
    pub fn written(&self) -> &[u8]
        ensures { result.now ≡ self.now.written }
    {
        &self.written
    }
}

impl Sink for MemSink {
    ghost use Rattle.std.specs.Prelude.{◌-◌, ◌^◌, min};

    ghost tells = { Unit {0} };

    ghost written = { λ s. s.written };

    ghost faults = { λ s. min s.faults (2 ^ 64 - 1) };

    fn write(&mut self, bytes: &[u8]) -> Result<usize, Failed>
        ensures reply { result ≡ write_reply self.old (length bytes.now) }
        ensures after { self.new ≡ write_after self.old bytes.now }
    {
        self.calls = self.calls.saturating_add(1);
        let count = bytes.len().min(self.room - self.written.len());
        if self.fails.contains(&self.calls) || (count == 0 && !bytes.is_empty()) {
            self.faults = self.faults.saturating_add(1);
            return Err(Failed);
        }
        self.written.extend_from_slice(&bytes[..count]).unwrap();
        Ok(count)
    }

    ghost use Rattle.opfs_memory.specs.Laws.{capped};

    ghost counted = { λ s. capped s.faults };
}
