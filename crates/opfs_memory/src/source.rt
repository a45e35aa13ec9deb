//! A source in memory.

ghost use Rattle.std.specs.Prelude.{◌≡◌, ◌++◌, ◌-◌, ◌+◌, ◌^◌, ◌<◌, ◌≤◌, ℕ, List, [], length, take, min, IfOk, OnErr};
ghost use Rattle.opfs_outside.specs.Faults.{Rose};
ghost use Rattle.opfs_memory.specs.Streams.{read_reply, read_after, read_bytes};

use opfs_outside::{Failed, Source};
use std::marker::Model;

/// Bytes in memory that are read from their begin. Its calls are numbered from 1; it fails exactly at the numbers
/// that it was given.
#[derive(Drop)]
pub struct MemSource {
    content: Vec<u8>,
    at: usize,
    fails: Vec<u64>,
    calls: u64,
    faults: u64,
}

impl Model for MemSource {
    ghost use Rattle.std.specs.Prelude.{◌≤◌, length, drop};
    ghost use Rattle.opfs_memory.specs.Streams.{Feed};

    ghost Value = { Feed };

    ghost view = { λ s. record { rest = drop s.at s.content.items; fails = s.fails.items; calls = s.calls; faults = s.faults } };

    ghost invariant = { λ s. s.at ≤ length s.content.items };
}

impl MemSource {
    /// A source of these bytes whose calls of these numbers fail. Takes no memory.
    pub fn make(content: Vec<u8>, fails: Vec<u64>) -> MemSource
        ensures { result ≡ record { rest = content.items; fails = fails.items; calls = 0; faults = 0 } }
    {
        MemSource {
            content,
            at: 0,
            fails,
            calls: 0,
            faults: 0,
        }
    }
}

impl Source for MemSource {
    ghost use Rattle.std.specs.Prelude.{◌-◌, ◌^◌, min};

    ghost tells = { Unit {0} };

    ghost rest = { λ s. s.rest };

    ghost faults = { λ s. min s.faults (2 ^ 64 - 1) };

    fn read(&mut self, buf: &mut [u8]) -> Result<usize, Failed>
        ensures reply { result ≡ read_reply self.old (length buf.old) }
        ensures after { self.new ≡ read_after self.old (length buf.old) }
        ensures bytes { buf.new ≡ read_bytes self.old buf.old }
    {
        self.calls = self.calls.saturating_add(1);
        if self.fails.contains(&self.calls) {
            self.faults = self.faults.saturating_add(1);
            return Err(Failed);
        }
        let count = buf.len().min(self.content.len() - self.at);
        buf[..count].copy_from_slice(&self.content[self.at..self.at + count]);
        self.at += count;
        Ok(count)
    }

    ghost use Rattle.opfs_memory.specs.Laws.{capped};

    ghost counted = { λ s. capped s.faults };
}
