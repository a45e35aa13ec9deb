//! A disk in memory whose calls fail where they are told to.

ghost use Rattle.std.specs.Prelude.{◌≡◌, ◌≢◌, ◌+◌, ◌-◌, ◌^◌, ◌<◌, ◌≤◌, ◌&&◌, ◌||◌, ℕ, List, [], ◌∷◌, ◌++◌, Bool, true, false, not, if◌then◌else◌, length, take, IfOk, IsOk, OnOk, OnErr};
ghost use Rattle.opfs_memory.specs.Counts.{counted, is_named};
ghost use Rattle.opfs_memory.specs.Drives.{is_after, passes_room, call_fails, call_reply, call_after, written_event, synced_event, read_from, content_of, synced_of, replayed, Idle, Wrote, Synced, Platter, after_event, IsImageOf, IsCrash};
ghost use Rattle.opfs_memory.specs.KeptEvents.{event_of, IsInside};
ghost use Rattle.opfs_outside.specs.Bytes.{window};

use crate::bytes::overwrite;
use opfs_outside::{Disk, Failed};
use std::alloc::{AllocError, Global};
use std::marker::Model;

/// A kept call: nothing was done, as by a read; a write, whose bytes begin at `start` in those of all writes; or
/// a sync.
#[derive(Clone, Copy)]
enum Kept {
    Nothing,
    Write {
        at: usize,
        start: usize,
        len: usize,
        done: bool,
    },
    Sync,
}

/// A disk in memory that keeps its calls. They are numbered from 1, `len` aside. A call fails exactly where its
/// number is named, comes after the stop, or finds no room; one that finds no room is not kept and touches no byte.
#[derive(Drop)]
pub struct MemDisk {
    first: Vec<u8>,
    content: Vec<u8>,
    synced: Vec<u8>,
    log: Vec<Kept>,
    bytes: Vec<u8>,
    fails: Vec<u64>,
    stop: Option<u64>,
    room_calls: usize,
    room_bytes: usize,
    calls: u64,
    faults: u64,
}

impl Model for MemDisk {
    ghost use Rattle.opfs_memory.specs.Drives.{Drive};

    ghost Value = { Drive };

    ghost use Rattle.opfs_memory.specs.KeptCalls.{drive_of, IsInOrder};

    ghost view = { drive_of };

    ghost invariant = { IsInOrder };
}

impl MemDisk {
    /// A disk of these bytes, with room for so many calls and so many written bytes. The calls that `fails` names
    /// fail, and those after `stop`.
    pub fn make(
        alloc: Global,
        content: Vec<u8>,
        fails: Vec<u64>,
        stop: Option<u64>,
        calls: u64,
        bytes: u64,
    ) -> Result<MemDisk, AllocError>
        ensures { IfOk result (λ disk. disk ≡ record { first = content.items; log = []; fails = fails.items; stop = stop; room_calls = calls; room_bytes = bytes; used = 0; calls = 0; faults = 0 }) }
    {
        Ok(MemDisk {
            first: content.to_vec(alloc)?,
            synced: content.to_vec(alloc)?,
            content,
            log: Vec::with_capacity(alloc, calls as usize)?,
            bytes: Vec::with_capacity(alloc, bytes as usize)?,
            fails,
            stop,
            room_calls: calls as usize,
            room_bytes: bytes as usize,
            calls: 0,
            faults: 0,
        })
    }

    /// The number of kept calls.
    pub fn calls(&self) -> u64
        ensures { result ≡ length self.now.log }
    {
        self.log.len() as u64
    }

    /// What a read gives.
    pub fn content(&self) -> &[u8]
        ensures { result.now ≡ content_of self.now }
    {
        &self.content
    }

    /// What the last successful sync left, and at first the first content.
    pub fn synced(&self) -> &[u8]
        ensures { result.now ≡ synced_of self.now }
    {
        &self.synced
    }

    /// The image that a crash leaves after so many calls: the bytes of `choice` in each range that was written since
    /// the last successful sync among them, also where the write failed; elsewhere what that sync left, or the first
    /// content where there was none.
    pub fn image(&self, alloc: Global, calls: u64, choice: &[u8]) -> Result<Vec<u8>, AllocError>
        requires kept { calls ≤ length self.now.log }
        requires whole { length choice.now ≡ length self.now.first }
        ensures { IfOk result (λ image. IsImageOf (replayed self.now.first (take calls self.now.log)) choice.now image.items) }
    {
        let mut content = self.first.to_vec(alloc)?;
        let mut image = self.first.to_vec(alloc)?;
        for kept in &self.log[..calls as usize] {
            crash_after(&mut content, &mut image, kept, &self.bytes, choice);
        }
        Ok(image)
    }

    /// How many calls failed.
    pub fn faults(&self) -> u64
        ensures { result ≡ self.now.faults }
    {
        self.faults
    }

    fn has_room(&self, bytes: usize) -> bool
        ensures { result ≡ not (passes_room self.now bytes) }
    {
        self.log.len() < self.room_calls && bytes <= self.room_bytes - self.bytes.len()
    }

    fn is_named(&self) -> bool
        ensures { result ≡ (is_named self.now.fails (counted self.now.calls) || is_after self.now.stop (counted self.now.calls)) }
    {
        let number = self.calls.saturating_add(1);
        self.fails.contains(&number) || self.stop.is_some_and(|stop| stop < number)
    }

    // Counts a call that was done.
    fn answer(&mut self, fails: bool) -> Result<(), Failed>
        ensures reply { result ≡ (if fails then Err (record {}) else Ok (tt {0})) }
        ensures after { self.new ≡ record self.old { calls = counted self.old.calls; faults = if fails then counted self.old.faults else self.old.faults } }
    {
        self.calls = self.calls.saturating_add(1);
        if fails {
            self.faults = self.faults.saturating_add(1);
            return Err(Failed);
        }
        Ok(())
    }

    // Keeps a call that did nothing.
    fn keep_nothing(&mut self)
        requires { passes_room self.old 0 ≡ false }
        ensures { self.new ≡ record self.old { log = self.old.log ++ Idle ∷ [] } }
    {
        self.log.push(Kept::Nothing).unwrap();
    }

    // Keeps a write, which was done or not.
    fn keep_write(&mut self, at: usize, bytes: &[u8], done: bool)
        requires fits { at + length bytes.now ≤ length self.old.first }
        requires room { passes_room self.old (length bytes.now) ≡ false }
        ensures { self.new ≡ record self.old { log = self.old.log ++ Wrote at bytes.now done ∷ []; used = self.old.used + length bytes.now } }
    {
        let start = self.bytes.len();
        let len = bytes.len();
        self.bytes.extend_from_slice(bytes).unwrap();
        self.log
            .push(Kept::Write {
                at,
                start,
                len,
                done,
            })
            .unwrap();
        if done {
            overwrite(&mut self.content, at, bytes);
        }
    }

    // Keeps a sync that was done.
    fn keep_sync(&mut self)
        requires { passes_room self.old 0 ≡ false }
        ensures { self.new ≡ record self.old { log = self.old.log ++ Synced ∷ [] } }
    {
        self.log.push(Kept::Sync).unwrap();
        self.synced.copy_from_slice(&self.content);
    }

    fn copy_out(&self, at: usize, buf: &mut [u8])
        requires { at + length buf.old ≤ length self.now.first }
        ensures { buf.new ≡ window (content_of self.now) at (length buf.old) }
    {
        buf.copy_from_slice(&self.content[at..at + buf.len()]);
    }

    fn read_once(&mut self, at: usize, buf: &mut [u8]) -> Result<(), Failed>
        requires { at + length buf.old ≤ length self.old.first }
        ensures reply { result ≡ call_reply self.old 0 }
        ensures after { self.new ≡ call_after self.old 0 Idle }
        ensures bytes { buf.new ≡ read_from self.old at buf.old }
    {
        if !self.has_room(0) {
            return self.answer(true);
        }
        let fails = self.is_named();
        if !fails {
            self.copy_out(at, buf);
        }
        self.keep_nothing();
        self.answer(fails)
    }

    fn write_once(&mut self, at: usize, bytes: &[u8]) -> Result<(), Failed>
        requires { at + length bytes.now ≤ length self.old.first }
        ensures reply { result ≡ call_reply self.old (length bytes.now) }
        ensures after { self.new ≡ call_after self.old (length bytes.now) (written_event self.old at bytes.now) }
    {
        if !self.has_room(bytes.len()) {
            return self.answer(true);
        }
        let fails = self.is_named();
        self.keep_write(at, bytes, !fails);
        self.answer(fails)
    }

    fn sync_once(&mut self) -> Result<(), Failed>
        ensures reply { result ≡ call_reply self.old 0 }
        ensures after { self.new ≡ call_after self.old 0 (synced_event self.old) }
    {
        if !self.has_room(0) {
            return self.answer(true);
        }
        let fails = self.is_named();
        if fails {
            self.keep_nothing();
        } else {
            self.keep_sync();
        }
        self.answer(fails)
    }
}

// One kept call more: what the disk reads as, and the image that a crash then leaves.
fn crash_after(content: &mut [u8], image: &mut [u8], kept: &Kept, bytes: &[u8], choice: &[u8])
    requires inside { IsInside (length bytes.now) (length content.old) kept.now }
    requires image { length image.old ≡ length content.old }
    requires whole { length choice.now ≡ length content.old }
    ensures { (p : Platter) → content.old ≡ p.content → IsImageOf p choice.now image.old → IsCrash (after_event p (event_of bytes.now kept.now)) choice.now content.new image.new }
{
    match *kept {
        Kept::Nothing => {}
        Kept::Write {
            at,
            start,
            len,
            done,
        } => {
            if done {
                overwrite(content, at, &bytes[start..start + len]);
            }
            overwrite(image, at, &choice[at..at + len]);
        }
        Kept::Sync => image.copy_from_slice(content),
    }
}

impl Disk for MemDisk {
    ghost use Rattle.std.specs.Prelude.{◌≡◌, ◌+◌, ◌-◌, ◌^◌, ◌<◌, ◌≤◌, ℕ, List, length, min, OnOk, OnErr};
    ghost use Rattle.opfs_outside.specs.Bytes.{Same, window, Beside};
    ghost use Rattle.opfs_outside.specs.Faults.{Rose};
    ghost use Rattle.opfs_outside.specs.Moments.{Elapses};
    ghost use Rattle.opfs_memory.specs.Drives.{content_of, moment_of, LeftSince, call_reply, call_after, written_event, synced_event, read_from, Idle};

    ghost tells = { Unit {0} };

    ghost crashes = { Unit {0} };

    ghost size = { λ disk. length disk.first };

    ghost content = { content_of };

    ghost moment = { moment_of };

    ghost since = { LeftSince };

    ghost faults = { λ disk. min disk.faults (2 ^ 64 - 1) };

    fn len(&self) -> u64
        ensures { result ≡ length self.now.first }
    {
        self.first.len() as u64
    }

    fn read(&mut self, at: u64, buf: &mut [u8]) -> Result<(), Failed>
        requires { at + length buf.old ≤ length self.old.first }
        ensures reply { result ≡ call_reply self.old 0 }
        ensures after { self.new ≡ call_after self.old 0 Idle }
        ensures filled { buf.new ≡ read_from self.old at buf.old }
        ensures size { length self.new.first ≡ length self.old.first }
        ensures bytes { OnOk result (buf.new ≡ window (content_of self.old) at (length buf.new)) }
        ensures same { content_of self.new ≡ content_of self.old }
        ensures time { Elapses moment_of LeftSince self.old self.new }
        ensures moments { (c : List ℕ) → LeftSince self.new (moment_of self.old) c → LeftSince self.old (moment_of self.old) c }
        ensures later { min self.old.faults (2 ^ 64 - 1) ≤ min self.new.faults (2 ^ 64 - 1) }
        ensures cause { OnErr result (Rose (min self.old.faults (2 ^ 64 - 1)) (min self.new.faults (2 ^ 64 - 1))) }
    {
        self.read_once(at as usize, buf)
    }

    fn write(&mut self, at: u64, bytes: &[u8]) -> Result<(), Failed>
        requires { at + length bytes.now ≤ length self.old.first }
        ensures reply { result ≡ call_reply self.old (length bytes.now) }
        ensures after { self.new ≡ call_after self.old (length bytes.now) (written_event self.old at bytes.now) }
        ensures size { length self.new.first ≡ length self.old.first }
        ensures written { OnOk result (window (content_of self.new) at (length bytes.now) ≡ bytes.now) }
        ensures elsewhere { Same (Beside at (length bytes.now)) (content_of self.new) (content_of self.old) }
        ensures time { Elapses moment_of LeftSince self.old self.new }
        ensures moments { (c : List ℕ) → LeftSince self.new (moment_of self.old) c
            → (d : List ℕ) × LeftSince self.old (moment_of self.old) d × Same (Beside at (length bytes.now)) c d }
        ensures later { min self.old.faults (2 ^ 64 - 1) ≤ min self.new.faults (2 ^ 64 - 1) }
        ensures cause { OnErr result (Rose (min self.old.faults (2 ^ 64 - 1)) (min self.new.faults (2 ^ 64 - 1))) }
    {
        self.write_once(at as usize, bytes)
    }

    fn sync(&mut self) -> Result<(), Failed>
        ensures reply { result ≡ call_reply self.old 0 }
        ensures after { self.new ≡ call_after self.old 0 (synced_event self.old) }
        ensures size { length self.new.first ≡ length self.old.first }
        ensures same { content_of self.new ≡ content_of self.old }
        ensures durable { OnOk result ((c : List ℕ) → LeftSince self.new (moment_of self.new) c → c ≡ content_of self.new) }
        ensures time { Elapses moment_of LeftSince self.old self.new }
        ensures moments { (c : List ℕ) → LeftSince self.new (moment_of self.old) c → LeftSince self.old (moment_of self.old) c }
        ensures later { min self.old.faults (2 ^ 64 - 1) ≤ min self.new.faults (2 ^ 64 - 1) }
        ensures cause { OnErr result (Rose (min self.old.faults (2 ^ 64 - 1)) (min self.new.faults (2 ^ 64 - 1))) }
    {
        self.sync_once()
    }

    ghost use Rattle.opfs_memory.specs.Laws.{capped};
    ghost use Rattle.opfs_memory.specs.DriveLaws.{drive_full, drive_whole, drive_falls, drive_reads};

    ghost counted = { λ disk. capped disk.faults };

    ghost full = { λ _. drive_full };

    ghost whole = { λ _. drive_whole };

    ghost falls = { λ _. drive_falls };

    ghost reads = { λ _. drive_reads };
}
