//! A list of records on a disk that may stop at any moment.

ghost use Rattle.std.specs.Prelude.{◌≡◌, ◌≢◌, ◌⊎◌, ◌+◌, ◌*◌, ◌<◌, ◌≤◌, ℕ, true, false, List, [], ◌∷◌, ◌++◌, length, ◌↔◌, IfOk, IfErr, OnOk, OnErr, IsErrOf};
ghost use Rattle.opfs_outside.specs.Bytes.{Same, window, Beside};
ghost use Rattle.opfs_outside.specs.Faults.{Rose};
ghost use Rattle.opfs_outside.specs.Moments.{Elapses};
ghost use Rattle.opfs_journal.specs.Calls.{AreKept, IsStored, IsStopped, IsSettled, IsUnsettled};
ghost use Rattle.opfs_journal.specs.Clauses.{OutsideBut, Before};
ghost use Rattle.opfs_journal.specs.Format.{read_areas, records_of};
ghost use Rattle.opfs_journal.specs.Walking.{OnlyRead};
ghost use Rattle.opfs_journal.specs.Seen.{Stays, kept, one_record, with_record};

use crate::frame::frame;
use crate::reader::find;
use crate::synced::{close_gate, write_synced};
use crate::{Areas, DiskFault, JournalRefusal, OpenRefusal};
use opfs_outside::Disk;
use std::alloc::{AllocError, Global};
use std::marker::Model;

// A gate that is open, and one that is closed.
const OPEN: u8 = 0xA5;

const CLOSED: u8 = 0;

/// A journal on a disk: two areas of records behind gates, of which one rules.
#[derive(Drop)]
pub struct Journal<D: Disk> {
    disk: D,
    areas: Areas,
    // Area 1 rules.
    second: bool,
    // The generation byte of the area that rules.
    generation: u8,
    // The place of the last gate in that area.
    tail: u64,
    // The first gate of the other area is durably closed, once no gate is in doubt.
    closed: bool,
    // The place of the gate in doubt on the disk.
    doubt: Option<u64>,
    // The longest body that the buffer has room for.
    spare: u64,
    buffer: Vec<u8>,
}

impl<D: Disk> Model for Journal<D> {
    ghost use Rattle.std.specs.Prelude.{◌+◌, ◌≤◌};
    ghost use Rattle.std.specs.Vec.{vec_capacity};
    ghost use Rattle.opfs_journal.specs.Seen.{Seen, seen};
    ghost use Rattle.opfs_journal.specs.Standing.{Holds};

    ghost Value = { Seen D };

    ghost view = { λ j. seen D.content j.areas j.generation j.tail j.spare j.doubt j.disk };

    ghost invariant = { λ j. Holds D.tells D.size D.content D.moment D.since j.areas j.second j.generation j.tail j.closed j.doubt j.disk
        × (j.spare + 6 ≤ vec_capacity j.buffer) };
}

impl<D: Disk> Journal<D> {
    /// Finds the journal that a disk holds. It syncs, and reads of each record the gate and the length, once; a
    /// refusal gives the disk back. Among refusals by what the disk holds, the first gate in the order of reading comes.
    pub fn begin(alloc: Global, disk: D, areas: Areas) -> Result<Journal<D>, (D, OpenRefusal)>
        requires lies { areas.first + 2 * areas.bytes ≤ D.size disk }
        requires least { 7 ≤ areas.bytes }
        requires most { areas.bytes ≤ 16777216 }
        ensures areas { IfOk result (λ journal. journal.areas ≡ areas) }
        ensures sure { IfOk result (λ journal. journal.in_doubt ≡ false) }
        ensures spare { IfOk result (λ journal. journal.spare ≡ 0) }
        ensures tail { IfOk result (λ journal. journal.tail < areas.bytes) }
        ensures records { IfOk result (λ journal. D.tells → records_of areas (D.content disk) ≡ Some (kept journal)) }
        ensures durable { IfOk result (λ journal. D.tells → (c : List ℕ) → D.since journal.disk (D.moment journal.disk) c → c ≡ D.content journal.disk) }
        ensures refused { IfErr result (λ err. err.1 ≢ OpenRefusal.DiskFault → err.1 ≢ OpenRefusal.NoMemory → D.tells → read_areas areas (D.content disk) ≡ Err err.1) }
        ensures only_read { IfOk result (λ journal. OnlyRead D.Disk disk journal.disk) }
        ensures only_read_err { IfErr result (λ err. OnlyRead D.Disk disk err.0) }
        ensures cause { IfErr result (λ err. err.1 ≡ OpenRefusal.DiskFault → Rose (D.faults disk) (D.faults err.0)) }
    {
        let mut disk = disk;
        let len = disk.len();
        prove!(areas.bytes <= len && areas.first <= len - areas.bytes);
        let Ok(buffer) = Vec::with_capacity(alloc, 6) else {
            return Err((disk, OpenRefusal::NoMemory));
        };
        match find(&mut disk, areas) {
            Ok(found) => Ok(Journal {
                disk,
                areas,
                second: found.second,
                generation: found.generation,
                tail: found.tail,
                closed: found.closed,
                doubt: None,
                spare: 0,
                buffer,
            }),
            Err(refusal) => Err((disk, refusal)),
        }
    }

    /// The format of the area that rules, 1 or 2.
    pub fn format(&self) -> u8
        ensures value { result ≡ self.now.format }
        ensures known { (result ≡ 1) ⊎ (result ≡ 2) }
    {
        if self.generation < 16 { 1 } else { 2 }
    }

    /// Makes room for bodies of so many bytes. Calls no disk.
    pub fn reserve(&mut self, n: u64) -> Result<(), AllocError>
        ensures spare { OnOk result (n ≤ self.new.spare) }
        ensures no_less { self.old.spare ≤ self.new.spare }
        ensures same { self.new ≡ record self.old { spare = self.new.spare } }
    {
        if n <= self.spare {
            return Ok(());
        }
        let room = n.checked_add(6).ok_or(AllocError)?;
        self.buffer.clear();
        self.buffer.reserve(room as usize)?;
        self.spare = n;
        Ok(())
    }

    /// Writes bytes outside of both areas. Until a sync a crash may leave any bytes there, also after a failure.
    pub fn put(&mut self, at: u64, bytes: &[u8]) -> Result<(), DiskFault>
        requires lies { at + length bytes.now ≤ D.size self.old.disk }
        requires apart { (at + length bytes.now ≤ self.old.areas.first) ⊎ (self.old.areas.first + 2 * self.old.areas.bytes ≤ at) }
        requires settled { self.old.in_doubt ≡ false }
        ensures stays { Stays D.size self.old self.new }
        ensures tail { self.new.tail ≡ self.old.tail }
        ensures format { self.new.format ≡ self.old.format }
        ensures sure { self.new.in_doubt ≡ false }
        ensures records { D.tells → self.new.records ≡ self.old.records }
        ensures written { OnOk result (D.tells → window (D.content self.new.disk) at (length bytes.now) ≡ bytes.now) }
        ensures elsewhere { D.tells → Same (Beside at (length bytes.now)) (D.content self.new.disk) (D.content self.old.disk) }
        ensures time { D.tells → Elapses D.moment D.since self.old.disk self.new.disk }
        ensures moments { D.tells → (c : List ℕ) → D.since self.new.disk (D.moment self.old.disk) c
            → Before (records_of self.old.areas) (kept self.old) (D.since self.old.disk (D.moment self.old.disk)) (OutsideBut self.old.areas at (length bytes.now)) c }
        ensures later { D.faults self.old.disk ≤ D.faults self.new.disk }
        ensures cause { OnErr result (Rose (D.faults self.old.disk) (D.faults self.new.disk)) }
    {
        self.disk.write(at, bytes).map_err(|_| DiskFault)
    }

    /// Reads bytes outside of both areas.
    pub fn get(&mut self, at: u64, into: &mut [u8]) -> Result<(), DiskFault>
        requires lies { at + length into.old ≤ D.size self.old.disk }
        requires apart { (at + length into.old ≤ self.old.areas.first) ⊎ (self.old.areas.first + 2 * self.old.areas.bytes ≤ at) }
        ensures stays { Stays D.size self.old self.new }
        ensures tail { self.new.tail ≡ self.old.tail }
        ensures format { self.new.format ≡ self.old.format }
        ensures in_doubt { self.new.in_doubt ≡ self.old.in_doubt }
        ensures records { D.tells → self.new.records ≡ self.old.records }
        ensures doubt { D.tells → self.new.doubt ≡ self.old.doubt }
        ensures bytes { OnOk result (D.tells → into.new ≡ window (D.content self.old.disk) at (length into.new)) }
        ensures same { D.tells → D.content self.new.disk ≡ D.content self.old.disk }
        ensures time { D.tells → Elapses D.moment D.since self.old.disk self.new.disk }
        ensures moments { D.tells → (c : List ℕ) → D.since self.new.disk (D.moment self.old.disk) c → D.since self.old.disk (D.moment self.old.disk) c }
        ensures later { D.faults self.old.disk ≤ D.faults self.new.disk }
        ensures cause { OnErr result (Rose (D.faults self.old.disk) (D.faults self.new.disk)) }
    {
        self.disk.read(at, into).map_err(|_| DiskFault)
    }

    /// Ends the doubt, if there is one: closes the gate in doubt, and syncs. Without doubt it calls no disk.
    pub fn settle(&mut self) -> Result<(), DiskFault>
        ensures settled { OnOk result (IsSettled D.Disk self.old self.new) }
        ensures unsettled { OnErr result (IsUnsettled D.Disk self.old self.new) }
        ensures cause { OnErr result (Rose (D.faults self.old.disk) (D.faults self.new.disk)) }
    {
        if let Some(gate) = self.doubt {
            write_synced(&mut self.disk, gate, &[CLOSED])?;
            self.doubt = None;
        }
        Ok(())
    }

    /// Adds a record. At `Ok` it is durable. After a disk fault a gate may be in doubt, and then the disk may hold
    /// the record or not. Takes no memory.
    pub fn append(&mut self, bytes: &[u8]) -> Result<(), JournalRefusal>
        requires settled { self.old.in_doubt ≡ false }
        requires spare { length bytes.now ≤ self.old.spare }
        ensures stored { OnOk result (IsStored D.Disk (with_record (kept self.old) bytes.now) self.old self.new) }
        ensures stopped { IsErrOf result JournalRefusal.DiskFault → IsStopped D.Disk (with_record (kept self.old) bytes.now) self.old self.new }
        ensures tail { OnOk result (self.new.tail ≡ self.old.tail + 5 + length bytes.now) }
        ensures no_room { IsErrOf result JournalRefusal.NoRoom ↔ (self.old.areas.bytes < self.old.tail + length bytes.now + 6) }
        ensures unchanged { IsErrOf result JournalRefusal.NoRoom → self.new ≡ self.old }
        ensures at_rest { IsErrOf result JournalRefusal.NoRoom → D.tells → AreKept D.Disk self.new }
        ensures cause { IsErrOf result JournalRefusal.DiskFault → Rose (D.faults self.old.disk) (D.faults self.new.disk) }
    {
        let len = bytes.len() as u64;
        if self.areas.bytes - self.tail < len.saturating_add(6) {
            return Err(JournalRefusal::NoRoom);
        }
        frame(&mut self.buffer, &[], bytes);
        let gate = self.areas.begin(self.second) + self.tail;
        write_synced(&mut self.disk, gate + 1, &self.buffer)?;
        if write_synced(&mut self.disk, gate, &[OPEN]).is_err() {
            self.doubt = Some(gate);
            return Err(JournalRefusal::DiskFault);
        }
        self.tail += 5 + len;
        Ok(())
    }

    /// Puts this one record in the place of all, in the same format. At `Ok` it is durable. After a disk fault a gate
    /// may be in doubt, and then the disk may hold this record alone, or those that were there. Takes no memory.
    pub fn checkpoint(&mut self, bytes: &[u8]) -> Result<(), JournalRefusal>
        requires settled { self.old.in_doubt ≡ false }
        requires spare { length bytes.now ≤ self.old.spare }
        ensures stored { OnOk result (IsStored D.Disk (one_record self.old.format bytes.now) self.old self.new) }
        ensures stopped { IsErrOf result JournalRefusal.DiskFault → IsStopped D.Disk (one_record self.old.format bytes.now) self.old self.new }
        ensures tail { OnOk result (self.new.tail ≡ length bytes.now + 6) }
        ensures no_room { IsErrOf result JournalRefusal.NoRoom ↔ (self.old.areas.bytes < length bytes.now + 7) }
        ensures unchanged { IsErrOf result JournalRefusal.NoRoom → self.new ≡ self.old }
        ensures at_rest { IsErrOf result JournalRefusal.NoRoom → D.tells → AreKept D.Disk self.new }
        ensures cause { IsErrOf result JournalRefusal.DiskFault → Rose (D.faults self.old.disk) (D.faults self.new.disk) }
    {
        let format = if self.generation < 16 { 1 } else { 2 };
        self.rule_anew(format, bytes)
    }

    /// Is a checkpoint out of format 1 into format 2.
    pub fn raise(&mut self, bytes: &[u8]) -> Result<(), JournalRefusal>
        requires format { self.old.format ≡ 1 }
        requires settled { self.old.in_doubt ≡ false }
        requires spare { length bytes.now ≤ self.old.spare }
        ensures stored { OnOk result (IsStored D.Disk (one_record 2 bytes.now) self.old self.new) }
        ensures stopped { IsErrOf result JournalRefusal.DiskFault → IsStopped D.Disk (one_record 2 bytes.now) self.old self.new }
        ensures tail { OnOk result (self.new.tail ≡ length bytes.now + 6) }
        ensures no_room { IsErrOf result JournalRefusal.NoRoom ↔ (self.old.areas.bytes < length bytes.now + 7) }
        ensures unchanged { IsErrOf result JournalRefusal.NoRoom → self.new ≡ self.old }
        ensures at_rest { IsErrOf result JournalRefusal.NoRoom → D.tells → AreKept D.Disk self.new }
        ensures cause { IsErrOf result JournalRefusal.DiskFault → Rose (D.faults self.old.disk) (D.faults self.new.disk) }
    {
        self.rule_anew(2, bytes)
    }

    // Writes this one record into the other area, with the next generation in this format, and lets that area rule.
    fn rule_anew(&mut self, format: u8, bytes: &[u8]) -> Result<(), JournalRefusal>
        requires known { (format ≡ 1) ⊎ (format ≡ 2) }
        requires settled { self.old.in_doubt ≡ false }
        requires spare { length bytes.now ≤ self.old.spare }
        ensures stored { OnOk result (IsStored D.Disk (one_record format bytes.now) self.old self.new) }
        ensures stopped { IsErrOf result JournalRefusal.DiskFault → IsStopped D.Disk (one_record format bytes.now) self.old self.new }
        ensures tail { OnOk result (self.new.tail ≡ length bytes.now + 6) }
        ensures no_room { IsErrOf result JournalRefusal.NoRoom ↔ (self.old.areas.bytes < length bytes.now + 7) }
        ensures unchanged { IsErrOf result JournalRefusal.NoRoom → self.new ≡ self.old }
        ensures at_rest { IsErrOf result JournalRefusal.NoRoom → D.tells → AreKept D.Disk self.new }
        ensures cause { IsErrOf result JournalRefusal.DiskFault → Rose (D.faults self.old.disk) (D.faults self.new.disk) }
    {
        if self.areas.bytes < (bytes.len() as u64).saturating_add(7) {
            return Err(JournalRefusal::NoRoom);
        }
        let generation = (self.generation % 16 + 1) % 3 + 16 * (format - 1);
        let other = self.areas.begin(!self.second);
        close_gate(&mut self.disk, self.closed, other)?;
        self.closed = true;
        frame(&mut self.buffer, &[generation], bytes);
        write_synced(&mut self.disk, other + 1, &self.buffer)?;
        if write_synced(&mut self.disk, other, &[OPEN]).is_err() {
            self.doubt = Some(other);
            return Err(JournalRefusal::DiskFault);
        }
        self.second = !self.second;
        self.generation = generation;
        self.tail = bytes.len() as u64 + 6;
        self.closed = false;
        Ok(())
    }

    /// Gives the disk back. Without a gate in doubt it holds the records.
    pub fn give_back(self) -> D
        ensures disk { result ≡ self.disk }
        ensures records { D.tells → self.in_doubt ≡ false → records_of self.areas (D.content result) ≡ Some (kept self) }
    {
        let Journal { disk, .. } = self;
        disk
    }
}
