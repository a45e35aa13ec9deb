//! Changes that are committed to a journal, some of which are kept back for a while.

ghost use Rattle.std.specs.Prelude.{◌≡◌, ◌⊎◌, ◌+◌, ◌<◌, ◌≤◌, ◌++◌, ℕ, true, false, List, [], length, IfOk, IfErr, OnOk, OnErr, IsErrOf};
ghost use Rattle.opfs_codec.specs.Charges.{charge};
ghost use Rattle.opfs_codec.specs.Fields.{plain, Fits, HasFewExtents};
ghost use Rattle.opfs_codec.specs.Spelling.{spelling, IsChange};
ghost use Rattle.opfs_codec.specs.declared.change.Format.TheVariants.{New};
ghost use Rattle.opfs_commit.specs.Calls.{IsCommitted, IsHalted, IsReplaced, IsNotReplaced, IsAnyOf, IsNoneOf, IsNext, IsNextAlone, BuildsAfter, BuildsAll, stored_in, HasRoomAfter, HasRoomFor, HasRecordRoom, LacksRecordRoom, HasBackRoom, LacksBackRoom};
ghost use Rattle.opfs_commit.specs.Seen.{KeptBack, committing, emptied, has_room, with_back, with_kept, with_own, IsQuiet};
ghost use Rattle.opfs_outside.specs.Faults.{Rose};
ghost use Rattle.opfs_records.specs.Checkpoint.Written.{AreWritable};
ghost use Rattle.opfs_records.specs.Replay.Sums.{persistent_in};

use opfs_codec::{ChangeRef, charge, write};
use opfs_journal::{Journal, JournalRefusal};
use opfs_outside::Disk;
use opfs_records::{snapshot, snapshot_after};
use opfs_shed::Shed;
use opfs_tree::ReadyTree;
use std::alloc::{AllocError, Global};
use std::marker::Model;

/// Changes that are kept back beside a journal: its next record has them, and then the change that is committed. Once it is
/// made, a record that has room takes no memory.
#[derive(Drop)]
pub struct Commits {
    // The spellings of the changes that are kept back, one behind the other; none where they are too long.
    bytes: Vec<u8>,
    // How many they are.
    count: u32,
    // They are too long for a record.
    long: bool,
    // Where the body of a record that stands alone is made.
    alone: Vec<u8>,
    // The longest body that there is room for.
    room: u64,
}

impl Model for Commits {
    ghost use Rattle.std.specs.Prelude.{◌≤◌, length};
    ghost use Rattle.std.specs.Vec.{vec_capacity};
    ghost use Rattle.opfs_commit.specs.Seen.{KeptBack};

    ghost Value = { KeptBack };

    ghost view = { λ c. record { bytes = c.bytes.items; count = c.count; long = c.long; room = c.room } };

    ghost invariant = { λ c. (c.room ≤ vec_capacity c.bytes) × (c.room ≤ vec_capacity c.alone) × (length c.bytes.items ≤ c.room) };
}

impl Commits {
    /// Makes room for records of so many bytes, which is best the size of an area, in a journal too.
    pub fn make<D: Disk>(
        alloc: Global,
        journal: &mut Journal<D>,
        room: u64,
    ) -> Result<Commits, AllocError>
        ensures nothing { IfOk result (λ commits. commits ≡ record { bytes = []; count = 0; long = false; room = room }) }
        ensures spare { OnOk result (room ≤ journal.new.spare) }
        ensures journal { journal.new ≡ record journal.old { spare = journal.new.spare } }
        ensures no_less { journal.old.spare ≤ journal.new.spare }
    {
        journal.reserve(room)?;
        let bytes = Vec::with_capacity(alloc, room as usize)?;
        let alone = Vec::with_capacity(alloc, room as usize)?;
        Ok(Commits {
            bytes,
            count: 0,
            long: false,
            alone,
            room,
        })
    }

    /// How many changes are kept back.
    pub fn count(&self) -> u32
        ensures { result ≡ self.now.count }
    {
        self.count
    }

    /// Keeps a change back that is no content. Calls no disk.
    pub fn keep(&mut self, change: &ChangeRef<'_>)
        requires fits { Fits (plain change.now) }
        requires quiet { IsQuiet (plain change.now) }
        requires few { self.old.count < 63 }
        ensures { self.new ≡ with_kept self.old (plain change.now) }
    {
        if self.has_room(change) {
            self.spell(change);
        } else {
            self.bytes.clear();
            self.long = true;
        }
        self.count += 1;
    }

    /// Commits a change with what is kept back: by a record more, or only where that has no room, by a snapshot of what a tree
    /// and a shed store after the change in the place of all records. The tree and the shed have what is kept back. Neither
    /// has room only where the charge of what is built, with a record's 7 bytes, passes the room or the area; and one has
    /// where it was written. A snapshot may be shorter than that charge, and have room where the charge has none.
    pub fn commit<D: Disk>(
        &mut self,
        journal: &mut Journal<D>,
        tree: &ReadyTree,
        shed: &Shed,
        own: &ChangeRef<'_>,
    ) -> Result<(), JournalRefusal>
        requires settled { journal.old.in_doubt ≡ false }
        requires spare { self.old.room ≤ journal.old.spare }
        requires writable { AreWritable tree.now.rows (persistent_in shed.now.buckets) }
        requires again { IsChange New (plain own.now) }
        requires fits { Fits (plain own.now) }
        ensures committed { OnOk result (IsAnyOf D.Disk (IsNext (stored_in tree.now.rows shed.now) (plain own.now) (committing journal.old self.old)) (committing journal.old self.old) (committing journal.new self.new)) }
        ensures halted { IsErrOf result JournalRefusal.DiskFault → IsNoneOf D.Disk (IsNext (stored_in tree.now.rows shed.now) (plain own.now) (committing journal.old self.old)) (committing journal.old self.old) (committing journal.new self.new) }
        ensures unchanged { IsErrOf result JournalRefusal.NoRoom → (journal.new ≡ journal.old) × (self.new ≡ self.old) }
        ensures lacks { IsErrOf result JournalRefusal.NoRoom → HasFewExtents (plain own.now) → LacksRecordRoom (plain own.now) (committing journal.old self.old) }
        ensures no_room { IsErrOf result JournalRefusal.NoRoom → (size most : ℕ) → HasRoomAfter size most tree.now.rows shed.now (plain own.now) → (self.old.room < most) ⊎ (journal.old.areas.bytes < most + 7) }
        ensures cause { IsErrOf result JournalRefusal.DiskFault → Rose (D.faults journal.old.disk) (D.faults journal.new.disk) }
    {
        match self.add(journal, own) {
            Ok(()) => Ok(()),
            Err(JournalRefusal::DiskFault) => Err(JournalRefusal::DiskFault),
            Err(JournalRefusal::NoRoom) => match self.replace(journal, tree, shed, own) {
                Ok(()) => Ok(()),
                Err(refusal) => Err(refusal),
            },
        }
    }

    /// Commits what is kept back alone, in the same way.
    pub fn commit_kept<D: Disk>(
        &mut self,
        journal: &mut Journal<D>,
        tree: &ReadyTree,
        shed: &Shed,
    ) -> Result<(), JournalRefusal>
        requires settled { journal.old.in_doubt ≡ false }
        requires spare { self.old.room ≤ journal.old.spare }
        requires writable { AreWritable tree.now.rows (persistent_in shed.now.buckets) }
        ensures committed { OnOk result (IsAnyOf D.Disk (IsNextAlone (stored_in tree.now.rows shed.now) (committing journal.old self.old)) (committing journal.old self.old) (committing journal.new self.new)) }
        ensures halted { IsErrOf result JournalRefusal.DiskFault → IsNoneOf D.Disk (IsNextAlone (stored_in tree.now.rows shed.now) (committing journal.old self.old)) (committing journal.old self.old) (committing journal.new self.new) }
        ensures unchanged { IsErrOf result JournalRefusal.NoRoom → (journal.new ≡ journal.old) × (self.new ≡ self.old) }
        ensures lacks { IsErrOf result JournalRefusal.NoRoom → LacksBackRoom (committing journal.old self.old) }
        ensures no_room { IsErrOf result JournalRefusal.NoRoom → (size most : ℕ) → HasRoomFor size most tree.now.rows shed.now → (self.old.room < most) ⊎ (journal.old.areas.bytes < most + 7) }
        ensures cause { IsErrOf result JournalRefusal.DiskFault → Rose (D.faults journal.old.disk) (D.faults journal.new.disk) }
    {
        match self.add_kept(journal) {
            Ok(()) => Ok(()),
            Err(JournalRefusal::DiskFault) => Err(JournalRefusal::DiskFault),
            Err(JournalRefusal::NoRoom) => match self.replace_kept(journal, tree, shed) {
                Ok(()) => Ok(()),
                Err(refusal) => Err(refusal),
            },
        }
    }

    /// Writes a record of what is kept back with one change more. It has no room where what is kept back is too long, or
    /// with the charge of the change longer than there is room for, or where the record with the next gate passes the
    /// area's end.
    pub fn add<D: Disk>(
        &mut self,
        journal: &mut Journal<D>,
        own: &ChangeRef<'_>,
    ) -> Result<(), JournalRefusal>
        requires settled { journal.old.in_doubt ≡ false }
        requires spare { self.old.room ≤ journal.old.spare }
        requires fits { Fits (plain own.now) }
        ensures committed { OnOk result (IsCommitted D.Disk (with_own (committing journal.old self.old) (plain own.now)) (committing journal.old self.old) (committing journal.new self.new)) }
        ensures halted { IsErrOf result JournalRefusal.DiskFault → IsHalted D.Disk (with_own (committing journal.old self.old) (plain own.now)) (committing journal.old self.old) (committing journal.new self.new) }
        ensures room { OnOk result (HasRecordRoom (plain own.now) (committing journal.old self.old)) }
        ensures halted_room { IsErrOf result JournalRefusal.DiskFault → HasRecordRoom (plain own.now) (committing journal.old self.old) }
        ensures unchanged { IsErrOf result JournalRefusal.NoRoom → (journal.new ≡ journal.old) × (self.new ≡ self.old) }
        ensures no_room { IsErrOf result JournalRefusal.NoRoom → HasFewExtents (plain own.now) → LacksRecordRoom (plain own.now) (committing journal.old self.old) }
        ensures cause { IsErrOf result JournalRefusal.DiskFault → Rose (D.faults journal.old.disk) (D.faults journal.new.disk) }
    {
        let kept = self.bytes.len();
        self.spell_own(own)?;
        match journal.append(&self.bytes) {
            Ok(()) => {
                self.forget();
                Ok(())
            }
            Err(refusal) => {
                self.bytes.truncate(kept);
                Err(refusal)
            }
        }
    }

    /// Writes a record of what is kept back alone. It has no room where that is too long, or where the record with the next
    /// gate passes the area's end.
    pub fn add_kept<D: Disk>(&mut self, journal: &mut Journal<D>) -> Result<(), JournalRefusal>
        requires settled { journal.old.in_doubt ≡ false }
        requires spare { self.old.room ≤ journal.old.spare }
        ensures committed { OnOk result (IsCommitted D.Disk (with_back (committing journal.old self.old)) (committing journal.old self.old) (committing journal.new self.new)) }
        ensures halted { IsErrOf result JournalRefusal.DiskFault → IsHalted D.Disk (with_back (committing journal.old self.old)) (committing journal.old self.old) (committing journal.new self.new) }
        ensures room { OnOk result (HasBackRoom (committing journal.old self.old)) }
        ensures halted_room { IsErrOf result JournalRefusal.DiskFault → HasBackRoom (committing journal.old self.old) }
        ensures unchanged { IsErrOf result JournalRefusal.NoRoom → (journal.new ≡ journal.old) × (self.new ≡ self.old) }
        ensures no_room { IsErrOf result JournalRefusal.NoRoom → LacksBackRoom (committing journal.old self.old) }
        ensures cause { IsErrOf result JournalRefusal.DiskFault → Rose (D.faults journal.old.disk) (D.faults journal.new.disk) }
    {
        if self.long {
            return Err(JournalRefusal::NoRoom);
        }
        journal.append(&self.bytes)?;
        self.forget();
        Ok(())
    }

    /// Writes a snapshot of what a tree and a shed store after one change more in the place of all records. The tree and
    /// the shed have what is kept back. It has no room where the charge of what is built, with a record's 7 bytes, passes
    /// the room or the area.
    pub fn replace<D: Disk>(
        &mut self,
        journal: &mut Journal<D>,
        tree: &ReadyTree,
        shed: &Shed,
        own: &ChangeRef<'_>,
    ) -> Result<(), JournalRefusal>
        requires settled { journal.old.in_doubt ≡ false }
        requires spare { self.old.room ≤ journal.old.spare }
        requires writable { AreWritable tree.now.rows (persistent_in shed.now.buckets) }
        requires again { IsChange New (plain own.now) }
        ensures replaced { OnOk result (IsReplaced D.Disk (BuildsAfter (stored_in tree.now.rows shed.now) (plain own.now)) (committing journal.old self.old) (committing journal.new self.new)) }
        ensures halted { IsErrOf result JournalRefusal.DiskFault → IsNotReplaced D.Disk (BuildsAfter (stored_in tree.now.rows shed.now) (plain own.now)) (committing journal.old self.old) (committing journal.new self.new) }
        ensures unchanged { IsErrOf result JournalRefusal.NoRoom → (journal.new ≡ journal.old) × (self.new ≡ self.old) }
        ensures no_room { IsErrOf result JournalRefusal.NoRoom → (size most : ℕ) → HasRoomAfter size most tree.now.rows shed.now (plain own.now) → (self.old.room < most) ⊎ (journal.old.areas.bytes < most + 7) }
        ensures cause { IsErrOf result JournalRefusal.DiskFault → Rose (D.faults journal.old.disk) (D.faults journal.new.disk) }
    {
        let Ok(()) = snapshot_after(tree, shed, own, &mut self.alone) else {
            return Err(JournalRefusal::NoRoom);
        };
        if self.alone.len() as u64 > self.room {
            return Err(JournalRefusal::NoRoom);
        }
        match journal.checkpoint(&self.alone) {
            Ok(()) => {
                self.forget();
                Ok(())
            }
            Err(refusal) => Err(refusal),
        }
    }

    /// Writes a snapshot of what a tree and a shed store in the place of all records. They have what is kept back.
    pub fn replace_kept<D: Disk>(
        &mut self,
        journal: &mut Journal<D>,
        tree: &ReadyTree,
        shed: &Shed,
    ) -> Result<(), JournalRefusal>
        requires settled { journal.old.in_doubt ≡ false }
        requires spare { self.old.room ≤ journal.old.spare }
        requires writable { AreWritable tree.now.rows (persistent_in shed.now.buckets) }
        ensures replaced { OnOk result (IsReplaced D.Disk (BuildsAll (stored_in tree.now.rows shed.now)) (committing journal.old self.old) (committing journal.new self.new)) }
        ensures halted { IsErrOf result JournalRefusal.DiskFault → IsNotReplaced D.Disk (BuildsAll (stored_in tree.now.rows shed.now)) (committing journal.old self.old) (committing journal.new self.new) }
        ensures unchanged { IsErrOf result JournalRefusal.NoRoom → (journal.new ≡ journal.old) × (self.new ≡ self.old) }
        ensures no_room { IsErrOf result JournalRefusal.NoRoom → (size most : ℕ) → HasRoomFor size most tree.now.rows shed.now → (self.old.room < most) ⊎ (journal.old.areas.bytes < most + 7) }
        ensures cause { IsErrOf result JournalRefusal.DiskFault → Rose (D.faults journal.old.disk) (D.faults journal.new.disk) }
    {
        let Ok(()) = snapshot(tree, shed, &mut self.alone) else {
            return Err(JournalRefusal::NoRoom);
        };
        if self.alone.len() as u64 > self.room {
            return Err(JournalRefusal::NoRoom);
        }
        match journal.checkpoint(&self.alone) {
            Ok(()) => {
                self.forget();
                Ok(())
            }
            Err(refusal) => Err(refusal),
        }
    }

    // Spells the change that is committed behind those that are kept back.
    fn spell_own(&mut self, own: &ChangeRef<'_>) -> Result<(), JournalRefusal>
        requires fits { Fits (plain own.now) }
        ensures ok { OnOk result (self.new ≡ record self.old { bytes = self.old.bytes ++ spelling New (plain own.now) }) }
        ensures short { OnOk result (has_room self.old (charge (plain own.now)) ≡ true) }
        ensures err { OnErr result (self.new ≡ self.old) }
        ensures no_room { IfErr result (λ refusal. refusal ≡ JournalRefusal.NoRoom) }
        ensures room { OnErr result (HasFewExtents (plain own.now) → has_room self.old (charge (plain own.now)) ≡ false) }
    {
        if !self.has_room(own) {
            return Err(JournalRefusal::NoRoom);
        }
        let before = self.bytes.len();
        let Ok(()) = write(own, &mut self.bytes) else {
            return Err(JournalRefusal::NoRoom);
        };
        if self.bytes.len() as u64 > self.room {
            self.bytes.truncate(before);
            return Err(JournalRefusal::NoRoom);
        }
        Ok(())
    }

    // Nothing is kept back any more.
    fn forget(&mut self)
        ensures { self.new ≡ emptied self.old }
    {
        self.bytes.clear();
        self.count = 0;
        self.long = false;
    }

    // Spells a change that has room.
    fn spell(&mut self, change: &ChangeRef<'_>)
        requires fits { Fits (plain change.now) }
        requires quiet { IsQuiet (plain change.now) }
        requires room { length self.old.bytes + charge (plain change.now) ≤ self.old.room }
        ensures { self.new ≡ record self.old { bytes = self.old.bytes ++ spelling New (plain change.now) } }
    {
        match write(change, &mut self.bytes) {
            Ok(()) => {}
            Err(_) => unreachable!(),
        }
    }

    // Whether the charge of a change has room behind what is kept back.
    fn has_room(&self, change: &ChangeRef<'_>) -> bool
        requires fits { Fits (plain change.now) }
        ensures { result ≡ has_room self.now (charge (plain change.now)) }
    {
        let len = self.bytes.len() as u64;
        !self.long && len.saturating_add(charge(change)) <= self.room
    }
}
