//! Commits that have room.

ghost use Rattle.std.specs.Prelude.{◌≡◌, ◌≤◌, false, OnOk, OnErr};
ghost use Rattle.opfs_books.specs.Committing.{MayCommit, MayCommitAlone};
ghost use Rattle.opfs_codec.specs.Fields.{plain, Fits};
ghost use Rattle.opfs_commit.specs.Calls.{IsAnyOf, IsNoneOf, IsNext, IsNextAlone, stored_in};
ghost use Rattle.opfs_commit.specs.Seen.{committing};
ghost use Rattle.opfs_outside.specs.Faults.{Rose};

use opfs_codec::ChangeRef;
use opfs_commit::Commits;
use opfs_journal::{DiskFault, Journal, JournalRefusal};
use opfs_outside::Disk;
use opfs_shed::Shed;
use opfs_tree::ReadyTree;

/// Commits a change with what is kept back.
pub(crate) fn commit_own<D: Disk>(
    commits: &mut Commits,
    journal: &mut Journal<D>,
    tree: &ReadyTree,
    shed: &Shed,
    own: &ChangeRef<'_>,
) -> Result<(), DiskFault>
    requires settled { journal.old.in_doubt ≡ false }
    requires spare { commits.old.room ≤ journal.old.spare }
    requires fits { Fits (plain own.now) }
    requires may { MayCommit tree.now.rows shed.now (plain own.now) commits.old.room journal.old.areas.bytes }
    ensures committed { OnOk result (IsAnyOf D.Disk (IsNext (stored_in tree.now.rows shed.now) (plain own.now) (committing journal.old commits.old)) (committing journal.old commits.old) (committing journal.new commits.new)) }
    ensures halted { OnErr result (IsNoneOf D.Disk (IsNext (stored_in tree.now.rows shed.now) (plain own.now) (committing journal.old commits.old)) (committing journal.old commits.old) (committing journal.new commits.new)) }
    ensures cause { OnErr result (Rose (D.faults journal.old.disk) (D.faults journal.new.disk)) }
{
    match commits.commit(journal, tree, shed, own) {
        Ok(()) => Ok(()),
        Err(JournalRefusal::DiskFault) => Err(DiskFault),
        Err(JournalRefusal::NoRoom) => unreachable!(),
    }
}

/// Commits what is kept back alone.
pub(crate) fn commit_alone<D: Disk>(
    commits: &mut Commits,
    journal: &mut Journal<D>,
    tree: &ReadyTree,
    shed: &Shed,
) -> Result<(), DiskFault>
    requires settled { journal.old.in_doubt ≡ false }
    requires spare { commits.old.room ≤ journal.old.spare }
    requires may { MayCommitAlone tree.now.rows shed.now commits.old.room journal.old.areas.bytes }
    ensures committed { OnOk result (IsAnyOf D.Disk (IsNextAlone (stored_in tree.now.rows shed.now) (committing journal.old commits.old)) (committing journal.old commits.old) (committing journal.new commits.new)) }
    ensures halted { OnErr result (IsNoneOf D.Disk (IsNextAlone (stored_in tree.now.rows shed.now) (committing journal.old commits.old)) (committing journal.old commits.old) (committing journal.new commits.new)) }
    ensures cause { OnErr result (Rose (D.faults journal.old.disk) (D.faults journal.new.disk)) }
{
    match commits.commit_kept(journal, tree, shed) {
        Ok(()) => Ok(()),
        Err(JournalRefusal::DiskFault) => Err(DiskFault),
        Err(JournalRefusal::NoRoom) => unreachable!(),
    }
}
