//! A work of eight changes in four commits: what is kept back and a content, what is kept back alone, a snapshot with what is
//! kept back and another content in the place of all records, and what is kept back alone behind it.

ghost use Rattle.std.specs.Prelude.{◌≡◌, ◌<◌, ◌≤◌, false, IfOk};
ghost use Rattle.opfs_codec.specs.Fields.{plain};
ghost use Rattle.opfs_codec.specs.Spelling.{IsChange};
ghost use Rattle.opfs_codec.specs.declared.change.Format.TheVariants.{New};
ghost use Rattle.opfs_records.specs.Checkpoint.Written.{AreWritable};
ghost use Rattle.opfs_records.specs.Replay.Sums.{persistent_in};

use opfs_codec::{Change, ChangeRef, Format, read};
use opfs_commit::Commits;
use opfs_image::{Geometry, Recovered, format, recover};
use opfs_journal::{Journal, JournalRefusal};
use opfs_memory::MemDisk;
use opfs_records::{Rebuilt, Replay};
use opfs_tree::ReadyTree;
use std::alloc::{AllocError, Global};

/// The changes, each as it is spelled: a root, a file in it, five bytes of the file, a directory, that the unit is
/// persistent, a file in the directory, three bytes of the first file, and another directory.
pub const CHANGES: [&[u8]; 8] = [
    b"\x01\x11\x00https://a.example\x07default",
    b"\x03\x11\x00https://a.example\x07default\x01\x01f\x09\x00\x00\x00\x00\x00\x00\x00",
    b"\x05\x11\x00https://a.example\x07default\x01\x01f\x0a\x00\x00\x00\x00\x00\x00\x00\x05\x00\x00\x00\x00\x00\x00\x00\x01\x00\x00\x00\x00\x00\x00\x00\x01\x00\x00\x00",
    b"\x02\x11\x00https://a.example\x07default\x01\x01d",
    b"\x06\x11\x00https://a.example\x07default",
    b"\x03\x11\x00https://a.example\x07default\x02\x01d\x01g\x0b\x00\x00\x00\x00\x00\x00\x00",
    b"\x05\x11\x00https://a.example\x07default\x01\x01f\x0c\x00\x00\x00\x00\x00\x00\x00\x03\x00\x00\x00\x00\x00\x00\x00\x01\x00\x00\x00\x01\x00\x00\x00\x01\x00\x00\x00",
    b"\x02\x11\x00https://a.example\x07default\x01\x01e",
];

/// How a commit is made of the changes up to one: with the last of them as its own, with the last as its own in a
/// snapshot, or of those that are kept back alone.
#[derive(Clone, Copy, PartialEq)]
pub enum Way {
    Own,
    Snapshot,
    Alone,
}

/// The commits: how, and up to which change.
pub const COMMITS: [(Way, usize); 4] = [
    (Way::Own, 3),
    (Way::Alone, 5),
    (Way::Snapshot, 7),
    (Way::Alone, 8),
];

/// The change that bytes spell.
pub fn change(alloc: Global, bytes: &[u8]) -> Result<Change, AllocError>
    ensures { IfOk result (λ change. IsChange New change) }
{
    match read(alloc, bytes, 0)? {
        Some((change, _)) => Ok(change),
        None => Err(AllocError),
    }
}

// Keeps a change back that is no content.
#[tactic(auto, using(opfs_codec::proofs::WritingLemmas::change_fits), unfolding(opfs_codec::specs::Fields::plain, opfs_commit::specs::Seen::IsQuiet))]
fn keep(commits: &mut Commits, own: &Change) -> Result<(), AllocError>
    requires spelled { IsChange New own.now }
    ensures { commits.new.room ≡ commits.old.room }
{
    if commits.count() >= 63 {
        return Err(AllocError);
    }
    match own {
        Change::MakeRoot(unit) => commits.keep(&ChangeRef::MakeRoot(unit)),
        Change::MakeDir(unit, path) => commits.keep(&ChangeRef::MakeDir(unit, path)),
        Change::MakeFile(unit, path, stamp) => {
            commits.keep(&ChangeRef::MakeFile(unit, path, *stamp))
        }
        Change::Persist(unit) => commits.keep(&ChangeRef::Persist(unit)),
        _ => return Err(AllocError),
    }
    Ok(())
}

/// The same change, borrowed.
#[tactic(auto, unfolding(opfs_codec::specs::Fields::plain))]
pub fn borrowed(change: &Change) -> ChangeRef<'_>
    ensures { plain result ≡ change.now }
{
    match change {
        Change::MakeRoot(unit) => ChangeRef::MakeRoot(unit),
        Change::MakeDir(unit, path) => ChangeRef::MakeDir(unit, path),
        Change::MakeFile(unit, path, stamp) => ChangeRef::MakeFile(unit, path, *stamp),
        Change::Remove(unit, path) => ChangeRef::Remove(unit, path),
        Change::Content(unit, path, stamp, size, extents) => {
            ChangeRef::Content(unit, path, *stamp, *size, extents)
        }
        Change::Persist(unit) => ChangeRef::Persist(unit),
        Change::Evict(unit) => ChangeRef::Evict(unit),
    }
}

/// An image of three blocks and two data blocks without rows.
pub fn first_image(alloc: Global) -> Result<Vec<u8>, AllocError> {
    let image = vec![in alloc; 0u8; 20480]?;
    let mut disk = MemDisk::make(alloc, image, Vec::new(alloc), None, 64, 65536)?;
    let geometry = Geometry {
        areas: 1,
        blocks: 2,
        quota: 2,
    };
    match format(&mut disk, geometry) {
        Ok(()) => disk.content().to_vec(alloc),
        Err(_) => Err(AllocError),
    }
}

// The rows after the first changes.
fn rebuilt(alloc: Global, changes: usize) -> Result<Rebuilt, AllocError>
    ensures { IfOk result (λ all. AreWritable all.tree (persistent_in all.shed.buckets)) }
{
    let mut replay = Replay::make(alloc, 2, 2)?;
    for bytes in CHANGES.iter().take(changes) {
        replay = replay.body(alloc, Format::New, bytes)?.ok_or(AllocError)?;
    }
    replay.finish()
}

// That a commit is made, or not.
fn ended(done: Result<(), JournalRefusal>) -> Result<(), AllocError> {
    match done {
        Ok(()) => Ok(()),
        Err(_) => Err(AllocError),
    }
}

// Commits a change by one record more.
fn add_change(
    commits: &mut Commits,
    journal: &mut Journal<MemDisk>,
    own: &Change,
) -> Result<(), AllocError>
    requires spelled { IsChange New own.now }
    requires settled { journal.old.in_doubt ≡ false }
    requires spare { commits.old.room ≤ journal.old.spare }
    ensures { commits.new.room ≤ journal.new.spare }
{
    let own = borrowed(own);
    ended(commits.add(journal, &own))
}

// Commits a change by a snapshot after it, of the rows after so many changes.
fn replace_with(
    alloc: Global,
    commits: &mut Commits,
    journal: &mut Journal<MemDisk>,
    changes: usize,
    own: &Change,
) -> Result<(), AllocError>
    requires spelled { IsChange New own.now }
    requires settled { journal.old.in_doubt ≡ false }
    requires spare { commits.old.room ≤ journal.old.spare }
    ensures { commits.new.room ≤ journal.new.spare }
{
    let before = rebuilt(alloc, changes)?;
    let own = borrowed(own);
    let tree = ReadyTree::make(alloc, before.tree);
    ended(commits.replace(journal, &tree, &before.shed, &own))
}

// Commits a change in one of both ways.
fn write_own(
    alloc: Global,
    commits: &mut Commits,
    journal: &mut Journal<MemDisk>,
    way: Way,
    changes: usize,
    own: &Change,
) -> Result<(), AllocError>
    requires spelled { IsChange New own.now }
    requires settled { journal.old.in_doubt ≡ false }
    requires spare { commits.old.room ≤ journal.old.spare }
    ensures { commits.new.room ≤ journal.new.spare }
{
    if way == Way::Own {
        return add_change(commits, journal, own);
    }
    replace_with(alloc, commits, journal, changes, own)
}

// Commits the change that bytes spell in one of both ways.
fn write_spelled(
    alloc: Global,
    commits: &mut Commits,
    journal: &mut Journal<MemDisk>,
    way: Way,
    changes: usize,
    bytes: &[u8],
) -> Result<(), AllocError>
    requires settled { journal.old.in_doubt ≡ false }
    requires spare { commits.old.room ≤ journal.old.spare }
    ensures { commits.new.room ≤ journal.new.spare }
{
    let own = change(alloc, bytes)?;
    let written = write_own(alloc, commits, journal, way, changes, &own);
    drop(own);
    written
}

// Writes the record of a commit.
fn write_record(
    alloc: Global,
    commits: &mut Commits,
    journal: &mut Journal<MemDisk>,
    way: Way,
    changes: usize,
) -> Result<(), AllocError>
    requires settled { journal.old.in_doubt ≡ false }
    requires spare { commits.old.room ≤ journal.old.spare }
    ensures { commits.new.room ≤ journal.new.spare }
{
    if way == Way::Alone {
        return ended(commits.add_kept(journal));
    }
    let before = changes.saturating_sub(1);
    let Some(bytes) = CHANGES.get(before) else {
        return Err(AllocError);
    };
    write_spelled(alloc, commits, journal, way, before, bytes)
}

// Keeps the change that bytes spell back.
fn keep_spelled(alloc: Global, commits: &mut Commits, bytes: &[u8]) -> Result<(), AllocError>
    ensures { commits.new.room ≡ commits.old.room }
{
    let own = change(alloc, bytes)?;
    let kept = keep(commits, &own);
    drop(own);
    kept
}

// Keeps the changes of a commit back that are not its own, once.
fn keep_back(alloc: Global, commits: &mut Commits, from: usize, to: usize) -> Result<(), AllocError>
    ensures { commits.new.room ≡ commits.old.room }
{
    for bytes in CHANGES.iter().take(to).skip(from) {
        keep_spelled(alloc, commits, bytes)?;
    }
    Ok(())
}

// Ends a doubt and writes the record of a commit.
fn settle_and_write(
    alloc: Global,
    commits: &mut Commits,
    journal: &mut Journal<MemDisk>,
    way: Way,
    changes: usize,
) -> Result<(), AllocError>
    requires spare { commits.old.room ≤ journal.old.spare }
    ensures { commits.new.room ≤ journal.new.spare }
{
    match journal.settle() {
        Ok(()) => write_record(alloc, commits, journal, way, changes),
        Err(_) => Err(AllocError),
    }
}

// Makes each commit, once more where it fails at first, until one fails twice. Gives how many changes are committed up to the
// last content that is, and how many are committed or tried.
fn commit_all(
    alloc: Global,
    commits: &mut Commits,
    journal: &mut Journal<MemDisk>,
) -> Result<(usize, usize), AllocError>
    requires spare { commits.old.room ≤ journal.old.spare }
{
    let mut floor = 0;
    let mut told = 0;
    for (way, changes) in COMMITS {
        let own = if way == Way::Alone { 0 } else { 1 };
        keep_back(alloc, commits, told, changes.saturating_sub(own))?;
        told = changes;
        if settle_and_write(alloc, commits, journal, way, changes).is_err()
            && settle_and_write(alloc, commits, journal, way, changes).is_err()
        {
            break;
        }
        if way != Way::Alone {
            floor = changes;
        }
    }
    Ok((floor, told))
}

// The same over a journal to which nothing is kept back.
fn commit_to(alloc: Global, journal: &mut Journal<MemDisk>) -> Result<(usize, usize), AllocError> {
    let mut commits = Commits::make(alloc, journal, 4096)?;
    let done = commit_all(alloc, &mut commits, journal);
    drop(commits);
    done
}

/// The journal of the image that a disk holds.
pub fn journal_of(alloc: Global, disk: MemDisk) -> Result<Journal<MemDisk>, AllocError> {
    match recover(alloc, disk) {
        Ok(Recovered { journal, .. }) => Ok(journal),
        Err(_) => Err(AllocError),
    }
}

/// Does the work over a disk. Gives the disk, how many changes are committed up to the last content that is, and how many are
/// committed or tried.
pub fn work(alloc: Global, disk: MemDisk) -> Result<(MemDisk, usize, usize), AllocError> {
    let mut journal = journal_of(alloc, disk)?;
    match commit_to(alloc, &mut journal) {
        Ok((floor, told)) => Ok((journal.give_back(), floor, told)),
        Err(error) => Err(error),
    }
}
