//! The digests of files.

ghost use Rattle.std.specs.Prelude.{◌≡◌, ◌+◌, ◌*◌, ◌^◌, ◌<◌, ◌≤◌, ◌++◌, ℕ, List, length, IfOk, IfSome, IsSome, OnOk, OnErr, IsErrOf};
ghost use Rattle.sha2.specs.Hashers.{Holds256};
ghost use Rattle.sha2.specs.Sha256.{sha256};
ghost use Rattle.opfs_outside.specs.Bytes.{window};
ghost use Rattle.opfs_outside.specs.Faults.{Rose};
ghost use Rattle.opfs_data.specs.Calls.{Reads};
ghost use Rattle.opfs_data.specs.Places.{room_of, bytes_of, AllLie};
ghost use Rattle.opfs_image.specs.Filling.{filled_row};
ghost use Rattle.opfs_tools.specs.Checking.{digest_line, stored_line};
ghost use Rattle.opfs_tools.specs.Reading.{Lies, RowsLie, stored_lines};

use crate::lines::digest_line;
use opfs_base::{BLOCK_SIZE, Extent};
use opfs_data::DataRefusal;
use opfs_journal::{DiskFault, Journal};
use opfs_outside::Disk;
use opfs_tree::{FileRow, Row, Tree, Walk};
use sha2::{Digest, Sha256};
use std::alloc::{AllocError, Global};

// The bytes that are read at once.
const PIECE: usize = 65536;

// Reads bytes, and adds them to a message.
fn add_piece<D: Disk>(
    journal: &mut Journal<D>,
    at: u64,
    piece: &mut [u8],
    hasher: &mut Sha256,
) -> Result<(), DiskFault>
    requires lies { at + length piece.old ≤ D.size journal.old.disk }
    requires behind { journal.old.areas.first + 2 * journal.old.areas.bytes ≤ at }
    ensures reads { Reads D.Disk journal.old journal.new }
    ensures added { OnOk result (D.tells → (m : List ℕ) → Holds256 hasher.old m → Holds256 hasher.new (m ++ window (D.content journal.old.disk) at (length piece.old))) }
    ensures cause { OnErr result (Rose (D.faults journal.old.disk) (D.faults journal.new.disk)) }
{
    journal.get(at, piece)?;
    hasher.update(&*piece);
    Ok(())
}

// Reads so many bytes piece by piece, and adds them to a message.
fn add_bytes<D: Disk>(
    journal: &mut Journal<D>,
    at: u64,
    count: u64,
    piece: &mut [u8],
    hasher: &mut Sha256,
) -> Result<(), DiskFault>
    requires some { 0 < length piece.old }
    requires lies { at + count ≤ D.size journal.old.disk }
    requires behind { journal.old.areas.first + 2 * journal.old.areas.bytes ≤ at }
    requires small { at + count < 2 ^ 64 }
    ensures reads { Reads D.Disk journal.old journal.new }
    ensures added { OnOk result (D.tells → (m : List ℕ) → Holds256 hasher.old m → Holds256 hasher.new (m ++ window (D.content journal.old.disk) at count)) }
    ensures cause { OnErr result (Rose (D.faults journal.old.disk) (D.faults journal.new.disk)) }
{
    let mut from = 0;
    while from < count {
        let len = (count - from).min(piece.len() as u64) as usize;
        add_piece(journal, at + from, &mut piece[..len], hasher)?;
        from += len as u64;
    }
    Ok(())
}

// The SHA-256 of so many bytes in the blocks of runs, one after another.
fn digest_of<D: Disk>(
    journal: &mut Journal<D>,
    base: u64,
    extents: &[Extent],
    len: u64,
    piece: &mut [u8],
) -> Result<[u8; 32], DiskFault>
    requires some { 0 < length piece.old }
    requires fits { len ≤ room_of extents.now }
    requires lies { AllLie base (D.size journal.old.disk) extents.now }
    requires behind { journal.old.areas.first + 2 * journal.old.areas.bytes ≤ base }
    requires small { base < 2 ^ 63 }
    ensures reads { Reads D.Disk journal.old journal.new }
    ensures digest { IfOk result (λ digest. D.tells → digest ≡ sha256 (bytes_of (D.content journal.old.disk) base extents.now len)) }
    ensures cause { OnErr result (Rose (D.faults journal.old.disk) (D.faults journal.new.disk)) }
{
    let mut hasher = Sha256::new();
    let mut left = len;
    for extent in extents {
        let count = (u64::from(extent.count) * BLOCK_SIZE).min(left);
        let place = base + u64::from(extent.start) * BLOCK_SIZE;
        add_bytes(journal, place, count, piece, &mut hasher)?;
        left -= count;
    }
    Ok(hasher.finalize())
}

// Appends the line of the file where a walk stands.
fn add_file<D: Disk>(
    alloc: Global,
    journal: &mut Journal<D>,
    base: u64,
    walk: &Walk,
    file: &FileRow,
    piece: &mut [u8],
    text: &mut Vec<u8>,
) -> Result<(), DataRefusal>
    requires some { 0 < length piece.old }
    requires stands { IsSome walk.now }
    requires fits { file.now.length ≤ room_of file.now.extents }
    requires lies { AllLie base (D.size journal.old.disk) file.now.extents }
    requires behind { journal.old.areas.first + 2 * journal.old.areas.bytes ≤ base }
    requires small { base < 2 ^ 63 }
    ensures reads { Reads D.Disk journal.old journal.new }
    ensures added { OnOk result (D.tells → IfSome walk.now (λ place. text.new.items ≡ text.old.items ++ digest_line place (bytes_of (D.content journal.old.disk) base file.now.extents file.now.length))) }
    ensures cause { IsErrOf result DataRefusal.DiskFault → Rose (D.faults journal.old.disk) (D.faults journal.new.disk) }
{
    let digest = digest_of(journal, base, file.extents.as_slice(), file.length, piece)?;
    let line = digest_line(alloc, &digest, walk.key(), walk.path())?;
    text.extend_from_slice(line.as_bytes())?;
    Ok(())
}

// The same of a row; a directory has no line.
fn add_row<D: Disk>(
    alloc: Global,
    journal: &mut Journal<D>,
    base: u64,
    walk: &Walk,
    row: &Row,
    piece: &mut [u8],
    text: &mut Vec<u8>,
) -> Result<(), DataRefusal>
    requires some { 0 < length piece.old }
    requires stands { IsSome walk.now }
    requires lies { Lies base (D.size journal.old.disk) row.now }
    requires behind { journal.old.areas.first + 2 * journal.old.areas.bytes ≤ base }
    requires small { base < 2 ^ 63 }
    ensures reads { Reads D.Disk journal.old journal.new }
    ensures added { OnOk result (D.tells → IfSome walk.now (λ place. text.new.items ≡ text.old.items ++ stored_line (place, filled_row base (D.content journal.old.disk) row.now))) }
    ensures cause { IsErrOf result DataRefusal.DiskFault → Rose (D.faults journal.old.disk) (D.faults journal.new.disk) }
{
    match row {
        Row::Dir => Ok(()),
        Row::File(file) => {
            add_file(alloc, journal, base, walk, file, piece, text)?;
            Ok(())
        }
    }
}

// Appends the lines of all files in the order of their places.
fn add_rows<D: Disk>(
    alloc: Global,
    journal: &mut Journal<D>,
    base: u64,
    tree: &Tree,
    piece: &mut [u8],
    text: &mut Vec<u8>,
) -> Result<(), DataRefusal>
    requires some { 0 < length piece.old }
    requires lies { RowsLie base (D.size journal.old.disk) tree.now }
    requires behind { journal.old.areas.first + 2 * journal.old.areas.bytes ≤ base }
    requires small { base < 2 ^ 63 }
    ensures reads { Reads D.Disk journal.old journal.new }
    ensures added { OnOk result (D.tells → text.new.items ≡ text.old.items ++ stored_lines base (D.content journal.old.disk) tree.now) }
    ensures cause { IsErrOf result DataRefusal.DiskFault → Rose (D.faults journal.old.disk) (D.faults journal.new.disk) }
{
    let mut walk = Walk::make();
    while let Some(row) = tree.step(&mut walk) {
        add_row(alloc, journal, base, &walk, row, piece, text)?;
    }
    Ok(())
}

// So many zeros.
fn zeros(alloc: Global, len: usize) -> Result<Vec<u8>, AllocError>
    ensures { IfOk result (λ bytes. length bytes.items ≡ len) }
{
    let bytes = vec![in alloc; 0u8; len]?;
    Ok(bytes)
}

/// The lines of all files in the order of their places.
pub(crate) fn digests_text<D: Disk>(
    alloc: Global,
    journal: &mut Journal<D>,
    base: u64,
    tree: &Tree,
) -> Result<Vec<u8>, DataRefusal>
    requires lies { RowsLie base (D.size journal.old.disk) tree.now }
    requires behind { journal.old.areas.first + 2 * journal.old.areas.bytes ≤ base }
    requires small { base < 2 ^ 63 }
    ensures reads { Reads D.Disk journal.old journal.new }
    ensures digests { IfOk result (λ text. D.tells → text.items ≡ stored_lines base (D.content journal.old.disk) tree.now) }
    ensures cause { IsErrOf result DataRefusal.DiskFault → Rose (D.faults journal.old.disk) (D.faults journal.new.disk) }
{
    let mut piece = zeros(alloc, PIECE)?;
    let mut text = Vec::new(alloc);
    add_rows(alloc, journal, base, tree, &mut piece, &mut text)?;
    Ok(text)
}
