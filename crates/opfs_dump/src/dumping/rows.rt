//! The rows of a tree, put out one by one.

ghost use Rattle.std.specs.Prelude.{◌≡◌, ◌+◌, ◌*◌, ◌^◌, ◌<◌, ◌≤◌, ◌++◌, false, length, IfSome, IsSome};
ghost use Rattle.serde_json.specs.Written.{comma_if, compact_text};
ghost use Rattle.opfs_data.specs.Places.{room_of, bytes_of, AllLie};
ghost use Rattle.opfs_dump.specs.Text.Texts.{document_value, folder_value, row_value};
ghost use Rattle.opfs_image.specs.Filling.{filled_row};
ghost use Rattle.opfs_tools.specs.Reading.{Lies, RowsLie};
ghost use Rattle.opfs_dump.specs.Dumping.Pieces.{digits_text, rest_text, row_text};
ghost use Rattle.opfs_dump.specs.Dumping.Putting.{Dumps, Puts};

use crate::dumping::files::put_runs;
use crate::dumping::output::put_text;
use crate::dumping::pieces::{behind_digits, folder_text};
use crate::dumping::stop::DumpStop;
use opfs_base::{Key, Path};
use opfs_journal::Journal;
use opfs_outside::{Disk, Sink};
use opfs_tree::{FileRow, Row, Tree, Walk};
use std::alloc::Global;

// A row that is put out, with the walk that stands at it. Block 0 begins at byte `base` of the disk.
#[derive(Clone, Copy)]
struct PlacedRow<'a, 'b> {
    walk: &'a Walk<'b>,
    row: &'a Row,
    base: u64,
}

// A file that is put out, with its place.
#[derive(Clone, Copy)]
struct PlacedFile<'a> {
    key: &'a Key,
    path: &'a Path,
    file: &'a FileRow,
    base: u64,
}

// Puts out a comma, where rows stand before.
fn put_comma<K: Sink>(sink: &mut K, later: bool) -> Result<(), DumpStop>
    ensures { Puts K.Sink sink.old sink.new (comma_if later) result }
{
    let text: &[u8] = if later { b"," } else { b"" };
    put_text(sink, text)
}

// Puts out a directory.
fn put_folder<K: Sink>(alloc: Global, sink: &mut K, key: &Key, path: &Path) -> Result<(), DumpStop>
    ensures { Puts K.Sink sink.old sink.new (compact_text (folder_value (key.now, path.now))) result }
{
    match folder_text(alloc, key, path) {
        Ok(text) => put_text(sink, text.as_bytes()),
        Err(_) => Err(DumpStop::NoMemory),
    }
}

// Puts out the digits of a file's bytes, and what stands behind them.
fn put_content<D: Disk, K: Sink>(
    journal: &mut Journal<D>,
    base: u64,
    file: &FileRow,
    behind: &[u8],
    piece: &mut [u8],
    digits: &mut [u8],
    sink: &mut K,
) -> Result<(), DumpStop>
    requires some { 0 < length piece.old }
    requires digits { length digits.old ≡ 2 * length piece.old }
    requires fits { file.now.length ≤ room_of file.now.extents }
    requires lies { AllLie base (D.size journal.old.disk) file.now.extents }
    requires behind { journal.old.areas.first + 2 * journal.old.areas.bytes ≤ base }
    requires small { base < 2 ^ 63 }
    ensures { Dumps D.Disk K.Sink journal.old journal.new sink.old sink.new (λ c. digits_text (bytes_of c base file.now.extents file.now.length) ++ behind.now) result }
{
    let extents = file.extents.as_slice();
    match put_runs(journal, base, extents, file.length, piece, digits, sink) {
        Ok(()) => put_text(sink, behind),
        Err(stop) => Err(stop),
    }
}

// Puts out a file: its bytes, and then its place and its time stamp.
fn put_file<D: Disk, K: Sink>(
    alloc: Global,
    journal: &mut Journal<D>,
    placed: &PlacedFile<'_>,
    piece: &mut [u8],
    digits: &mut [u8],
    sink: &mut K,
) -> Result<(), DumpStop>
    requires some { 0 < length piece.old }
    requires digits { length digits.old ≡ 2 * length piece.old }
    requires fits { placed.now.file.now.length ≤ room_of placed.now.file.now.extents }
    requires lies { AllLie placed.now.base (D.size journal.old.disk) placed.now.file.now.extents }
    requires behind { journal.old.areas.first + 2 * journal.old.areas.bytes ≤ placed.now.base }
    requires small { placed.now.base < 2 ^ 63 }
    ensures { Dumps D.Disk K.Sink journal.old journal.new sink.old sink.new (λ c. compact_text (document_value (placed.now.key.now, placed.now.path.now) (bytes_of c placed.now.base placed.now.file.now.extents placed.now.file.now.length) placed.now.file.now.stamp)) result }
{
    let file = placed.file;
    let behind = match behind_digits(alloc, placed.key, placed.path, file.stamp) {
        Ok(behind) => behind,
        Err(_) => return Err(DumpStop::NoMemory),
    };
    let base = placed.base;
    match put_text(sink, b"{\"hex\":\"") {
        Ok(()) => put_content(journal, base, file, behind.as_bytes(), piece, digits, sink),
        Err(stop) => Err(stop),
    }
}

// Puts out the row where a walk stands.
fn put_row<D: Disk, K: Sink>(
    alloc: Global,
    journal: &mut Journal<D>,
    placed: &PlacedRow<'_, '_>,
    piece: &mut [u8],
    digits: &mut [u8],
    sink: &mut K,
) -> Result<(), DumpStop>
    requires some { 0 < length piece.old }
    requires digits { length digits.old ≡ 2 * length piece.old }
    requires stands { IsSome placed.now.walk.now }
    requires lies { Lies placed.now.base (D.size journal.old.disk) placed.now.row.now }
    requires behind { journal.old.areas.first + 2 * journal.old.areas.bytes ≤ placed.now.base }
    requires small { placed.now.base < 2 ^ 63 }
    ensures { IfSome placed.now.walk.now (λ place. Dumps D.Disk K.Sink journal.old journal.new sink.old sink.new (λ c. compact_text (row_value (place, filled_row placed.now.base c placed.now.row.now))) result) }
{
    let (key, path) = (placed.walk.key(), placed.walk.path());
    match placed.row {
        Row::Dir => put_folder(alloc, sink, key, path),
        Row::File(file) => {
            let placed_file = PlacedFile {
                key,
                path,
                file,
                base: placed.base,
            };
            put_file(alloc, journal, &placed_file, piece, digits, sink)
        }
    }
}

// Puts out the row where a walk stands, with a comma where others stand before.
fn put_next<D: Disk, K: Sink>(
    alloc: Global,
    journal: &mut Journal<D>,
    later: bool,
    placed: &PlacedRow<'_, '_>,
    piece: &mut [u8],
    digits: &mut [u8],
    sink: &mut K,
) -> Result<(), DumpStop>
    requires some { 0 < length piece.old }
    requires digits { length digits.old ≡ 2 * length piece.old }
    requires stands { IsSome placed.now.walk.now }
    requires lies { Lies placed.now.base (D.size journal.old.disk) placed.now.row.now }
    requires behind { journal.old.areas.first + 2 * journal.old.areas.bytes ≤ placed.now.base }
    requires small { placed.now.base < 2 ^ 63 }
    ensures { IfSome placed.now.walk.now (λ place. Dumps D.Disk K.Sink journal.old journal.new sink.old sink.new (λ c. row_text later (place, filled_row placed.now.base c placed.now.row.now)) result) }
{
    match put_comma(sink, later) {
        Ok(()) => put_row(alloc, journal, placed, piece, digits, sink),
        Err(stop) => Err(stop),
    }
}

/// Puts out all rows in the order of their places, and what stands behind them.
pub(crate) fn put_rows<D: Disk, K: Sink>(
    alloc: Global,
    journal: &mut Journal<D>,
    base: u64,
    tree: &Tree,
    piece: &mut [u8],
    digits: &mut [u8],
    sink: &mut K,
) -> Result<(), DumpStop>
    requires some { 0 < length piece.old }
    requires digits { length digits.old ≡ 2 * length piece.old }
    requires lies { RowsLie base (D.size journal.old.disk) tree.now }
    requires behind { journal.old.areas.first + 2 * journal.old.areas.bytes ≤ base }
    requires small { base < 2 ^ 63 }
    ensures { Dumps D.Disk K.Sink journal.old journal.new sink.old sink.new (λ c. rest_text false base c tree.now) result }
{
    let mut walk = Walk::make();
    let mut later = false;
    while let Some(row) = tree.step(&mut walk) {
        let placed = PlacedRow {
            walk: &walk,
            row,
            base,
        };
        match put_next(alloc, journal, later, &placed, piece, digits, sink) {
            Ok(()) => later = true,
            Err(stop) => return Err(stop),
        }
    }
    put_text(sink, b"],\"version\":2}\n")
}
