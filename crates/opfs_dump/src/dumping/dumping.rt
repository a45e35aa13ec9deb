//! An image as one JSON text.

ghost use Rattle.std.specs.Prelude.{◌≡◌, ◌+◌, ◌*◌, ◌^◌, ◌<◌, ◌≤◌, ◌++◌, false, length, IfOk};
ghost use Rattle.opfs_image.specs.Agreeing.{built_in};
ghost use Rattle.opfs_image.specs.Filling.{filled};
ghost use Rattle.opfs_image.specs.Superblock.{data_base};
ghost use Rattle.opfs_records.specs.Replay.Sums.{persistent_in};
ghost use Rattle.opfs_tools.specs.Reading.{RowsLie};
ghost use Rattle.opfs_dump.specs.Text.Texts.{dump_text};
ghost use Rattle.opfs_dump.specs.Dumping.Pieces.{head_text, rest_text};
ghost use Rattle.opfs_dump.specs.Dumping.Putting.{Dumps, Puts};

use crate::dumping::files::PIECE;
use crate::dumping::output::put_text;
use crate::dumping::pieces::head_text;
use crate::dumping::rows::put_rows;
use crate::dumping::stop::DumpStop;
use opfs_image::{Geometry, Recovered};
use opfs_journal::Journal;
use opfs_outside::{Disk, Sink};
use opfs_shed::Shed;
use opfs_tree::Tree;
use std::alloc::{AllocError, Global};

// So many zeros.
fn zeros(alloc: Global, len: usize) -> Result<Vec<u8>, AllocError>
    ensures { IfOk result (λ bytes. length bytes.items ≡ len) }
{
    let bytes = vec![in alloc; 0u8; len]?;
    Ok(bytes)
}

// Room for a piece of a file, and for its digits.
fn buffers(alloc: Global) -> Result<(Vec<u8>, Vec<u8>), AllocError>
    ensures piece { IfOk result (λ b. length b.0.items ≡ 65536) }
    ensures digits { IfOk result (λ b. length b.1.items ≡ 2 * length b.0.items) }
{
    let piece = zeros(alloc, PIECE)?;
    let digits = zeros(alloc, 2 * PIECE)?;
    Ok((piece, digits))
}

// Puts out what stands before the rows.
fn put_head<K: Sink>(
    alloc: Global,
    geometry: Geometry,
    shed: &Shed,
    sink: &mut K,
) -> Result<(), DumpStop>
    ensures { Puts K.Sink sink.old sink.new (head_text geometry (persistent_in shed.now.buckets)) result }
{
    match head_text(alloc, geometry, shed) {
        Ok(text) => put_text(sink, text.as_bytes()),
        Err(_) => Err(DumpStop::NoMemory),
    }
}

// Puts out all rows, and what stands behind them.
fn put_all_rows<D: Disk, K: Sink>(
    alloc: Global,
    journal: &mut Journal<D>,
    base: u64,
    tree: &Tree,
    sink: &mut K,
) -> Result<(), DumpStop>
    requires lies { RowsLie base (D.size journal.old.disk) tree.now }
    requires behind { journal.old.areas.first + 2 * journal.old.areas.bytes ≤ base }
    requires small { base < 2 ^ 63 }
    ensures { Dumps D.Disk K.Sink journal.old journal.new sink.old sink.new (λ c. rest_text false base c tree.now) result }
{
    match buffers(alloc) {
        Ok((mut piece, mut digits)) => {
            put_rows(alloc, journal, base, tree, &mut piece, &mut digits, sink)
        }
        Err(_) => Err(DumpStop::NoMemory),
    }
}

// Puts out the text of rows and persistent units.
fn put_parts<D: Disk, K: Sink>(
    alloc: Global,
    journal: &mut Journal<D>,
    geometry: Geometry,
    base: u64,
    tree: &Tree,
    shed: &Shed,
    sink: &mut K,
) -> Result<(), DumpStop>
    requires lies { RowsLie base (D.size journal.old.disk) tree.now }
    requires behind { journal.old.areas.first + 2 * journal.old.areas.bytes ≤ base }
    requires small { base < 2 ^ 63 }
    ensures { Dumps D.Disk K.Sink journal.old journal.new sink.old sink.new (λ c. head_text geometry (persistent_in shed.now.buckets) ++ rest_text false base c tree.now) result }
{
    match put_head(alloc, geometry, shed, sink) {
        Ok(()) => put_all_rows(alloc, journal, base, tree, sink),
        Err(stop) => Err(stop),
    }
}

/// Puts out an image's map as one compact JSON text with a line feed behind it: the sizes of the image, its persistent units
/// in order, and its rows in the order of their places, each with the bytes of its file in hexadecimal digits. It reads at
/// most 65,536 bytes of a file at once, and keeps none. Where it ends early, a front of the text was put out.
pub fn dump<D: Disk, K: Sink>(
    alloc: Global,
    from: &mut Recovered<D>,
    sink: &mut K,
) -> Result<(), DumpStop>
    ensures dumps { Dumps D.Disk K.Sink from.old.journal from.new.journal sink.old sink.new (λ c. dump_text from.old.geometry (filled (data_base from.old.geometry) c (built_in from.old.tree from.old.shed))) result }
    ensures geometry { from.new.geometry ≡ from.old.geometry }
    ensures tree { from.new.tree ≡ from.old.tree }
    ensures shed { from.new.shed ≡ from.old.shed }
    ensures map { from.new.map ≡ from.old.map }
    ensures charge { from.new.charge ≡ from.old.charge }
{
    let base = from.geometry.data_base();
    put_parts(
        alloc,
        &mut from.journal,
        from.geometry,
        base,
        &from.tree,
        &from.shed,
        sink,
    )
}
