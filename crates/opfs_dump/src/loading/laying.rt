//! An image that stands for what was read.

ghost use Rattle.std.specs.Prelude.{◌≡◌, ◌⊎◌, ◌+◌, ◌*◌, ◌^◌, ◌<◌, ◌≤◌, ◌∷◌, [], true, false, length, map, Some, Ok, IfOk, OnOk, OnErr, IsErrOf};
ghost use Rattle.opfs_base.specs.Blocks.{blocks};
ghost use Rattle.opfs_codec.specs.declared.change.Format.TheVariants.{New};
ghost use Rattle.opfs_dump.specs.Text.Limits.{blocks_needed, charge_of_map, stored_blocks};
ghost use Rattle.opfs_dump.specs.Text.Seen.{document_of, row_of, stored_of};
ghost use Rattle.opfs_dump.specs.Text.Whole.{dump_of};
ghost use Rattle.opfs_image.specs.Filling.{filled_row};
ghost use Rattle.opfs_image.specs.Reading.{read_as};
ghost use Rattle.opfs_image.specs.Superblock.{area_bytes, image_size, is_in_range};
ghost use Rattle.opfs_journal.specs.Clauses.{Outside};
ghost use Rattle.opfs_journal.specs.Seen.{kept, one_record};
ghost use Rattle.opfs_outside.specs.Bytes.{Same};
ghost use Rattle.opfs_outside.specs.Faults.{Rose};
ghost use Rattle.opfs_records.specs.Replay.Applying.{rows_of};
ghost use Rattle.opfs_records.specs.Replay.Built.{nothing_built};
ghost use Rattle.opfs_dump.specs.Loading.Laid.{IsEmptyOver, IsWritten, StandsAs, StoresBehind, filled_rows, laid, laid_map, laid_row};

use crate::loading::planning::body_of;
use crate::loading::stop::LayStop;
use crate::text::{Dumped, DumpedFile, DumpedRow};
use opfs_base::{Extent, blocks};
use opfs_data::store;
use opfs_image::format;
use opfs_journal::{DiskFault, Journal, JournalRefusal, OpenRefusal};
use opfs_outside::Disk;
use std::alloc::Global;

// Writes a file's bytes into its blocks, from one on, and gives the number behind them.
fn store_file<D: Disk>(
    journal: &mut Journal<D>,
    base: u64,
    at: u32,
    file: &DumpedFile,
) -> Result<u32, DiskFault>
    requires settled { journal.old.in_doubt ≡ false }
    requires small { at + blocks (length file.now.bytes) < 2 ^ 32 }
    requires lies { base + 4096 * (at + blocks (length file.now.bytes)) ≤ D.size journal.old.disk }
    requires behind { journal.old.areas.first + 2 * journal.old.areas.bytes ≤ base }
    requires base { base < 2 ^ 63 }
    ensures stores { StoresBehind D.Disk (base + 4096 * at) journal.old journal.new }
    ensures stored { OnOk result (D.tells → filled_row base (D.content journal.new.disk) (laid_row at (document_of file.now)) ≡ document_of file.now) }
    ensures next { IfOk result (λ next. next ≡ at + blocks (length file.now.bytes)) }
    ensures cause { OnErr result (Rose (D.faults journal.old.disk) (D.faults journal.new.disk)) }
{
    let count = blocks(file.bytes.len() as u64) as u32;
    let run = [Extent { start: at, count }];
    store(journal, base, &run, file.bytes.as_slice())?;
    Ok(at + count)
}

// Writes a row's bytes into its blocks, from one on, and gives the number behind them.
fn store_row<D: Disk>(
    journal: &mut Journal<D>,
    base: u64,
    at: u32,
    row: &DumpedRow,
) -> Result<u32, DiskFault>
    requires settled { journal.old.in_doubt ≡ false }
    requires small { at + stored_blocks (stored_of row.now.file) < 2 ^ 32 }
    requires lies { base + 4096 * (at + stored_blocks (stored_of row.now.file)) ≤ D.size journal.old.disk }
    requires behind { journal.old.areas.first + 2 * journal.old.areas.bytes ≤ base }
    requires base { base < 2 ^ 63 }
    ensures stores { StoresBehind D.Disk (base + 4096 * at) journal.old journal.new }
    ensures stored { OnOk result (D.tells → filled_row base (D.content journal.new.disk) (laid_row at (stored_of row.now.file)) ≡ stored_of row.now.file) }
    ensures next { IfOk result (λ next. next ≡ at + stored_blocks (stored_of row.now.file)) }
    ensures cause { OnErr result (Rose (D.faults journal.old.disk) (D.faults journal.new.disk)) }
{
    match &row.file {
        None => Ok(at),
        Some(file) => store_file(journal, base, at, file),
    }
}

// Writes the bytes of all files into their blocks.
fn store_rows<D: Disk>(
    journal: &mut Journal<D>,
    base: u64,
    rows: &[DumpedRow],
) -> Result<(), DiskFault>
    requires settled { journal.old.in_doubt ≡ false }
    requires small { blocks_needed (map row_of rows.now) < 2 ^ 32 }
    requires lies { base + 4096 * blocks_needed (map row_of rows.now) ≤ D.size journal.old.disk }
    requires behind { journal.old.areas.first + 2 * journal.old.areas.bytes ≤ base }
    requires base { base < 2 ^ 63 }
    ensures stores { StoresBehind D.Disk base journal.old journal.new }
    ensures stored { OnOk result (D.tells → filled_rows base (D.content journal.new.disk) (laid 0 (map row_of rows.now)) ≡ map row_of rows.now) }
    ensures cause { OnErr result (Rose (D.faults journal.old.disk) (D.faults journal.new.disk)) }
{
    let mut at = 0;
    for row in rows {
        match store_row(journal, base, at, row) {
            Ok(next) => at = next,
            Err(fault) => return Err(fault),
        }
    }
    Ok(())
}

// Puts one record in the place of all.
fn put_record<D: Disk>(journal: &mut Journal<D>, body: &[u8]) -> Result<(), DiskFault>
    requires settled { journal.old.in_doubt ≡ false }
    requires spare { length body.now ≤ journal.old.spare }
    requires fits { length body.now + 7 ≤ journal.old.areas.bytes }
    ensures areas { journal.new.areas ≡ journal.old.areas }
    ensures length { D.size journal.new.disk ≡ D.size journal.old.disk }
    ensures kept { OnOk result (D.tells → kept journal.new ≡ one_record journal.old.format body.now) }
    ensures sure { OnOk result (journal.new.in_doubt ≡ false) }
    ensures outside { D.tells → Same (Outside journal.old.areas) (D.content journal.new.disk) (D.content journal.old.disk) }
    ensures later { D.faults journal.old.disk ≤ D.faults journal.new.disk }
    ensures cause { OnErr result (Rose (D.faults journal.old.disk) (D.faults journal.new.disk)) }
{
    match journal.checkpoint(body) {
        Ok(()) => Ok(()),
        Err(JournalRefusal::NoRoom) => unreachable!(),
        Err(JournalRefusal::DiskFault) => Err(DiskFault),
    }
}

// Writes the bytes of all files, and then the record.
fn write_all<D: Disk>(
    journal: &mut Journal<D>,
    base: u64,
    rows: &[DumpedRow],
    body: &[u8],
) -> Result<(), DiskFault>
    requires settled { journal.old.in_doubt ≡ false }
    requires small { blocks_needed (map row_of rows.now) < 2 ^ 32 }
    requires lies { base + 4096 * blocks_needed (map row_of rows.now) ≤ D.size journal.old.disk }
    requires behind { journal.old.areas.first + 2 * journal.old.areas.bytes ≤ base }
    requires base { base < 2 ^ 63 }
    requires spare { length body.now ≤ journal.old.spare }
    requires fits { length body.now + 7 ≤ journal.old.areas.bytes }
    ensures areas { journal.new.areas ≡ journal.old.areas }
    ensures length { D.size journal.new.disk ≡ D.size journal.old.disk }
    ensures written { OnOk result (D.tells → IsWritten base (D.content journal.old.disk) (D.content journal.new.disk) journal.old.areas (map row_of rows.now)) }
    ensures kept { OnOk result (D.tells → kept journal.new ≡ one_record journal.old.format body.now) }
    ensures sure { OnOk result (journal.new.in_doubt ≡ false) }
    ensures later { D.faults journal.old.disk ≤ D.faults journal.new.disk }
    ensures cause { OnErr result (Rose (D.faults journal.old.disk) (D.faults journal.new.disk)) }
{
    match store_rows(journal, base, rows) {
        Ok(()) => put_record(journal, body),
        Err(fault) => Err(fault),
    }
}

// The same over an image that holds nothing.
fn lay_over<D: Disk>(journal: Journal<D>, dumped: &Dumped, body: &[u8]) -> (D, Result<(), LayStop>)
    requires empty { IsEmptyOver D.Disk dumped.now.geometry journal }
    requires builds { rows_of New dumped.now.geometry.blocks (body.now ∷ []) ≡ Some (laid_map (dump_of dumped.now).map) }
    requires few { blocks_needed (dump_of dumped.now).map.rows ≤ dumped.now.geometry.blocks }
    requires range { is_in_range dumped.now.geometry ≡ true }
    requires fits { charge_of_map (dump_of dumped.now).map + 7 ≤ area_bytes dumped.now.geometry }
    requires short { length body.now ≤ charge_of_map (dump_of dumped.now).map }
    ensures stands { OnOk result.1 (D.tells → StandsAs dumped.now.geometry (dump_of dumped.now).map (D.content result.0)) }
    ensures memory { IsErrOf result.1 LayStop.NoMemory → D.tells → read_as New New (D.content result.0) ≡ Ok (record { geometry = dumped.now.geometry; built = nothing_built }) }
    ensures size { D.size result.0 ≡ D.size journal.disk }
    ensures later { D.faults journal.disk ≤ D.faults result.0 }
    ensures cause { IsErrOf result.1 LayStop.DiskFault → Rose (D.faults journal.disk) (D.faults result.0) }
{
    let mut journal = journal;
    let Ok(()) = journal.reserve(body.len() as u64) else {
        return (journal.give_back(), Err(LayStop::NoMemory));
    };
    let base = dumped.geometry.data_base();
    match write_all(&mut journal, base, &dumped.rows, body) {
        Ok(()) => (journal.give_back(), Ok(())),
        Err(_) => (journal.give_back(), Err(LayStop::DiskFault)),
    }
}

// The same over an image that was made and holds nothing.
fn lay_on<D: Disk>(alloc: Global, dumped: &Dumped, body: &[u8], disk: D) -> (D, Result<(), LayStop>)
    requires empty { D.tells → read_as New New (D.content disk) ≡ Ok (record { geometry = dumped.now.geometry; built = nothing_built }) }
    requires length { image_size dumped.now.geometry ≤ D.size disk }
    requires builds { rows_of New dumped.now.geometry.blocks (body.now ∷ []) ≡ Some (laid_map (dump_of dumped.now).map) }
    requires few { blocks_needed (dump_of dumped.now).map.rows ≤ dumped.now.geometry.blocks }
    requires range { is_in_range dumped.now.geometry ≡ true }
    requires fits { charge_of_map (dump_of dumped.now).map + 7 ≤ area_bytes dumped.now.geometry }
    requires short { length body.now ≤ charge_of_map (dump_of dumped.now).map }
    ensures stands { OnOk result.1 (D.tells → StandsAs dumped.now.geometry (dump_of dumped.now).map (D.content result.0)) }
    ensures memory { IsErrOf result.1 LayStop.NoMemory → D.tells → read_as New New (D.content result.0) ≡ Ok (record { geometry = dumped.now.geometry; built = nothing_built }) }
    ensures size { D.size result.0 ≡ D.size disk }
    ensures later { D.faults disk ≤ D.faults result.0 }
    ensures cause { IsErrOf result.1 LayStop.DiskFault → Rose (D.faults disk) (D.faults result.0) }
{
    match Journal::begin(alloc, disk, dumped.geometry.journal_areas()) {
        Ok(journal) => lay_over(journal, dumped, body),
        Err((disk, OpenRefusal::DiskFault)) => (disk, Err(LayStop::DiskFault)),
        Err((disk, _)) => (disk, Err(LayStop::NoMemory)),
    }
}

/// Makes a disk an image that stands for what was read: formats it, writes the files' bytes into blocks one behind another, and
/// puts one record in the place of all. For want of memory the disk is as it was, or an image of these sizes that holds nothing:
/// all is taken before the disk is written, but for the journal's, which is taken before files are. After a fault of the disk,
/// or a stop, there may be no image.
pub fn lay<D: Disk>(alloc: Global, dumped: &Dumped, disk: D) -> (D, Result<(), LayStop>)
    requires { image_size dumped.now.geometry ≤ D.size disk }
    ensures stands { OnOk result.1 (D.tells → StandsAs dumped.now.geometry (dump_of dumped.now).map (D.content result.0)) }
    ensures memory { IsErrOf result.1 LayStop.NoMemory → (result.0 ≡ disk) ⊎ (D.tells → read_as New New (D.content result.0) ≡ Ok (record { geometry = dumped.now.geometry; built = nothing_built })) }
    ensures size { D.size result.0 ≡ D.size disk }
    ensures later { D.faults disk ≤ D.faults result.0 }
    ensures cause { IsErrOf result.1 LayStop.DiskFault → Rose (D.faults disk) (D.faults result.0) }
{
    let Ok(body) = body_of(alloc, dumped) else {
        return (disk, Err(LayStop::NoMemory));
    };
    let mut disk = disk;
    match format(&mut disk, dumped.geometry) {
        Ok(()) => lay_on(alloc, dumped, &body, disk),
        Err(_) => (disk, Err(LayStop::DiskFault)),
    }
}
