//! The counts of an image.

ghost use Rattle.std.specs.Prelude.{◌≡◌, ◌^◌, ◌<◌, length, IfOk, string_bytes};
ghost use Rattle.opfs_codec.specs.declared.change.Format.TheVariants.{New};
ghost use Rattle.opfs_image.specs.Agreeing.{built_in};
ghost use Rattle.opfs_records.specs.Replay.Sums.{charge_of, persistent_in};
ghost use Rattle.opfs_tools.specs.Checking.{is_directory, is_file, count_of, ok_line, counts_line};
ghost use Rattle.opfs_tools.specs.Sights.{sights_in, used_blocks};

use crate::gathering::{persistent_of, rows_of};
use crate::sights::{Entry, Sight};
use crate::units::{Unit, units_of, used_blocks};
use opfs_shed::Shed;
use opfs_tree::Tree;
use std::alloc::{AllocError, Global};

fn is_directory(entry: &Entry) -> bool
    ensures { result ≡ is_directory entry.now }
{
    match entry.sight() {
        Sight::Directory => true,
        Sight::File(..) => false,
    }
}

fn is_file(entry: &Entry) -> bool
    ensures { result ≡ is_file entry.now }
{
    match entry.sight() {
        Sight::Directory => false,
        Sight::File(..) => true,
    }
}

fn count_directories(rows: &[Entry]) -> usize
    ensures { result ≡ count_of is_directory rows.now }
{
    rows.iter().filter(|entry| is_directory(*entry)).count()
}

fn count_files(rows: &[Entry]) -> usize
    ensures { result ≡ count_of is_file rows.now }
{
    rows.iter().filter(|entry| is_file(*entry)).count()
}

// The line of units, of rows, and of a charge.
fn ok_line(alloc: Global, units: &[Unit], rows: &[Entry], charge: u64) -> Result<String, AllocError>
    requires { used_blocks rows.now < 2 ^ 64 }
    ensures { IfOk result (λ text. string_bytes text ≡ ok_line (length units.now) (count_of is_directory rows.now) (count_of is_file rows.now) (used_blocks rows.now) charge) }
{
    let directories = count_directories(rows);
    let files = count_files(rows);
    let used = used_blocks(rows);
    format!(in alloc;
        "ok {} {directories} {files} {used} {charge}\n",
        units.len()
    )
}

/// The last line of a check.
pub(crate) fn counts_line(
    alloc: Global,
    tree: &Tree,
    shed: &Shed,
    charge: u64,
) -> Result<String, AllocError>
    requires { charge ≡ charge_of New (built_in tree.now shed.now) }
    ensures { IfOk result (λ text. string_bytes text ≡ counts_line (sights_in tree.now) (persistent_in shed.now.buckets)) }
{
    let rows = rows_of(alloc, tree)?;
    let persistent = persistent_of(alloc, shed)?;
    let units = units_of(alloc, &rows, &persistent)?;
    let line = ok_line(alloc, &units, &rows, charge)?;
    Ok(line)
}
