//! The digests of an image's files.

ghost use Rattle.std.specs.Prelude.{◌≡◌, ◌+◌, ◌*◌, ◌^◌, ◌<◌, ◌≤◌, ◌++◌, IfOk, OnOk, OnErr, IsErrOf};
ghost use Rattle.opfs_codec.specs.declared.change.Format.TheVariants.{New};
ghost use Rattle.opfs_data.specs.Calls.{Reads};
ghost use Rattle.opfs_image.specs.Agreeing.{built_in};
ghost use Rattle.opfs_image.specs.Filling.{filled};
ghost use Rattle.opfs_image.specs.Superblock.{data_base};
ghost use Rattle.opfs_outside.specs.Faults.{Rose};
ghost use Rattle.opfs_records.specs.Replay.Sums.{charge_of, persistent_in};
ghost use Rattle.opfs_tools.specs.Checking.{counts_line, check_text};
ghost use Rattle.opfs_tools.specs.Reading.{RowsLie, stored_lines};
ghost use Rattle.opfs_tools.specs.Sights.{sights_in};

use crate::counts::counts_line;
use crate::digests::digests_text;
use opfs_data::DataRefusal;
use opfs_image::Recovered;
use opfs_journal::Journal;
use opfs_outside::Disk;
use opfs_shed::Shed;
use opfs_tree::Tree;
use std::alloc::Global;

// The text of rows and persistent units.
fn check_text<D: Disk>(
    alloc: Global,
    journal: &mut Journal<D>,
    base: u64,
    tree: &Tree,
    shed: &Shed,
    charge: u64,
) -> Result<Vec<u8>, DataRefusal>
    requires charge { charge ≡ charge_of New (built_in tree.now shed.now) }
    requires lies { RowsLie base (D.size journal.old.disk) tree.now }
    requires behind { journal.old.areas.first + 2 * journal.old.areas.bytes ≤ base }
    requires small { base < 2 ^ 63 }
    ensures reads { Reads D.Disk journal.old journal.new }
    ensures text { IfOk result (λ text. D.tells → text.items ≡ stored_lines base (D.content journal.old.disk) tree.now ++ counts_line (sights_in tree.now) (persistent_in shed.now.buckets)) }
    ensures cause { IsErrOf result DataRefusal.DiskFault → Rose (D.faults journal.old.disk) (D.faults journal.new.disk) }
{
    let mut text = digests_text(alloc, journal, base, tree)?;
    let line = counts_line(alloc, tree, shed, charge)?;
    text.extend_from_slice(line.as_bytes())?;
    Ok(text)
}

/// Reads all files, and appends a line for each, with the SHA-256 of its bytes, its unit and its path; then one with the
/// number of units that `list` prints, of directories, of files and of used data blocks, and the charge in bytes. At an
/// `Err` nothing is appended.
pub fn check<D: Disk>(
    alloc: Global,
    from: &mut Recovered<D>,
    into: &mut Vec<u8>,
) -> Result<(), DataRefusal>
    ensures checked { OnOk result (D.tells → into.new.items ≡ into.old.items ++ check_text (filled (data_base from.old.geometry) (D.content from.old.journal.disk) (built_in from.old.tree from.old.shed))) }
    ensures err { OnErr result (into.new.items ≡ into.old.items) }
    ensures reads { Reads D.Disk from.old.journal from.new.journal }
    ensures geometry { from.new.geometry ≡ from.old.geometry }
    ensures tree { from.new.tree ≡ from.old.tree }
    ensures shed { from.new.shed ≡ from.old.shed }
    ensures map { from.new.map ≡ from.old.map }
    ensures charge { from.new.charge ≡ from.old.charge }
    ensures cause { IsErrOf result DataRefusal.DiskFault → Rose (D.faults from.old.journal.disk) (D.faults from.new.journal.disk) }
{
    let base = from.geometry.data_base();
    let text = check_text(
        alloc,
        &mut from.journal,
        base,
        &from.tree,
        &from.shed,
        from.charge,
    )?;
    into.extend_from_slice(text.as_slice())?;
    Ok(())
}
