//! What an image has.

ghost use Rattle.std.specs.Prelude.{◌≡◌, ◌^◌, ◌<◌, ◌++◌, IfOk, OnOk, OnErr};
ghost use Rattle.std.specs.List.{flat_map};
ghost use Rattle.opfs_image.specs.Agreeing.{built_in};
ghost use Rattle.opfs_image.specs.Filling.{filled};
ghost use Rattle.opfs_image.specs.Superblock.{data_base};
ghost use Rattle.opfs_records.specs.Replay.Sums.{persistent_in};
ghost use Rattle.opfs_tools.specs.Listing.{list_of, list_text, row_line, unit_text};
ghost use Rattle.opfs_tools.specs.Sights.{sights_in, used_blocks};

use crate::gathering::{persistent_of, rows_of};
use crate::lines::{row_line, unit_line};
use crate::sights::Entry;
use crate::units::{Unit, units_of};
use opfs_image::Recovered;
use opfs_outside::Disk;
use opfs_shed::Shed;
use opfs_tree::Tree;
use std::alloc::{AllocError, Global};

// Appends the lines of rows.
fn add_rows(alloc: Global, rows: &[Entry], text: &mut Vec<u8>) -> Result<(), AllocError>
    ensures { OnOk result (text.new.items ≡ text.old.items ++ flat_map row_line rows.now) }
{
    for entry in rows {
        let line = row_line(alloc, entry)?;
        text.extend_from_slice(line.as_bytes())?;
    }
    Ok(())
}

// Appends the lines of a unit.
#[tactic(auto, unfolding(crate::specs::Listing::unit_text))]
fn add_unit(alloc: Global, unit: &Unit, text: &mut Vec<u8>) -> Result<(), AllocError>
    ensures { OnOk result (text.new.items ≡ text.old.items ++ unit_text unit.now) }
{
    let line = unit_line(alloc, unit)?;
    text.extend_from_slice(line.as_bytes())?;
    add_rows(alloc, unit.rows(), text)?;
    Ok(())
}

// The lines of units.
fn units_text(alloc: Global, units: &[Unit]) -> Result<Vec<u8>, AllocError>
    ensures { IfOk result (λ text. text.items ≡ flat_map unit_text units.now) }
{
    let mut text = Vec::new(alloc);
    for unit in units {
        add_unit(alloc, unit, &mut text)?;
    }
    Ok(text)
}

// The text of rows and persistent units.
fn list_text(alloc: Global, tree: &Tree, shed: &Shed) -> Result<Vec<u8>, AllocError>
    requires { used_blocks (sights_in tree.now) < 2 ^ 64 }
    ensures { IfOk result (λ text. text.items ≡ list_of (sights_in tree.now) (persistent_in shed.now.buckets)) }
{
    let rows = rows_of(alloc, tree)?;
    let persistent = persistent_of(alloc, shed)?;
    let units = units_of(alloc, &rows, &persistent)?;
    let text = units_text(alloc, &units)?;
    Ok(text)
}

/// Appends a line for each unit that has a root or is persistent, with its mode and its number of data blocks, and behind
/// it one for each of its rows: a directory's path, or a file's path, length in bytes and time stamp. Calls no disk. Where
/// there is no memory nothing is appended.
pub fn list<D: Disk>(
    alloc: Global,
    from: &Recovered<D>,
    into: &mut Vec<u8>,
) -> Result<(), AllocError>
    ensures listed { OnOk result (D.tells → into.new.items ≡ into.old.items ++ list_text (filled (data_base from.now.geometry) (D.content from.now.journal.disk) (built_in from.now.tree from.now.shed))) }
    ensures built { OnOk result (into.new.items ≡ into.old.items ++ list_of (sights_in from.now.tree) (persistent_in from.now.shed.buckets)) }
    ensures err { OnErr result (into.new.items ≡ into.old.items) }
{
    let text = list_text(alloc, &from.tree, &from.shed)?;
    into.extend_from_slice(text.as_slice())
}
