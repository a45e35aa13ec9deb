//! Images that are made anew.

ghost use Rattle.std.specs.Prelude.{◌≡◌, ◌+◌, ◌*◌, ◌^◌, ◌<◌, ◌≤◌, ◌++◌, ℕ, List, true, Ok, length, drop, slice_index, OnOk, OnErr};
ghost use Rattle.opfs_codec.specs.declared.change.Format.TheVariants.{New};
ghost use Rattle.opfs_machine.specs.Openings.{empty_map};
ghost use Rattle.opfs_outside.specs.Faults.{Rose};
ghost use Rattle.opfs_outside.specs.Bytes.{Same, window};
ghost use Rattle.opfs_records.specs.Replay.Built.{nothing_built};
ghost use Rattle.opfs_image.specs.Empty.{head_bytes, IsEmptyJournal};
ghost use Rattle.opfs_image.specs.Filling.{Stands};
ghost use Rattle.opfs_image.specs.Reading.{read_as};
ghost use Rattle.opfs_image.specs.Superblock.{areas_of, image_size, is_in_range};

use crate::Geometry;
use crate::superblock::MAGIC;
use opfs_journal::{Areas, DiskFault};
use opfs_outside::{Disk, Failed};

// A first record without changes behind an open gate, of generation 0 in format 2, and a closed gate.
const FIRST_RECORD: [u8; 7] = [0xA5, 1, 0, 0, 0, 16, 0];

// The version of an image of format 2.
const VERSION: u32 = 2;

// Writes the first gate of area 1 closed, and a first record into area 0.
fn write_areas<D: Disk>(disk: &mut D, areas: Areas) -> Result<(), Failed>
    requires lies { areas.first + 2 * areas.bytes ≤ D.size disk.old }
    requires fits { areas.first + 2 * areas.bytes < 2 ^ 64 }
    requires least { 7 ≤ areas.bytes }
    ensures size { D.size disk.new ≡ D.size disk.old }
    ensures empty { OnOk result (D.tells → IsEmptyJournal areas (D.content disk.new)) }
    ensures later { D.faults disk.old ≤ D.faults disk.new }
    ensures cause { OnErr result (Rose (D.faults disk.old) (D.faults disk.new)) }
{
    disk.write(areas.first + areas.bytes, &[0])?;
    disk.write(areas.first, &FIRST_RECORD)?;
    disk.sync()?;
    Ok(())
}

// The first bytes of the superblock.
fn head(geometry: Geometry) -> [u8; 24]
    ensures { result ≡ head_bytes geometry }
{
    let v = VERSION.to_le_bytes();
    let a = geometry.areas.to_le_bytes();
    let b = geometry.blocks.to_le_bytes();
    let q = geometry.quota.to_le_bytes();
    [
        MAGIC[0], MAGIC[1], MAGIC[2], MAGIC[3], MAGIC[4], MAGIC[5], MAGIC[6], MAGIC[7], v[0], v[1],
        v[2], v[3], a[0], a[1], a[2], a[3], b[0], b[1], b[2], b[3], q[0], q[1], q[2], q[3],
    ]
}

// Writes the superblock.
fn write_superblock<D: Disk>(disk: &mut D, geometry: Geometry) -> Result<(), Failed>
    requires { 4096 ≤ D.size disk.old }
    ensures size { D.size disk.new ≡ D.size disk.old }
    ensures head { OnOk result (D.tells → window (D.content disk.new) 0 24 ≡ head_bytes geometry) }
    ensures zeros { OnOk result (D.tells → (i : ℕ) → 24 ≤ i → i < 4096 → slice_index (D.content disk.new) i ≡ 0) }
    ensures behind { D.tells → Same (λ i. 4096 ≤ i) (D.content disk.new) (D.content disk.old) }
    ensures durable { OnOk result (D.tells → (c : List ℕ) → D.since disk.new (D.moment disk.new) c → c ≡ D.content disk.new) }
    ensures later { D.faults disk.old ≤ D.faults disk.new }
    ensures cause { OnErr result (Rose (D.faults disk.old) (D.faults disk.new)) }
{
    disk.write(24, &[0; 4072])?;
    disk.write(0, &head(geometry))?;
    disk.sync()?;
    Ok(())
}

/// Makes a disk an image of these sizes that holds nothing, and syncs. Its superblock has version 2, and zeros behind
/// the sizes. A stop within it may leave no image.
pub fn format<D: Disk>(disk: &mut D, geometry: Geometry) -> Result<(), DiskFault>
    requires range { is_in_range geometry ≡ true }
    requires fits { image_size geometry ≤ D.size disk.old }
    ensures size { D.size disk.new ≡ D.size disk.old }
    ensures image { OnOk result (D.tells → read_as New New (D.content disk.new) ≡ Ok (record { geometry = geometry; built = nothing_built })) }
    ensures stands { OnOk result (D.tells → Stands (D.content disk.new) empty_map) }
    ensures head { OnOk result (D.tells → window (D.content disk.new) 0 24 ≡ head_bytes geometry) }
    ensures zeros { OnOk result (D.tells → (i : ℕ) → 24 ≤ i → i < 4096 → slice_index (D.content disk.new) i ≡ 0) }
    ensures durable { OnOk result (D.tells → (c : List ℕ) → D.since disk.new (D.moment disk.new) c → c ≡ D.content disk.new) }
    ensures later { D.faults disk.old ≤ D.faults disk.new }
    ensures cause { OnErr result (Rose (D.faults disk.old) (D.faults disk.new)) }
{
    write_areas(disk, geometry.journal_areas())?;
    write_superblock(disk, geometry)?;
    Ok(())
}
