//! What an image is read as.

ghost use Rattle.std.specs.Prelude.{◌≡◌, ◌⊎◌, ◌+◌, ◌*◌, ◌^◌, ◌<◌, ◌≤◌, ◌==◌, ℕ, true, Ok, Err, IfOk, IfErr, OnErr, IsErrOf};
ghost use Rattle.opfs_codec.specs.declared.change.Format.{Format as AFormat};
ghost use Rattle.opfs_codec.specs.declared.change.Format.TheVariants.{New};
ghost use Rattle.opfs_outside.specs.Faults.{Rose};
ghost use Rattle.opfs_journal.specs.Format.{begin_of, chosen_in, format_of};
ghost use Rattle.opfs_journal.specs.Walking.{OnlyRead};
ghost use Rattle.opfs_image.specs.Agreeing.{built_in, Agrees, IsRebuilt};
ghost use Rattle.opfs_image.specs.Answers.{not_of};
ghost use Rattle.opfs_image.specs.Reading.{format_number, area_built, read_as};
ghost use Rattle.opfs_image.specs.Superblock.{areas_of, image_size, is_in_range};
ghost use Rattle.opfs_image.specs.Walking.{IsFound};

use crate::records::replay_records;
use crate::superblock::read_geometry;
use crate::{Geometry, ImageRefusal};
use opfs_base::BLOCK_SIZE;
use opfs_codec::Format;
use opfs_journal::{Ruling, find_ruling};
use opfs_outside::Disk;
use opfs_records::{Rebuilt, Replay};
use std::alloc::Global;

/// An image that was read: its sizes, and what its records build.
#[derive(Drop)]
pub struct ReadImage {
    /// The sizes of the image.
    pub geometry: Geometry,
    /// What its records build.
    pub parts: Rebuilt,
}

// Whether an area is of a format.
fn is_of_format(ruling: Ruling, wanted: Format) -> bool
    ensures { result ≡ (format_of ruling.generation == format_number wanted) }
{
    let old = ruling.generation < 16;
    match wanted {
        Format::Old => old,
        Format::New => !old,
    }
}

// Why an image is refused whose ruling area is not of this format.
fn not_of(wanted: Format) -> ImageRefusal
    ensures { result ≡ not_of wanted }
{
    match wanted {
        Format::Old => ImageRefusal::NotOld,
        Format::New => ImageRefusal::Old,
    }
}

// The geometry, and whether area 1 rules.
fn find_area<D: Disk>(disk: &mut D, wanted: Format) -> Result<(Geometry, bool), ImageRefusal>
    ensures only { OnlyRead D.Disk disk.old disk.new }
    ensures range { IfOk result (λ found. is_in_range found.0 ≡ true) }
    ensures fits { IfOk result (λ found. image_size found.0 ≤ D.size disk.old) }
    ensures found { IfOk result (λ found. D.tells → IsFound wanted (D.content disk.old) found.0 found.1) }
    ensures refused { IfErr result (λ e. (e ≡ ImageRefusal.DiskFault) ⊎ (e ≡ ImageRefusal.NoMemory) ⊎ (D.tells → read_as wanted New (D.content disk.old) ≡ Err e)) }
    ensures cause { IsErrOf result ImageRefusal.DiskFault → Rose (D.faults disk.old) (D.faults disk.new) }
{
    let geometry = read_geometry(disk)?;
    let ruling = find_ruling(disk, geometry.journal_areas())?;
    if !is_of_format(ruling, wanted) {
        return Err(not_of(wanted));
    }
    Ok((geometry, ruling.second))
}

// What the records of an area build.
fn rebuild<D: Disk>(
    alloc: Global,
    disk: &mut D,
    geometry: Geometry,
    second: bool,
    wanted: Format,
) -> Result<Rebuilt, ImageRefusal>
    requires range { is_in_range geometry ≡ true }
    requires fits { image_size geometry ≤ D.size disk.old }
    ensures only { OnlyRead D.Disk disk.old disk.new }
    ensures built { IfOk result (λ all. D.tells → area_built wanted geometry.blocks (D.content disk.old) (areas_of geometry) second ≡ Ok (built_in all.tree all.shed)) }
    ensures agrees { IfOk result (λ all. IsRebuilt geometry all.tree all.shed all.map all.charge) }
    ensures refused { IfErr result (λ e. (e ≡ ImageRefusal.DiskFault) ⊎ (e ≡ ImageRefusal.NoMemory)
        ⊎ ((gate : ℕ) × (e ≡ ImageRefusal.BadRecord gate) × (D.tells → area_built wanted geometry.blocks (D.content disk.old) (areas_of geometry) second ≡ Err gate))) }
    ensures cause { IsErrOf result ImageRefusal.DiskFault → Rose (D.faults disk.old) (D.faults disk.new) }
{
    let areas = geometry.journal_areas();
    let begin = areas.begin(second);
    let nothing = Replay::make(alloc, geometry.blocks, u64::from(geometry.quota))?;
    let replay = replay_records(alloc, disk, wanted, begin, begin + areas.bytes, nothing)?;
    let all = replay.finish()?;
    Ok(all)
}

/// Reads an image of a format: its superblock and the area that rules, and no data block. The charge is that of format 2.
pub fn read_image<D: Disk>(
    alloc: Global,
    disk: &mut D,
    wanted: Format,
) -> Result<ReadImage, ImageRefusal>
    ensures only { OnlyRead D.Disk disk.old disk.new }
    ensures agrees { IfOk result (λ image. Agrees image.geometry image.parts.tree image.parts.shed image.parts.map image.parts.charge) }
    ensures length { IfOk result (λ image. image_size image.geometry ≤ D.size disk.old) }
    ensures image { IfOk result (λ image. D.tells → read_as wanted New (D.content disk.old) ≡ Ok (record { geometry = image.geometry; built = built_in image.parts.tree image.parts.shed })) }
    ensures refused { IfErr result (λ e. (e ≡ ImageRefusal.DiskFault) ⊎ (e ≡ ImageRefusal.NoMemory) ⊎ (D.tells → read_as wanted New (D.content disk.old) ≡ Err e)) }
    ensures cause { IsErrOf result ImageRefusal.DiskFault → Rose (D.faults disk.old) (D.faults disk.new) }
{
    let (geometry, second) = find_area(disk, wanted)?;
    let parts = rebuild(alloc, disk, geometry, second, wanted)?;
    let area = BLOCK_SIZE * u64::from(geometry.areas);
    if area < parts.charge.saturating_add(7) {
        return Err(ImageRefusal::Overfull(parts.charge, area));
    }
    Ok(ReadImage { geometry, parts })
}
