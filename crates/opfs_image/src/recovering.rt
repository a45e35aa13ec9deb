//! Images that are recovered.

ghost use Rattle.std.specs.Prelude.{◌≡◌, ◌≢◌, ◌+◌, ◌*◌, ◌≤◌, ℕ, Ok, Err, IfOk, IfErr, IsErrOf};
ghost use Rattle.opfs_codec.specs.declared.change.Format.TheVariants.{New};
ghost use Rattle.opfs_outside.specs.Faults.{Rose};
ghost use Rattle.opfs_journal.specs.Walking.{OnlyRead};
ghost use Rattle.opfs_image.specs.Agreeing.{built_in, Agrees};
ghost use Rattle.opfs_image.specs.Filling.{Stands, filled};
ghost use Rattle.opfs_image.specs.Reading.{read_as};
ghost use Rattle.opfs_image.specs.Superblock.{data_base, image_size};

use crate::{ImageRefusal, ReadImage, Recovered, read_image};
use opfs_codec::Format;
use opfs_journal::Journal;
use opfs_outside::Disk;
use std::alloc::Global;

// Begins the journal of an image that was read.
fn begin<D: Disk>(
    alloc: Global,
    disk: D,
    image: ReadImage,
) -> Result<Recovered<D>, (D, ImageRefusal)>
    requires agrees { Agrees image.geometry image.parts.tree image.parts.shed image.parts.map image.parts.charge }
    requires length { image_size image.geometry ≤ D.size disk }
    requires image { D.tells → read_as New New (D.content disk) ≡ Ok (record { geometry = image.geometry; built = built_in image.parts.tree image.parts.shed }) }
    ensures stands { IfOk result (λ all. D.tells → Stands (D.content disk) (filled (data_base all.geometry) (D.content disk) (built_in all.tree all.shed))) }
    ensures only_read { IfOk result (λ all. OnlyRead D.Disk disk all.journal.disk) }
    ensures refused { IfErr result (λ err. err.1 ≢ ImageRefusal.DiskFault → err.1 ≢ ImageRefusal.NoMemory → D.tells → read_as New New (D.content disk) ≡ Err err.1) }
    ensures only_read_err { IfErr result (λ err. OnlyRead D.Disk disk err.0) }
    ensures cause { IfErr result (λ err. err.1 ≡ ImageRefusal.DiskFault → Rose (D.faults disk) (D.faults err.0)) }
{
    let ReadImage { geometry, parts } = image;
    let areas = geometry.journal_areas();
    match Journal::begin(alloc, disk, areas) {
        Ok(journal) => Ok(Recovered {
            journal,
            geometry,
            tree: parts.tree,
            shed: parts.shed,
            map: parts.map,
            charge: parts.charge,
        }),
        Err((disk, refusal)) => Err((disk, ImageRefusal::from(refusal))),
    }
}

/// Recovers the image that a disk holds, and syncs. It reads the superblock and the two areas, and no data block: the map
/// that the image stands for is its rows, with the bytes that the disk has in their blocks. A refusal gives the disk back;
/// the first that holds comes, in the order in which `ImageRefusal` lists them but for `Short`, which also stands for a
/// length that the superblock asks for.
pub fn recover<D: Disk>(alloc: Global, disk: D) -> Result<Recovered<D>, (D, ImageRefusal)>
    ensures stands { IfOk result (λ image. D.tells → Stands (D.content disk) (filled (data_base image.geometry) (D.content disk) (built_in image.tree image.shed))) }
    ensures only_read { IfOk result (λ image. OnlyRead D.Disk disk image.journal.disk) }
    ensures refused { IfErr result (λ err. err.1 ≢ ImageRefusal.DiskFault → err.1 ≢ ImageRefusal.NoMemory → D.tells → read_as New New (D.content disk) ≡ Err err.1) }
    ensures only_read_err { IfErr result (λ err. OnlyRead D.Disk disk err.0) }
    ensures cause { IfErr result (λ err. err.1 ≡ ImageRefusal.DiskFault → Rose (D.faults disk) (D.faults err.0)) }
{
    let mut disk = disk;
    match read_image(alloc, &mut disk, Format::New) {
        Ok(image) => begin(alloc, disk, image),
        Err(refusal) => Err((disk, refusal)),
    }
}
