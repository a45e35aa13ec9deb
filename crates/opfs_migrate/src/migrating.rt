//! An image of format 1 becomes one of format 2.

ghost use Rattle.std.specs.Prelude.{◌≡◌, ◌≢◌, ◌⊎◌, ◌≤◌, ℕ, List, Err, IfOk, IfErr};
ghost use Rattle.opfs_codec.specs.declared.change.Format.TheVariants.{Old, New};
ghost use Rattle.opfs_outside.specs.Faults.{Rose};
ghost use Rattle.opfs_journal.specs.Walking.{OnlyRead};
ghost use Rattle.opfs_machine.specs.Openings.{Map};
ghost use Rattle.opfs_image.specs.Filling.{Stands, StandsOld};
ghost use Rattle.opfs_image.specs.Reading.{read_as};
ghost use Rattle.opfs_migrate.specs.Migrating.{AreMigrated, StandsEither};

use crate::planning::read_plan;
use crate::raising::raise_image;
use opfs_image::ImageRefusal;
use opfs_outside::Disk;
use std::alloc::Global;

/// Makes an image of format 1 one of format 2 that stands for the same, and gives the number of its files. It reads the
/// superblock and the two areas and writes the areas alone, and a stop leaves the old image or the new one. A refusal
/// gives the disk back, and but for `DiskFault` it was only read; of those by what the image holds the first that holds
/// comes, in the order in which `ImageRefusal` lists them but for `Short`, which also stands for a length that the
/// superblock asks for.
pub fn migrate<D: Disk>(alloc: Global, disk: D) -> Result<(D, u64), (D, ImageRefusal)>
    ensures stands { IfOk result (λ done. D.tells → AreMigrated done.1 (D.content disk) (D.content done.0)) }
    ensures durable { IfOk result (λ done. D.tells → (m : Map) → StandsOld (D.content disk) m → (c : List ℕ) → D.since done.0 (D.moment done.0) c → Stands c m) }
    ensures moments { IfOk result (λ done. D.tells → (m : Map) → StandsOld (D.content disk) m → (c : List ℕ) → D.since done.0 (D.moment disk) c → D.since disk (D.moment disk) c ⊎ StandsEither m c) }
    ensures moments_err { IfErr result (λ err. D.tells → (m : Map) → StandsOld (D.content disk) m → (c : List ℕ) → D.since err.0 (D.moment disk) c → D.since disk (D.moment disk) c ⊎ StandsEither m c) }
    ensures refused { IfErr result (λ err. err.1 ≢ ImageRefusal.DiskFault → err.1 ≢ ImageRefusal.NoMemory → D.tells → read_as Old New (D.content disk) ≡ Err err.1) }
    ensures only_read_err { IfErr result (λ err. err.1 ≢ ImageRefusal.DiskFault → OnlyRead D.Disk disk err.0) }
    ensures size { IfOk result (λ done. D.size done.0 ≡ D.size disk) }
    ensures size_err { IfErr result (λ err. D.size err.0 ≡ D.size disk) }
    ensures later { IfOk result (λ done. D.faults disk ≤ D.faults done.0) }
    ensures later_err { IfErr result (λ err. D.faults disk ≤ D.faults err.0) }
    ensures cause { IfErr result (λ err. err.1 ≡ ImageRefusal.DiskFault → Rose (D.faults disk) (D.faults err.0)) }
{
    let mut disk = disk;
    match read_plan(alloc, &mut disk) {
        Ok(plan) => raise_image(alloc, disk, plan),
        Err(refusal) => Err((disk, refusal)),
    }
}
