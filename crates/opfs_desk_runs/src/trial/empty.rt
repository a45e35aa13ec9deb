//! The empty store of a trial.

ghost use Rattle.std.specs.Prelude.{◌≡◌, ◌≤◌, length, IfOk};
ghost use Rattle.opfs_desk_runs.specs.Trial.Empty.{IsEmptyImage, trial_geometry};
ghost use Rattle.opfs_image.specs.Superblock.{image_size};

use opfs_image::{Geometry, format};
use opfs_memory::RamDisk;
use std::alloc::{AllocError, Global};

// The bytes of an image of a trial's sizes.
const LENGTH: u64 = 69_210_112;

// A disk of so many bytes.
fn blank(alloc: Global, bytes: u64) -> Result<RamDisk, AllocError>
    ensures { IfOk result (λ disk. length disk ≡ bytes) }
{
    let disk = RamDisk::make(alloc, bytes)?;
    Ok(disk)
}

// Makes a disk an image of a trial's sizes that holds nothing.
fn empty(disk: &mut RamDisk)
    requires { image_size trial_geometry ≤ length disk.old }
    ensures { IsEmptyImage disk.new }
{
    let sizes = Geometry {
        areas: 256,
        blocks: 16_384,
        quota: 8_192,
    };
    match format(disk, sizes) {
        Ok(()) => {}
        Err(_) => unreachable!(),
    }
}

/// An image in memory of a trial's sizes, which holds nothing.
pub(crate) fn empty_image(alloc: Global) -> Result<RamDisk, AllocError>
    ensures { IfOk result (λ disk. IsEmptyImage disk) }
{
    let mut disk = blank(alloc, LENGTH)?;
    empty(&mut disk);
    Ok(disk)
}
