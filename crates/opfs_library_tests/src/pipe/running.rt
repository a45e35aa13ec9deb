//! An image on a disk in memory, and a desk of two agents over it.

ghost use Rattle.std.specs.Prelude.{◌≡◌, ◌∷◌, [], true, map, IfOk};
ghost use Rattle.opfs_books.specs.Openings.Openings.{caller_by};
ghost use Rattle.opfs_codec.specs.Spelling.{IsText, is_origin_text};
ghost use Rattle.opfs_desk.specs.Seen.{entries_of};
ghost use Rattle.opfs_image.specs.Superblock.{is_in_range};
ghost use Rattle.opfs_notebook.specs.Ready.{asks};

use opfs_base::Key;
use opfs_desk::Desk;
use opfs_image::{Geometry, format, recover};
use opfs_memory::RamDisk;
use opfs_outside::Disk;
use opfs_register::Who;
use std::alloc::{AllocError, Global};

/// The sizes of a store of 64 MiB.
pub const SIZES: Geometry = Geometry {
    areas: 256,
    blocks: 16_384,
    quota: 8_192,
};

/// A disk in memory with an image of these sizes that holds nothing.
pub fn image(alloc: Global, sizes: Geometry) -> Result<RamDisk, AllocError>
    requires { is_in_range sizes ≡ true }
{
    let mut disk = RamDisk::make(alloc, sizes.image_size())?;
    match format(&mut disk, sizes) {
        Ok(()) => Ok(disk),
        Err(_) => Err(AllocError),
    }
}

// What a desk knows of an agent of this key.
fn who(alloc: Global, key: &Key) -> Result<Who, AllocError>
    ensures { IfOk result (λ who. caller_by who ≡ asks key.now) }
{
    let key = key.copy(alloc)?;
    Ok(Who {
        key: Some(key),
        grant: false,
    })
}

// The same of two.
fn both(alloc: Global, first: &Key, second: &Key) -> Result<Vec<Who>, AllocError>
    ensures { IfOk result (λ both. map caller_by both.items ≡ asks first.now ∷ asks second.now ∷ []) }
{
    let mut both = Vec::new(alloc);
    both.push(who(alloc, first)?)?;
    both.push(who(alloc, second)?)?;
    Ok(both)
}

/// A desk of two agents over the image that a disk holds.
pub fn desk_of<D: Disk>(alloc: Global, disk: D, first: &Key, second: &Key) -> Result<Desk<D>, D>
    requires first { IsText is_origin_text first.now }
    requires second { IsText is_origin_text second.now }
    ensures agents { IfOk result (λ desk. desk.fixed.opening.agents ≡ asks first.now ∷ asks second.now ∷ []) }
    ensures empty { IfOk result (λ desk. entries_of desk ≡ []) }
{
    let Ok(agents) = both(alloc, first, second) else {
        return Err(disk);
    };
    match recover(alloc, disk) {
        Ok(from) => Desk::make(alloc, from, agents),
        Err((disk, _)) => Err(disk),
    }
}
