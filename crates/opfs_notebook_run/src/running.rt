//! Two agents keep their notebooks in the image that a disk holds: from the disk back to the disk.

ghost use Rattle.std.specs.Prelude.{◌≡◌, ◌∷◌, [], true, map, IfOk};
ghost use Rattle.opfs_books.specs.Openings.Openings.{caller_by};
ghost use Rattle.opfs_codec.specs.Spelling.{IsText, is_origin_text};
ghost use Rattle.opfs_desk.specs.Seen.{entries_of};
ghost use Rattle.opfs_image.specs.Superblock.{is_in_range};
ghost use Rattle.opfs_notebook.specs.Ready.{asks};

use opfs_base::{Bytes, Key};
use opfs_desk::Desk;
use opfs_image::{Geometry, format, recover};
use opfs_kv::{Batch, KvStop};
use opfs_memory::RamDisk;
use opfs_notebook::agents::{Starter, meet, starters};
use opfs_notebook::visits::{Found, run_meeting};
use opfs_outside::Disk;
use opfs_register::Who;
use opfs_turns::Stop;
use std::alloc::{AllocError, Global};
use std::sync::Wait;
use std::thread::Threads;

/// A disk in memory with an image of these sizes that holds nothing.
pub fn image(alloc: Global, sizes: Geometry) -> Result<RamDisk, AllocError>
    requires { is_in_range sizes ≡ true }
{
    let mut disk = RamDisk::make(alloc, sizes.image_size())?;
    match format(&mut disk, sizes) {
        Ok(()) => Ok(disk),
        Err(_) => Err(AllocError),
    }
}

// What a desk knows of an agent of this key.
fn who(alloc: Global, key: &Key) -> Result<Who, AllocError>
    ensures { IfOk result (λ who. caller_by who ≡ asks key.now) }
{
    let key = key.copy(alloc)?;
    Ok(Who {
        key: Some(key),
        grant: false,
    })
}

// The same of two.
fn both(alloc: Global, first: &Key, second: &Key) -> Result<Vec<Who>, AllocError>
    ensures { IfOk result (λ both. map caller_by both.items ≡ asks first.now ∷ asks second.now ∷ []) }
{
    let mut both = Vec::new(alloc);
    both.push(who(alloc, first)?)?;
    both.push(who(alloc, second)?)?;
    Ok(both)
}

/// A desk of two agents over the image that a disk holds.
pub fn desk_of<D: Disk>(alloc: Global, disk: D, first: &Key, second: &Key) -> Result<Desk<D>, D>
    requires first { IsText is_origin_text first.now }
    requires second { IsText is_origin_text second.now }
    ensures agents { IfOk result (λ desk. desk.fixed.opening.agents ≡ asks first.now ∷ asks second.now ∷ []) }
    ensures empty { IfOk result (λ desk. entries_of desk ≡ []) }
{
    let Ok(agents) = both(alloc, first, second) else {
        return Err(disk);
    };
    match recover(alloc, disk) {
        Ok(from) => Desk::make(alloc, from, agents),
        Err((disk, _)) => Err(disk),
    }
}

// Nothing was found for want of memory.
fn none() -> Found {
    Found {
        left: Err(KvStop::Agent(Stop::NoMemory)),
        right: Err(KvStop::Agent(Stop::NoMemory)),
    }
}

// Two agents of a desk without entries keep their notebooks.
fn run_desk<D: Disk + Send, R: AllocGlobal + Threads + Wait + Sync>(
    rt: &R,
    desk: Desk<D>,
    first: Starter,
    second: Starter,
    batch: &Batch,
    name: &Bytes,
) -> (D, Found)
    requires agents { desk.fixed.opening.agents ≡ asks first.key ∷ asks second.key ∷ [] }
    requires first { IsText is_origin_text first.key }
    requires second { IsText is_origin_text second.key }
    requires empty { entries_of desk ≡ [] }
{
    match meet(rt, desk, first, second) {
        Ok(meeting) => {
            let (desk, found) = run_meeting(rt, meeting, batch, name);
            let (disk, history, done) = desk.finish();
            drop(history);
            drop(done);
            (disk, found)
        }
        Err(desk) => (desk.leave(), none()),
    }
}

// Two agents of a desk over the image that a disk holds keep their notebooks.
fn run_disk<D: Disk + Send, R: AllocGlobal + Threads + Wait + Sync>(
    rt: &R,
    disk: D,
    first: Starter,
    second: Starter,
    batch: &Batch,
    name: &Bytes,
) -> (D, Found)
    requires first { IsText is_origin_text first.key }
    requires second { IsText is_origin_text second.key }
{
    match desk_of(rt.alloc(), disk, &first.key, &second.key) {
        Ok(desk) => run_desk(rt, desk, first, second, batch, name),
        Err(disk) => (disk, none()),
    }
}

/// Two agents, of the origins of two URLs, keep their notebooks in the image that a disk holds, and leave the disk.
pub fn run<D: Disk + Send, R: AllocGlobal + Threads + Wait + Sync>(
    rt: &R,
    disk: D,
    urls: [&str; 2],
    batch: &Batch,
    name: &Bytes,
) -> (D, Found) {
    match starters(rt.alloc(), urls) {
        Ok((first, second)) => run_disk(rt, disk, first, second, batch, name),
        Err(_) => (disk, none()),
    }
}
