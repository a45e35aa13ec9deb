//! What the tests ask: whether a range that was sent is the content of the other file.

ghost use Rattle.std.specs.Prelude.{◌≡◌, ◌≤◌, true};
ghost use Rattle.opfs_image.specs.Superblock.{is_in_range};

use crate::pipe::Task;
use crate::pipe::driving::{run, set_quota};
use crate::pipe::running::{SIZES, image};
use opfs_base::Bytes;
use opfs_image::Geometry;
use opfs_turns::Stop;
use std::alloc::AllocError;
use std::sync::Wait;
use std::thread::Threads;

/// The sizes of a store of 160 MiB.
pub const LARGE: Geometry = Geometry {
    areas: 256,
    blocks: 40_960,
    quota: 65_536,
};

const TOGETHER: [&str; 2] = ["https://a.example", "https://a.example"];

const APART: [&str; 2] = ["https://a.example", "https://b.example"];

// Whether bytes are so many zeros and so many `A`.
fn are(bytes: &Result<Bytes, Stop>, zeros: usize, count: usize) -> bool {
    match bytes {
        Ok(bytes) => {
            let (front, back) = bytes.as_slice().split_at(zeros.min(bytes.len()));
            front.len() == zeros
                && back.len() == count
                && front.iter().all(|byte| *byte == 0)
                && back.iter().all(|byte| *byte == 65)
        }
        Err(_) => false,
    }
}

/// Whether a range of 10,000 bytes `A` that is sent has so many.
pub fn sends<R: AllocGlobal + Threads + Wait + Sync>(
    rt: &R,
    at: u64,
    len: u64,
    wanted: usize,
) -> Result<bool, AllocError>
    requires { len ≤ 268435456 }
{
    let disk = image(rt.alloc(), SIZES)?;
    let (disk, written) = run(rt, disk, TOGETHER, Task::Write(0, 10_000));
    let (disk, sent) = run(rt, disk, TOGETHER, Task::Send(at, len));
    drop(disk);
    Ok(are(&written, 0, 10_000) && are(&sent, 0, wanted))
}

/// Whether a file of so many zeros and so many `A` goes over whole.
pub fn sends_all<R: AllocGlobal + Threads + Wait + Sync>(
    rt: &R,
    sizes: Geometry,
    zeros: u64,
    count: u64,
) -> Result<bool, AllocError>
    requires sizes { is_in_range sizes ≡ true }
    requires few { (zeros ≤ 201326592) × (count ≤ 16777216) }
{
    let disk = image(rt.alloc(), sizes)?;
    let (disk, written) = run(rt, disk, TOGETHER, Task::Write(zeros, count));
    let (disk, sent) = run(rt, disk, TOGETHER, Task::Send(0, zeros + count));
    drop(disk);
    drop(written);
    Ok(are(&sent, zeros as usize, count as usize))
}

/// Whether a range is refused by a quota of one block, and a block of it is kept.
pub fn refuses<R: AllocGlobal + Threads + Wait + Sync>(rt: &R) -> Result<bool, AllocError> {
    let disk = image(rt.alloc(), SIZES)?;
    let (mut disk, written) = run(rt, disk, APART, Task::Write(0, 10_000));
    let set = set_quota(&mut disk, 1).is_ok();
    let (disk, kept) = run(rt, disk, APART, Task::Refuse(0, 10_000));
    drop(disk);
    Ok(set && are(&written, 0, 10_000) && are(&kept, 0, 4_096))
}
