//! What a call says by its own words: the row and the places that it names, the lock that it wants, and how long its bytes make a file.

ghost use Rattle.std.specs.Prelude.{◌≡◌, [], IfOk, IsTrue};
ghost use Rattle.opfs_base.specs.Names.{is_valid_name};
ghost use Rattle.opfs_base.specs.Places.{place_of, child};
ghost use Rattle.opfs_base.specs.Units.{unit_of};
ghost use Rattle.opfs_machine.specs.Replies.{row_named};
ghost use Rattle.opfs_machine.specs.Rulings.{size_written, want_of};

use crate::state::{Place, Sizes};
use opfs_base::{Data, Key, Locator, Name, Path, Text, plus, unit_of};
use opfs_hist::{Mode, Op};
use opfs_locks::Want;
use std::alloc::{AllocError, Global};

/// The number of the stream or access handle that a call names; 0 where it names none.
pub fn row_named(op: &Op) -> u32
    ensures { result ≡ row_named op.now }
{
    match op {
        Op::Write { row, .. }
        | Op::Seek { row, .. }
        | Op::Truncate { row, .. }
        | Op::Close { row }
        | Op::Abort { row }
        | Op::SyncRead { row, .. }
        | Op::SyncWrite { row, .. }
        | Op::SyncTruncate { row, .. }
        | Op::SyncGetSize { row }
        | Op::SyncFlush { row }
        | Op::SyncClose { row }
        | Op::Discard { row } => *row,
        _ => 0,
    }
}

/// The place of a root.
pub fn root_of(alloc: Global, origin: &Key, bucket: &Text) -> Result<Place, AllocError>
    ensures { IfOk result (λ place. place ≡ (unit_of origin.now bucket.now, [])) }
{
    Ok((unit_of(alloc, origin, bucket.as_str())?, Path::root(alloc)))
}

/// The place of a child.
pub fn child_place(alloc: Global, dir: &Locator, name: &Text) -> Result<Place, AllocError>
    requires { IsTrue (is_valid_name name.now) }
    ensures { IfOk result (λ place. place ≡ child (place_of dir.now) name.now) }
{
    let name = Name::read(alloc, name.as_str())?;
    let key = dir.key.copy(alloc)?;
    let path = dir.path.child(alloc, &name)?;
    Ok((key, path))
}

/// How an access handle of a mode asks for its file's lock.
pub fn want_of(mode: Mode) -> Want
    ensures { result ≡ want_of mode }
{
    match mode {
        Mode::ReadWrite => Want::Exclusive,
        Mode::ReadOnly => Want::ReadOnly,
    }
}

/// The length in bytes after a write.
pub fn size_written(sizes: Sizes, position: Option<u64>, bytes: &Data) -> Result<u64, AllocError>
    ensures { IfOk result (λ size. size ≡ size_written sizes position bytes.now) }
{
    let end = plus(position.unwrap_or(sizes.position), bytes.len())?;
    Ok(sizes.size.max(end))
}
