//! What each call refuses, or asks for, in the order of the rules.
#![tactic(auto, unfolding(opfs_machine::specs::Machine::machine))]

ghost use Rattle.std.specs.Prelude.{◌≡◌, IfOk, if◌then◌else◌, option_map};
ghost use Rattle.std.specs.Option.{option_copied};
ghost use Rattle.opfs_base.specs.Blocks.{blocks};
ghost use Rattle.opfs_base.specs.Names.{fits_limits};
ghost use Rattle.opfs_locks.specs.Taking.{taken};
ghost use Rattle.opfs_machine.specs.Agents.{open_stream};
ghost use Rattle.opfs_machine.specs.Contents.{in_bytes};
ghost use Rattle.opfs_machine.specs.Rows.{row_at, is_located, is_of_kind, file_at};
ghost use Rattle.opfs_machine.specs.Rulings.{get_directory_ruling, child_ruling, get_handle_ruling, located_ruling, create_writable_ruling, grow_stream_ruling, stream_ruling, lock_in, making, size_in};
ghost use Rattle.opfs_machine.specs.Sums.{keeps_blocks};
ghost use Rattle.opfs_rulings.specs.Known.{IsAgent};

use crate::agents::{agent, own_row};
use crate::board::Board;
use opfs_base::{
    Key, Kind, Locator, Path, SharedBytes, Text, blocks, is_bucket_name, is_valid_name,
    place_charge, times,
};
use opfs_hist::Refusal;
use opfs_locks::{LockValue, Want};
use opfs_machine::{FileRow, Need, Own, Place, Row, Ruled, child_place, root_of};
use std::alloc::{AllocError, Global};

/// What asks for nothing.
pub const NO_NEED: Need = Need {
    quota: 0,
    pool: 0,
    charge: 0,
};

/// Whether a locator is located for a call that wants this kind.
pub fn is_located(state: &Board, kind: Kind, at: &Locator) -> bool
    ensures { result ≡ is_located state.now kind at.now }
{
    if at.kind != kind {
        return false;
    }
    match state.row_at(&at.key, &at.path) {
        None => false,
        Some(Row::Directory) => kind == Kind::Directory,
        Some(Row::File(_)) => kind == Kind::File,
    }
}

/// A call that needs its directory or file to be there.
pub fn located_ruling(state: &Board, kind: Kind, at: &Locator) -> Result<Need, Refusal>
    ensures { result ≡ located_ruling state.now kind at.now }
{
    if !is_located(state, kind, at) {
        return Err(Refusal::NotFoundError);
    }
    Ok(NO_NEED)
}

/// What making a row asks for, where there is none.
fn making(state: &Board, kind: Kind, place: &Place) -> Result<Need, AllocError>
    ensures { IfOk result (λ need. need ≡ making kind place.now (row_at state.now place.now)) }
{
    match state.row_at(&place.0, &place.1) {
        Some(_) => Ok(NO_NEED),
        None => Ok(Need {
            quota: 0,
            pool: 0,
            charge: place_charge(kind, place)?,
        }),
    }
}

/// getDirectory.
pub fn get_directory_ruling(alloc: Global, state: &Board, number: u32, bucket: &Text) -> Ruled<Need>
    requires { IsAgent state.now number }
    ensures { IfOk result (λ ruled. ruled ≡ get_directory_ruling state.now number bucket.now) }
{
    let Some(origin) = &agent(state, number).key else {
        return Ok(Err(Refusal::SecurityError));
    };
    if !is_bucket_name(bucket.as_str()) {
        return Ok(Err(Refusal::TypeError));
    }
    let root = root_of(alloc, origin, bucket)?;
    Ok(Ok(making(state, Kind::Directory, &root)?))
}

/// Whether a child's name and path are within the limits.
fn fits_limits(name: &Text, path: &Path) -> bool
    ensures { result ≡ fits_limits name.now path.now }
{
    name.as_bytes().len() <= 255 && path.names().len() <= 32
}

/// Whether a row is of a kind.
fn is_of_kind(kind: Kind, row: &Row<SharedBytes>) -> bool
    ensures { result ≡ is_of_kind kind row.now }
{
    match row {
        Row::Directory => kind == Kind::Directory,
        Row::File(_) => kind == Kind::File,
    }
}

/// What is judged of a child that is there, or is to be made.
fn child_ruling(
    kind: Kind,
    place: &Place,
    name: &Text,
    create: bool,
    row: Option<&Row<SharedBytes>>,
) -> Ruled<Need>
    ensures { IfOk result (λ ruled. ruled ≡ child_ruling kind place.now name.now create (option_copied row.entry)) }
{
    if let Some(row) = row {
        let ruled = if is_of_kind(kind, row) {
            Ok(NO_NEED)
        } else {
            Err(Refusal::TypeMismatchError)
        };
        return Ok(ruled);
    }
    if !create {
        return Ok(Err(Refusal::NotFoundError));
    }
    if !fits_limits(name, &place.1) {
        return Ok(Err(Refusal::NameLimit));
    }
    Ok(Ok(Need {
        quota: 0,
        pool: 0,
        charge: place_charge(kind, place)?,
    }))
}

/// getFileHandle and getDirectoryHandle.
pub fn get_handle_ruling(
    alloc: Global,
    state: &Board,
    kind: Kind,
    dir: &Locator,
    name: &Text,
    create: bool,
) -> Ruled<Need>
    ensures { IfOk result (λ ruled. ruled ≡ get_handle_ruling state.now kind dir.now name.now create) }
{
    if !is_valid_name(name.as_str()) {
        return Ok(Err(Refusal::TypeError));
    }
    if !is_located(state, Kind::Directory, dir) {
        return Ok(Err(Refusal::NotFoundError));
    }
    let place = child_place(alloc, dir, name)?;
    let row = state.row_at(&place.0, &place.1);
    child_ruling(kind, &place, name, create, row)
}

/// The file at a place.
pub fn file_at<'a>(state: &'a Board, key: &Key, path: &Path) -> Option<&'a FileRow<SharedBytes>>
    ensures { option_copied result ≡ file_at state.now (key.now, path.now) }
{
    match state.row_at(key, path) {
        Some(Row::File(file)) => Some(file),
        _ => None,
    }
}

/// The lock of a file, open where there is no such file.
pub fn lock_of(file: Option<&FileRow<SharedBytes>>) -> (LockValue, u32)
    ensures { result ≡ lock_in (option_copied file.entry) }
{
    match file {
        None => (LockValue::Free, 0),
        Some(file) => file.lock,
    }
}

/// The lock after it was taken as asked; None where taking it fails.
pub fn taken(want: Want, lock: (LockValue, u32)) -> Result<Option<(LockValue, u32)>, AllocError>
    ensures { IfOk result (λ after. after ≡ taken want lock) }
{
    let more = match lock.1.checked_add(1) {
        Some(more) => more,
        None => return Err(AllocError),
    };
    Ok(match (want, lock.0) {
        (Want::Exclusive, LockValue::Free) => Some((LockValue::Exclusive, 0)),
        (Want::Shared, LockValue::Free) => Some((LockValue::Shared, 1)),
        (Want::Shared, LockValue::Shared) => Some((LockValue::Shared, more)),
        (Want::ReadOnly, LockValue::Free) => Some((LockValue::ReadOnly, 1)),
        (Want::ReadOnly, LockValue::ReadOnly) => Some((LockValue::ReadOnly, more)),
        _ => None,
    })
}

/// The need of keeping so many blocks more.
pub fn keeps_blocks(more: u64) -> Result<Need, AllocError>
    ensures { IfOk result (λ need. need ≡ keeps_blocks more) }
{
    let charge = times(8, more)?;
    Ok(Need {
        quota: more,
        pool: more,
        charge,
    })
}

/// The blocks that a new stream keeps.
pub fn first_reserve(file: Option<&FileRow<SharedBytes>>, keep: bool) -> u64
    ensures { result ≡ (if keep then blocks (size_in in_bytes (option_copied file.entry)) else 0) }
{
    match file {
        Some(file) if keep => blocks(file.present.len() as u64),
        _ => 0,
    }
}

/// createWritable.
pub fn create_writable_ruling(state: &Board, at: &Locator, keep: bool) -> Ruled<Need>
    ensures { IfOk result (λ ruled. ruled ≡ create_writable_ruling in_bytes state.now at.now keep) }
{
    if !is_located(state, Kind::File, at) {
        return Ok(Err(Refusal::NotFoundError));
    }
    let file = file_at(state, &at.key, &at.path);
    let lock = lock_of(file);
    if taken(Want::Shared, lock)?.is_none() {
        return Ok(Err(Refusal::NoModificationAllowedError(lock.0, lock.1)));
    }
    Ok(Ok(keeps_blocks(first_reserve(file, keep))?))
}

/// The reserve of an open stream of the agent.
fn stream_reserve(state: &Board, number: u32, row: u32) -> Option<u64>
    requires { IsAgent state.now number }
    ensures { result ≡ option_map (λ w. w.reserve) (open_stream in_bytes state.now number row) }
{
    match own_row(state, number, row) {
        Some(Own::Stream(stream)) => Some(stream.reserve),
        _ => None,
    }
}

/// write and truncate of a stream, to a length.
pub fn grow_stream_ruling(state: &Board, number: u32, row: u32, size: u64) -> Ruled<Need>
    requires { IsAgent state.now number }
    ensures { IfOk result (λ ruled. ruled ≡ grow_stream_ruling in_bytes state.now number row size) }
{
    let Some(reserve) = stream_reserve(state, number, row) else {
        return Ok(Err(Refusal::TypeError));
    };
    Ok(Ok(keeps_blocks(reserve.max(blocks(size)) - reserve)?))
}

/// A call on an open stream that asks for nothing.
pub fn stream_ruling(state: &Board, number: u32, row: u32) -> Result<Need, Refusal>
    requires { IsAgent state.now number }
    ensures { result ≡ stream_ruling in_bytes state.now number row }
{
    if stream_reserve(state, number, row).is_none() {
        return Err(Refusal::TypeError);
    }
    Ok(NO_NEED)
}
