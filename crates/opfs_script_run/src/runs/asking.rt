//! What steps ask.

ghost use Rattle.std.specs.Prelude.{◌≡◌, IfOk};
ghost use Rattle.opfs_script_run.specs.Runs.Running.{op_of};
ghost use Rattle.opfs_script_run.specs.Runs.Steps.{plain_op, handle_op, row_op};

use crate::runs::entries::{
    create_sync_access_handle, create_writable, get_directory_handle, get_file, get_file_handle,
    is_same_entry, next, remove_entry, resolve, values,
};
use crate::runs::hand::Hand;
use crate::runs::rows::{
    abort, close, seek, slice, sync_close, sync_flush, sync_get_size, sync_read, sync_truncate,
    sync_write, truncate, write,
};
use opfs_hist::Op;
use opfs_script::Step;
use std::alloc::{AllocError, Global};

/// What a step that names no variable asks; an estimate for any other.
fn plain_op(alloc: Global, step: &Step) -> Result<Op, AllocError>
    ensures { IfOk result (λ op. op ≡ plain_op step.now) }
{
    Ok(match step {
        Step::GetDirectory { bucket, .. } => Op::GetDirectory {
            bucket: bucket.copy(alloc)?,
        },
        Step::Persist { bucket } => Op::Persist {
            bucket: bucket.copy(alloc)?,
        },
        Step::Persisted { bucket } => Op::Persisted {
            bucket: bucket.copy(alloc)?,
        },
        Step::Moment { ms } => Op::Moment { ms: *ms },
        Step::Post { tag } => Op::Post {
            tag: tag.copy(alloc)?,
        },
        Step::Await { tag } => Op::Await {
            tag: tag.copy(alloc)?,
        },
        _ => Op::Estimate,
    })
}

/// What a step that names an access handle asks; what a plain step does for any other.
fn handle_op(alloc: Global, hand: &Hand, step: &Step) -> Result<Op, AllocError>
    ensures { IfOk result (λ op. op ≡ handle_op hand.now step.now) }
{
    match step {
        Step::SyncRead { sync, len, at } => Ok(sync_read(hand, sync, *len, *at)),
        Step::SyncWrite { sync, bytes, at } => sync_write(hand, sync, bytes, *at),
        Step::SyncTruncate { sync, size } => Ok(sync_truncate(hand, sync, *size)),
        Step::SyncGetSize { sync } => Ok(sync_get_size(hand, sync)),
        Step::SyncFlush { sync } => Ok(sync_flush(hand, sync)),
        Step::SyncClose { sync } => Ok(sync_close(hand, sync)),
        _ => plain_op(alloc, step),
    }
}

/// What a step that names a stream or a snapshot asks; what a step on handles does for any other.
fn row_op(alloc: Global, hand: &Hand, step: &Step) -> Result<Op, AllocError>
    ensures { IfOk result (λ op. op ≡ row_op hand.now step.now) }
{
    match step {
        Step::Slice { snapshot, at, len } => Ok(slice(hand, snapshot, *at, *len)),
        Step::Write {
            stream,
            bytes,
            position,
        } => write(hand, stream, bytes, *position),
        Step::Seek { stream, position } => Ok(seek(hand, stream, *position)),
        Step::Truncate { stream, size } => Ok(truncate(hand, stream, *size)),
        Step::Close { stream } => Ok(close(hand, stream)),
        Step::Abort { stream } => Ok(abort(hand, stream)),
        _ => handle_op(alloc, hand, step),
    }
}

impl Hand {
    /// What a step asks, with its variables replaced by what they name; Unbound where one is not of its kind.
    pub fn op_of(&self, alloc: Global, step: &Step) -> Result<Op, AllocError>
        ensures { IfOk result (λ op. op ≡ op_of self.now step.now) }
    {
        match step {
            Step::GetDirectoryHandle {
                dir,
                name,
                create,
                ..
            } => get_directory_handle(alloc, self, dir, name, *create),
            Step::GetFileHandle {
                dir,
                name,
                create,
                ..
            } => get_file_handle(alloc, self, dir, name, *create),
            Step::RemoveEntry {
                dir,
                name,
                recursive,
            } => remove_entry(alloc, self, dir, name, *recursive),
            Step::Values { dir, .. } => values(alloc, self, dir),
            Step::Next { iterator, .. } => next(alloc, self, iterator),
            Step::Resolve { dir, entry } => resolve(alloc, self, dir, entry),
            Step::IsSameEntry { entry, other } => is_same_entry(alloc, self, entry, other),
            Step::GetFile { file, .. } => get_file(alloc, self, file),
            Step::CreateWritable { file, keep, .. } => create_writable(alloc, self, file, *keep),
            Step::CreateSyncAccessHandle {
                file,
                read_only,
                ..
            } => create_sync_access_handle(alloc, self, file, *read_only),
            _ => row_op(alloc, self, step),
        }
    }
}
