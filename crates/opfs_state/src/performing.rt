//! What a call changes of the shared store, by its word.
#![tactic(auto, unfolding(opfs_state_rows::specs::Changes::Asking::made_at, opfs_state_rows::specs::Changes::Changed::freed_in))]

ghost use Rattle.std.specs.Prelude.{◌≡◌, ◌+◌, ◌≤◌, ◌++◌, ℕ, List, Option, None, length, true, false, vec_capacity};
ghost use Rattle.opfs_base.specs.declared.extents.Extent.{Extent};
ghost use Rattle.opfs_state_rows.specs.Changes.Allowed.{MayDo};
ghost use Rattle.opfs_state_rows.specs.Changes.Asking.{target_of};
ghost use Rattle.opfs_state_rows.specs.Changes.Changed.{IsDone, freed_by};
ghost use Rattle.opfs_state.specs.Applied.{IsReady};
ghost use Rattle.opfs_state.specs.Freeing.{lets_go};

use crate::state::Ready;
use opfs_base::{Extent, Extents};
use opfs_hist::Op;
use opfs_machine::{Place, Sizes};
use opfs_state_rows::Standing;
use opfs_state_rows::changes::Caller;
use opfs_state_rows::changes::agents::{await_tag, end, post, set_moment, tell, values, wait};
use opfs_state_rows::changes::handles::{
    discard, sync_close, sync_flush, sync_truncate, sync_write,
};
use opfs_state_rows::changes::opening::{create_sync, create_writable, get_file};
use opfs_state_rows::changes::rows::{make_row, persist, remove_entry};
use opfs_state_rows::changes::streams::{abort, close, truncate, write};
use std::alloc::Global;

/// Whether a call may let extents go.
pub(crate) fn lets_go(op: &Op) -> bool
    ensures { result ≡ lets_go op.now }
{
    matches!(
        op,
        Op::RemoveEntry { .. } | Op::Close { .. } | Op::SyncFlush { .. } | Op::SyncClose { .. }
    )
}

/// A call that lets no extents go.
pub(crate) fn perform(
    store: &mut Standing,
    sizes: Sizes,
    agent: u32,
    op: &Op,
    target: Option<Place>,
    growth: u64,
)
    requires may { MayDo store.old.machine sizes agent op.now }
    requires ready { IsReady store.old target growth agent op.now }
    requires keeps { lets_go op.now ≡ false }
    ensures done { (extents : Option (List Extent)) → IsDone store.old store.new sizes agent op.now extents }
    ensures place { store.new.prepared.place ≡ None }
{
    match op {
        Op::GetDirectory { .. } | Op::GetDirectoryHandle { .. } | Op::GetFileHandle { .. } =>
            make_row(store, sizes, agent, op, target, growth),
        Op::Values { .. } => values(store, agent),
        Op::GetFile { file } => get_file(store, sizes, agent, file),
        Op::CreateWritable { file, keep } => create_writable(
            store, sizes, agent, file, *keep, target,
        ),
        Op::Write {
            row,
            bytes,
            position,
        } => write(store, sizes, agent, *row, bytes, *position),
        Op::Truncate { row, size } => truncate(store, sizes, agent, *row, *size),
        Op::Abort { row } => abort(store, sizes, agent, *row),
        Op::CreateSyncAccessHandle { file, mode } => create_sync(
            store, sizes, agent, file, *mode, target,
        ),
        Op::SyncWrite { row, bytes, at } => sync_write(
            store, sizes, agent, *row, bytes, *at, target,
        ),
        Op::SyncTruncate { row, size } => sync_truncate(store, sizes, agent, *row, *size, target),
        Op::Persist { bucket } => persist(store, sizes, agent, bucket, target, growth),
        Op::Moment { ms } => set_moment(store, agent, *ms),
        Op::Post { tag } => post(store, agent, tag),
        Op::Await { .. } => await_tag(store, agent),
        Op::Wait { tag } => wait(store, agent, tag),
        Op::Discard { row } => discard(store, sizes, agent, *row),
        Op::End => end(store, agent),
        Op::RemoveEntry { .. } | Op::Close { .. } | Op::SyncFlush { .. } | Op::SyncClose { .. } => {
            unreachable!()
        }
        Op::Next { .. }
        | Op::Resolve { .. }
        | Op::IsSameEntry { .. }
        | Op::Slice { .. }
        | Op::Seek { .. }
        | Op::SyncRead { .. }
        | Op::SyncGetSize { .. }
        | Op::Persisted { .. }
        | Op::Estimate
        | Op::Unbound { .. }
        | Op::Evict { .. } => tell(store, agent, op),
    }
}

/// A call that may let extents go.
pub(crate) fn perform_freeing(
    alloc: Global,
    store: &mut Standing,
    caller: Caller,
    op: &Op,
    target: Option<Place>,
    extents: Option<Extents>,
    freed: &mut Vec<Extent>,
)
    requires may { MayDo store.old.machine caller.sizes caller.agent op.now }
    requires place { store.old.prepared.place ≡ None }
    requires target { target ≡ target_of store.old.machine caller.agent op.now }
    requires frees { lets_go op.now ≡ true }
    requires fits { length (freed.old.items ++ freed_by store.old caller.agent op.now extents) ≤ vec_capacity freed.old }
    ensures done { IsDone store.old store.new caller.sizes caller.agent op.now extents }
    ensures place { store.new.prepared.place ≡ None }
    ensures freed { freed.new.items ≡ freed.old.items ++ freed_by store.old caller.agent op.now extents }
    ensures capacity { vec_capacity freed.old ≤ vec_capacity freed.new }
{
    match op {
        Op::RemoveEntry {
            dir,
            name,
            recursive,
        } => remove_entry(store, caller, dir, name, *recursive, target, freed),
        Op::Close { row } => close(
            alloc,
            store,
            caller.sizes,
            caller.agent,
            *row,
            extents,
            freed,
        ),
        Op::SyncFlush { row } => sync_flush(alloc, store, caller, *row, target, extents, freed),
        Op::SyncClose { row } => sync_close(
            alloc,
            store,
            caller.sizes,
            caller.agent,
            *row,
            extents,
            freed,
        ),
        _ => unreachable!(),
    }
}

/// A call.
pub(crate) fn perform_any(
    alloc: Global,
    store: &mut Standing,
    caller: Caller,
    op: &Op,
    ready: Ready,
    extents: Option<Extents>,
    freed: &mut Vec<Extent>,
)
    requires may { MayDo store.old.machine caller.sizes caller.agent op.now }
    requires ready { IsReady store.old ready.target ready.growth caller.agent op.now }
    requires fits { length (freed.old.items ++ freed_by store.old caller.agent op.now extents) ≤ vec_capacity freed.old }
    ensures done { IsDone store.old store.new caller.sizes caller.agent op.now extents }
    ensures place { store.new.prepared.place ≡ None }
    ensures freed { freed.new.items ≡ freed.old.items ++ freed_by store.old caller.agent op.now extents }
    ensures capacity { vec_capacity freed.old ≤ vec_capacity freed.new }
{
    let Ready { target, growth } = ready;
    if lets_go(op) {
        perform_freeing(alloc, store, caller, op, target, extents, freed);
        return;
    }
    perform(store, caller.sizes, caller.agent, op, target, growth);
}
