//! Calls on access handles.

ghost use Rattle.std.specs.Prelude.{◌≡◌, ◌+◌, ◌<◌, ◌≤◌, ◌++◌, ◌^◌, ℕ, List, [], true, Option, None, Some, IsSome, IfSome, if◌then◌else◌, is_some, length, vec_capacity};
ghost use Rattle.opfs_base.specs.Blocks.{blocks};
ghost use Rattle.opfs_base.specs.Units.{origin_of};
ghost use Rattle.opfs_base.specs.declared.extents.Extent.{Extent};
ghost use Rattle.opfs_state_rows.specs.Changes.Allowed.{MayDo};
ghost use Rattle.opfs_state_rows.specs.Changes.Asking.{target_of};
ghost use Rattle.opfs_state_rows.specs.Changes.Changed.{IsDone, freed_by, changed_by, flushed_in, replaced_at};
ghost use Rattle.opfs_state_rows.specs.Changes.Growing.{IsWriting};
ghost use Rattle.opfs_hist.specs.declared.op.Op.TheVariants as op;
ghost use Rattle.opfs_laws.specs.Lengths.Kept.{Kept};
ghost use Rattle.opfs_machine.specs.Agents.{open_handle, counted};
ghost use Rattle.opfs_machine.specs.Contents.{in_lengths, handle_with};
ghost use Rattle.opfs_machine.specs.Effects.{with_changed, with_written, flushed, undone, moment_of};
ghost use Rattle.opfs_machine.specs.Rows.{with_file};
ghost use Rattle.opfs_machine.specs.Rulings.{is_read_write, reserve_for};
ghost use Rattle.opfs_machine.specs.Sums.{pool, usage};
ghost use Rattle.opfs_machine.specs.declared.own.HandleOutline.{HandleOutline};
ghost use Rattle.opfs_state_rows.specs.Standing.Contents.{showing, undone_row};
ghost use Rattle.opfs_tree.specs.Rows.{file_at, change_at, written};

use crate::changes::caller::Caller;
use crate::changes::storing::{area_bytes, flush_as};
use crate::standing::Standing;
use opfs_base::{Data, Extent, Extents, blocks};
use opfs_hist::Mode;
use opfs_machine::{Place, Sizes};
use std::alloc::Global;

/// syncWrite, to the file at a place.
pub fn sync_write(
    store: &mut Standing,
    sizes: Sizes,
    agent: u32,
    row: u32,
    bytes: &Data,
    at: Option<u64>,
    target: Option<Place>,
)
    requires may { MayDo store.old.machine sizes agent (op.SyncWrite row bytes.now at) }
    requires target { target ≡ target_of store.old.machine agent (op.SyncWrite row bytes.now at) }
    ensures done { (extents : Option (List Extent)) → IsDone store.old store.new sizes agent (op.SyncWrite row bytes.now at) extents }
    ensures prepared { store.new.prepared ≡ store.old.prepared }
{
    let Some(place) = target else {
        unreachable!();
    };
    store.know_rows_match_tree();
    let Some(present) = store.size(&place.0, &place.1) else {
        unreachable!();
    };
    // An area has so many bytes, a count of 64 bits.
    let _area = area_bytes(store);
    let end = at.unwrap_or(sizes.position) + bytes.len();
    overwrite(
        store,
        agent,
        row,
        &place,
        present.max(end),
        sizes.size.max(end),
    );
}

/// syncTruncate, of the file at a place.
pub fn sync_truncate(
    store: &mut Standing,
    sizes: Sizes,
    agent: u32,
    row: u32,
    size: u64,
    target: Option<Place>,
)
    requires may { MayDo store.old.machine sizes agent (op.SyncTruncate row size) }
    requires target { target ≡ target_of store.old.machine agent (op.SyncTruncate row size) }
    ensures done { (extents : Option (List Extent)) → IsDone store.old store.new sizes agent (op.SyncTruncate row size) extents }
    ensures prepared { store.new.prepared ≡ store.old.prepared }
{
    let Some(place) = target else {
        unreachable!();
    };
    // An area has so many bytes, a count of 64 bits.
    let _area = area_bytes(store);
    overwrite(store, agent, row, &place, size, size);
}

// Lets a read of an open access handle's file give so many bytes, and keeps as many blocks as a size takes, never fewer
// than before.
fn overwrite(store: &mut Standing, agent: u32, row: u32, place: &Place, present: u64, size: u64)
    requires above { 0 < agent }
    requires within { agent ≤ length store.old.machine.agents }
    requires entries { store.old.machine.entries + 1 < 2 ^ 64 }
    requires kept { Kept store.old.machine }
    requires writes { IsWriting store.old.machine agent row place.now present size }
    ensures machine { (h : HandleOutline) → open_handle in_lengths store.old.machine agent row ≡ Some h → store.new.machine ≡ counted (with_changed (with_file store.old.machine place.now (showing present (moment_of store.old.machine agent))) agent row (λ r. handle_with r (reserve_for h.reserve size))) agent }
    ensures tree { store.new.tree ≡ change_at place.now (written present (moment_of store.old.machine agent)) store.old.tree }
    ensures prepared { store.new.prepared ≡ store.old.prepared }
{
    let at = agent as usize - 1;
    let n = row as usize - 1;
    store.know_rows_match_tree();
    let moment = store.register().moment(at);
    let Some(handle) = store.register().handle(at, n) else {
        unreachable!();
    };
    let more = handle.reserve.max(blocks(size)) - handle.reserve;
    store.grow_handle(at, n, more);
    store.set_present(&place.0, &place.1, present, moment);
    store.count(at);
}

/// syncFlush, of the file at a place.
pub fn sync_flush(
    alloc: Global,
    store: &mut Standing,
    caller: Caller,
    row: u32,
    target: Option<Place>,
    extents: Option<Extents>,
    freed: &mut Vec<Extent>,
)
    requires may { MayDo store.old.machine caller.sizes caller.agent (op.SyncFlush row) }
    requires target { target ≡ target_of store.old.machine caller.agent (op.SyncFlush row) }
    requires fits { length (freed.old.items ++ freed_by store.old caller.agent (op.SyncFlush row) extents) ≤ vec_capacity freed.old }
    ensures done { IsDone store.old store.new caller.sizes caller.agent (op.SyncFlush row) extents }
    ensures prepared { store.new.prepared ≡ store.old.prepared }
    ensures freed { freed.new.items ≡ freed.old.items ++ freed_by store.old caller.agent (op.SyncFlush row) extents }
    ensures capacity { vec_capacity freed.old ≤ vec_capacity freed.new }
{
    let Some(place) = target else {
        unreachable!();
    };
    let at = caller.agent as usize - 1;
    let n = row as usize - 1;
    store.know_rows_match_tree();
    let Some(handle) = store.register().handle(at, n) else {
        unreachable!();
    };
    let mode = handle.mode;
    store.free_handle(at, n);
    flush_by(alloc, store, mode, &place, extents, freed);
    store.count(at);
}

/// syncClose; a closed access handle changes nothing.
pub fn sync_close(
    alloc: Global,
    store: &mut Standing,
    sizes: Sizes,
    agent: u32,
    row: u32,
    extents: Option<Extents>,
    freed: &mut Vec<Extent>,
)
    requires may { MayDo store.old.machine sizes agent (op.SyncClose row) }
    requires fits { length (freed.old.items ++ freed_by store.old agent (op.SyncClose row) extents) ≤ vec_capacity freed.old }
    ensures done { IsDone store.old store.new sizes agent (op.SyncClose row) extents }
    ensures prepared { store.new.prepared ≡ store.old.prepared }
    ensures freed { freed.new.items ≡ freed.old.items ++ freed_by store.old agent (op.SyncClose row) extents }
    ensures capacity { vec_capacity freed.old ≤ vec_capacity freed.new }
{
    let at = agent as usize - 1;
    if !has_handle(store, agent, row) {
        store.count(at);
        return;
    }
    store.know_rows_match_tree();
    let handle = store.close_handle(at, row as usize - 1);
    let (outline, held) = handle.into_parts();
    flush_by(alloc, store, outline.mode, &outline.file, extents, freed);
    store.unlock(&outline.file.0, &outline.file.1, held);
    store.count(at);
}

/// What a script's end does to an open access handle; a closed one changes nothing.
pub fn discard(store: &mut Standing, sizes: Sizes, agent: u32, row: u32)
    requires may { MayDo store.old.machine sizes agent (op.Discard row) }
    ensures done { (extents : Option (List Extent)) → IsDone store.old store.new sizes agent (op.Discard row) extents }
    ensures prepared { store.new.prepared ≡ store.old.prepared }
{
    let at = agent as usize - 1;
    if !has_handle(store, agent, row) {
        store.count(at);
        return;
    }
    store.know_rows_match_tree();
    // An area has so many bytes, a count of 64 bits.
    let _area = area_bytes(store);
    let handle = store.close_handle(at, row as usize - 1);
    let (outline, held) = handle.into_parts();
    undo_by(store, outline.mode, &outline.file);
    store.unlock(&outline.file.0, &outline.file.1, held);
    store.count(at);
}

// Whether an agent has an open access handle of a number.
fn has_handle(store: &Standing, agent: u32, row: u32) -> bool
    requires { 0 < agent }
    ensures { result ≡ is_some (open_handle in_lengths store.now.machine agent row) }
{
    if row == 0 {
        return false;
    }
    store
        .register()
        .handle(agent as usize - 1, row as usize - 1)
        .is_some()
}

// Stores for good what a read of a file gives now, for an access handle that may write.
fn flush_by(
    alloc: Global,
    store: &mut Standing,
    mode: Mode,
    file: &Place,
    extents: Option<Extents>,
    freed: &mut Vec<Extent>,
)
    requires there { IsSome (file_at file.now store.old.tree) }
    requires room { is_read_write mode ≡ true → IfSome (file_at file.now store.old.tree) (λ f. pool in_lengths store.old.machine + blocks f.present ≤ store.old.machine.limits.blocks + blocks f.length) }
    requires fits { length (freed.old.items ++ (if is_read_write mode then replaced_at store.old.tree file.now extents else [])) ≤ vec_capacity freed.old }
    ensures machine { store.new.machine ≡ with_written store.old.machine mode file.now flushed }
    ensures tree { store.new.tree ≡ changed_by store.old.tree mode file.now (flushed_in extents) }
    ensures prepared { store.new.prepared ≡ store.old.prepared }
    ensures freed { freed.new.items ≡ freed.old.items ++ (if is_read_write mode then replaced_at store.old.tree file.now extents else []) }
    ensures capacity { vec_capacity freed.old ≤ vec_capacity freed.new }
{
    match mode {
        Mode::ReadWrite => flush_as(alloc, store, file, extents, freed),
        Mode::ReadOnly => (),
    }
}

// Lets a read of a file give again what was stored for good, for an access handle that may write.
fn undo_by(store: &mut Standing, mode: Mode, file: &Place)
    requires there { IsSome (file_at file.now store.old.tree) }
    requires quota { is_read_write mode ≡ true → IfSome (file_at file.now store.old.tree) (λ f. usage in_lengths store.old.machine (origin_of file.now.0) + blocks f.length < 2 ^ 64 + blocks f.present) }
    ensures machine { store.new.machine ≡ with_written store.old.machine mode file.now undone }
    ensures tree { store.new.tree ≡ changed_by store.old.tree mode file.now undone_row }
    ensures prepared { store.new.prepared ≡ store.old.prepared }
{
    match mode {
        Mode::ReadWrite => store.undo(&file.0, &file.1),
        Mode::ReadOnly => (),
    }
}
