//! Calls on writable streams.

ghost use Rattle.std.specs.Prelude.{◌≡◌, ◌+◌, ◌<◌, ◌≤◌, ◌++◌, ◌^◌, ℕ, List, Option, None, length, vec_capacity};
ghost use Rattle.opfs_base.specs.declared.extents.Extent.{Extent};
ghost use Rattle.opfs_hist.specs.declared.op.Op.TheVariants as op;
ghost use Rattle.opfs_state_rows.specs.Changes.Allowed.{MayDo};
ghost use Rattle.opfs_state_rows.specs.Changes.Growing.{IsGrowing};
ghost use Rattle.opfs_laws.specs.Lengths.Kept.{Kept};
ghost use Rattle.opfs_machine.specs.Agents.{counted};
ghost use Rattle.opfs_machine.specs.Contents.{stream_with};
ghost use Rattle.opfs_machine.specs.Effects.{with_changed};
ghost use Rattle.opfs_machine.specs.Rulings.{reserve_for};
ghost use Rattle.opfs_machine.specs.Sums.{reserve_of};
ghost use Rattle.opfs_state_rows.specs.Changes.Changed.{IsDone, freed_by};

use crate::changes::storing::{data_blocks, store_as};
use crate::standing::Standing;
use opfs_base::{Data, Extent, Extents, blocks};
use opfs_machine::Sizes;
use std::alloc::Global;

/// close.
pub fn close(
    alloc: Global,
    store: &mut Standing,
    sizes: Sizes,
    agent: u32,
    row: u32,
    extents: Option<Extents>,
    freed: &mut Vec<Extent>,
)
    requires may { MayDo store.old.machine sizes agent (op.Close row) }
    requires fits { length (freed.old.items ++ freed_by store.old agent (op.Close row) extents) ≤ vec_capacity freed.old }
    ensures done { IsDone store.old store.new sizes agent (op.Close row) extents }
    ensures prepared { store.new.prepared ≡ store.old.prepared }
    ensures freed { freed.new.items ≡ freed.old.items ++ freed_by store.old agent (op.Close row) extents }
    ensures capacity { vec_capacity freed.old ≤ vec_capacity freed.new }
{
    let at = agent as usize - 1;
    store.know_rows_match_tree();
    // What is kept is a count of 64 bits.
    let _held = store.held();
    let moment = store.register().moment(at);
    let stream = store.close_stream(at, row as usize - 1);
    let (outline, held) = stream.into_parts();
    store_as(
        alloc,
        store,
        &outline.file,
        sizes.size,
        moment,
        extents,
        freed,
    );
    store.unlock(&outline.file.0, &outline.file.1, held);
    store.count(at);
}

/// abort.
pub fn abort(store: &mut Standing, sizes: Sizes, agent: u32, row: u32)
    requires may { MayDo store.old.machine sizes agent (op.Abort row) }
    ensures done { (extents : Option (List Extent)) → IsDone store.old store.new sizes agent (op.Abort row) extents }
    ensures prepared { store.new.prepared ≡ store.old.prepared }
{
    let at = agent as usize - 1;
    store.know_rows_match_tree();
    let stream = store.close_stream(at, row as usize - 1);
    let (outline, held) = stream.into_parts();
    store.unlock(&outline.file.0, &outline.file.1, held);
    store.count(at);
}

/// write. It says where it ends, or goes on from the offset.
pub fn write(
    store: &mut Standing,
    sizes: Sizes,
    agent: u32,
    row: u32,
    bytes: &Data,
    position: Option<u64>,
)
    requires may { MayDo store.old.machine sizes agent (op.Write row bytes.now position) }
    ensures done { (extents : Option (List Extent)) → IsDone store.old store.new sizes agent (op.Write row bytes.now position) extents }
    ensures prepared { store.new.prepared ≡ store.old.prepared }
{
    let end = position.unwrap_or(sizes.position) + bytes.len();
    grow(store, agent, row, sizes.size.max(end));
}

/// truncate.
pub fn truncate(store: &mut Standing, sizes: Sizes, agent: u32, row: u32, size: u64)
    requires may { MayDo store.old.machine sizes agent (op.Truncate row size) }
    ensures done { (extents : Option (List Extent)) → IsDone store.old store.new sizes agent (op.Truncate row size) extents }
    ensures prepared { store.new.prepared ≡ store.old.prepared }
{
    grow(store, agent, row, size);
}

// Keeps as many blocks for an open stream as a size takes, and never fewer than before.
fn grow(store: &mut Standing, agent: u32, row: u32, size: u64)
    requires above { 0 < agent }
    requires within { agent ≤ length store.old.machine.agents }
    requires entries { store.old.machine.entries + 1 < 2 ^ 64 }
    requires kept { Kept store.old.machine }
    requires grows { IsGrowing store.old.machine agent row size }
    ensures machine { store.new.machine ≡ counted (with_changed store.old.machine agent row (λ r. stream_with r (reserve_for (reserve_of r) size))) agent }
    ensures tree { store.new.tree ≡ store.old.tree }
    ensures prepared { store.new.prepared ≡ store.old.prepared }
{
    let at = agent as usize - 1;
    let n = row as usize - 1;
    // There are so many data blocks, a count of 64 bits.
    let _blocks = data_blocks(store);
    let Some(stream) = store.register().stream(at, n) else {
        unreachable!();
    };
    let more = stream.reserve.max(blocks(size)) - stream.reserve;
    store.grow_stream(at, n, more);
    store.count(at);
}
