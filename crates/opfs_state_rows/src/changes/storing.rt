//! Files that are stored for good.

ghost use Rattle.std.specs.Prelude.{◌≡◌, ◌+◌, ◌<◌, ◌≤◌, ◌++◌, ◌^◌, Some, IsSome, IfSome, length, vec_capacity};
ghost use Rattle.opfs_base.specs.Blocks.{blocks};
ghost use Rattle.opfs_base.specs.Units.{origin_of};
ghost use Rattle.opfs_machine.specs.Contents.{in_lengths};
ghost use Rattle.opfs_machine.specs.Effects.{replaced, flushed};
ghost use Rattle.opfs_machine.specs.Rows.{with_file};
ghost use Rattle.opfs_machine.specs.Sums.{usage, pool};
ghost use Rattle.opfs_state_rows.specs.Changes.Changed.{stored_in, flushed_in, replaced_at};
ghost use Rattle.opfs_tree.specs.Rows.{file_at, change_at};

use crate::standing::Standing;
use opfs_base::{Extent, Extents};
use opfs_machine::Place;
use std::alloc::Global;

/// How many data blocks there are.
pub(crate) fn data_blocks(store: &Standing) -> u64
    ensures { result ≡ store.now.machine.limits.blocks }
{
    store.register().limits().blocks
}

/// How many bytes a journal area has.
pub(crate) fn area_bytes(store: &Standing) -> u64
    ensures { result ≡ store.now.machine.limits.area }
{
    store.register().limits().area
}

// Appends extents to those freed, where there is room.
fn append(extents: &[Extent], freed: &mut Vec<Extent>)
    requires { length (freed.old.items ++ extents.now) ≤ vec_capacity freed.old }
    ensures freed { freed.new.items ≡ freed.old.items ++ extents.now }
    ensures capacity { vec_capacity freed.old ≤ vec_capacity freed.new }
{
    if freed.extend_from_slice(extents).is_err() {
        unreachable!();
    }
}

// Stores so many bytes of a file in the blocks that it has.
fn store_again(alloc: Global, store: &mut Standing, place: &Place, size: u64, stamp: u64)
    requires there { IsSome (file_at place.now store.old.tree) }
    requires quota { IfSome (file_at place.now store.old.tree) (λ f. usage in_lengths store.old.machine (origin_of place.now.0) + blocks size < 2 ^ 64 + blocks f.present) }
    requires room { IfSome (file_at place.now store.old.tree) (λ f. pool in_lengths store.old.machine + blocks size ≤ store.old.machine.limits.blocks + blocks f.length) }
    ensures machine { store.new.machine ≡ with_file store.old.machine place.now (replaced size stamp) }
    ensures tree { store.new.tree ≡ change_at place.now (stored_in size stamp None) store.old.tree }
    ensures prepared { store.new.prepared ≡ store.old.prepared }
{
    let kept = store.store(&place.0, &place.1, size, stamp, Extents::none(alloc));
    // What is used is a count of 64 bits, and what is kept is within the data blocks.
    let _used = store.usage(&place.0);
    let _held = store.held();
    let _none = store.store(&place.0, &place.1, size, stamp, kept);
}

/// Stores so many bytes of a file in other blocks, or in those that it has where none are told; the blocks that it had are
/// let go.
pub(crate) fn store_as(
    alloc: Global,
    store: &mut Standing,
    place: &Place,
    size: u64,
    stamp: u64,
    extents: Option<Extents>,
    freed: &mut Vec<Extent>,
)
    requires there { IsSome (file_at place.now store.old.tree) }
    requires quota { IfSome (file_at place.now store.old.tree) (λ f. usage in_lengths store.old.machine (origin_of place.now.0) + blocks size < 2 ^ 64 + blocks f.present) }
    requires room { IfSome (file_at place.now store.old.tree) (λ f. pool in_lengths store.old.machine + blocks size ≤ store.old.machine.limits.blocks + blocks f.length) }
    requires fits { length (freed.old.items ++ replaced_at store.old.tree place.now extents) ≤ vec_capacity freed.old }
    ensures machine { store.new.machine ≡ with_file store.old.machine place.now (replaced size stamp) }
    ensures tree { store.new.tree ≡ change_at place.now (stored_in size stamp extents) store.old.tree }
    ensures prepared { store.new.prepared ≡ store.old.prepared }
    ensures freed { freed.new.items ≡ freed.old.items ++ replaced_at store.old.tree place.now extents }
    ensures capacity { vec_capacity freed.old ≤ vec_capacity freed.new }
{
    match extents {
        Some(extents) => {
            let old = store.store(&place.0, &place.1, size, stamp, extents);
            append(old.as_slice(), freed);
        }
        None => store_again(alloc, store, place, size, stamp),
    }
}

/// Stores for good what a read of a file gives now, likewise.
pub(crate) fn flush_as(
    alloc: Global,
    store: &mut Standing,
    place: &Place,
    extents: Option<Extents>,
    freed: &mut Vec<Extent>,
)
    requires there { IsSome (file_at place.now store.old.tree) }
    requires room { IfSome (file_at place.now store.old.tree) (λ f. pool in_lengths store.old.machine + blocks f.present ≤ store.old.machine.limits.blocks + blocks f.length) }
    requires fits { length (freed.old.items ++ replaced_at store.old.tree place.now extents) ≤ vec_capacity freed.old }
    ensures machine { store.new.machine ≡ with_file store.old.machine place.now flushed }
    ensures tree { store.new.tree ≡ change_at place.now (flushed_in extents) store.old.tree }
    ensures prepared { store.new.prepared ≡ store.old.prepared }
    ensures freed { freed.new.items ≡ freed.old.items ++ replaced_at store.old.tree place.now extents }
    ensures capacity { vec_capacity freed.old ≤ vec_capacity freed.new }
{
    store.know_rows_match_tree();
    let Some(file) = store.file(&place.0, &place.1) else {
        unreachable!();
    };
    let (size, stamp) = (file.present, file.present_stamp);
    // What is used is a count of 64 bits.
    let _used = store.usage(&place.0);
    store_as(alloc, store, place, size, stamp, extents, freed);
}
