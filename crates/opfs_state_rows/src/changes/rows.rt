//! Calls that make rows, take them out, and make a unit persistent.

ghost use Rattle.std.specs.Prelude.{◌≡◌, ◌+◌, ◌-◌, ◌<◌, ◌≤◌, ◌++◌, ◌^◌, ℕ, List, Option, None, Some, length, true, vec_capacity};
ghost use Rattle.opfs_base.specs.Places.{Place};
ghost use Rattle.opfs_base.specs.declared.extents.Extent.{Extent};
ghost use Rattle.opfs_state_rows.specs.Changes.Allowed.{MayDo};
ghost use Rattle.opfs_state_rows.specs.Changes.Asking.{made_at, target_of, growth_of, place_for, makes_row};
ghost use Rattle.opfs_state_rows.specs.Changes.Changed.{IsDone, freed_by};
ghost use Rattle.opfs_hist.specs.declared.op.Op.TheVariants as op;
ghost use Rattle.opfs_state_rows.specs.Standing.Seen.{is_known};

use crate::changes::caller::Caller;
use crate::changes::storing::area_bytes;
use crate::standing::Standing;
use opfs_base::{Extent, Locator, Text};
use opfs_hist::Op;
use opfs_machine::{Place, Sizes};

/// getDirectory, getFileHandle and getDirectoryHandle: the row comes for which a place stands ready, if none is there.
pub fn make_row(
    store: &mut Standing,
    sizes: Sizes,
    agent: u32,
    op: &Op,
    target: Option<Place>,
    growth: u64,
)
    requires may { MayDo store.old.machine sizes agent op.now }
    requires makes { makes_row op.now ≡ true }
    requires place { store.old.prepared.place ≡ place_for store.old.machine agent op.now }
    requires target { target ≡ target_of store.old.machine agent op.now }
    requires growth { growth ≡ growth_of store.old.machine agent op.now }
    requires known { (place : Place) → target_of store.old.machine agent op.now ≡ Some place → is_known place.0 store.old.prepared ≡ true }
    ensures done { (extents : Option (List Extent)) → IsDone store.old store.new sizes agent op.now extents }
    ensures place { store.new.prepared.place ≡ None }
{
    let at = agent as usize - 1;
    let Some(place) = target else {
        store.count(at);
        return;
    };
    // An area has so many bytes, a count of 64 bits.
    let _area = area_bytes(store);
    let stamp = store.register().moment(at);
    store.fill(&place.0, &place.1, stamp, growth);
    store.count(at);
}

/// removeEntry, of what is at a place.
pub fn remove_entry(
    store: &mut Standing,
    caller: Caller,
    dir: &Locator,
    name: &Text,
    recursive: bool,
    target: Option<Place>,
    freed: &mut Vec<Extent>,
)
    requires may { MayDo store.old.machine caller.sizes caller.agent (op.RemoveEntry dir.now name.now recursive) }
    requires place { store.old.prepared.place ≡ None }
    requires target { target ≡ target_of store.old.machine caller.agent (op.RemoveEntry dir.now name.now recursive) }
    requires fits { (extents : Option (List Extent)) → length (freed.old.items ++ freed_by store.old caller.agent (op.RemoveEntry dir.now name.now recursive) extents) ≤ vec_capacity freed.old }
    ensures done { (extents : Option (List Extent)) → IsDone store.old store.new caller.sizes caller.agent (op.RemoveEntry dir.now name.now recursive) extents }
    ensures prepared { store.new.prepared ≡ store.old.prepared }
    ensures freed { (extents : Option (List Extent)) → freed.new.items ≡ freed.old.items ++ freed_by store.old caller.agent (op.RemoveEntry dir.now name.now recursive) extents }
    ensures capacity { vec_capacity freed.old ≤ vec_capacity freed.new }
{
    let Some(place) = target else {
        unreachable!();
    };
    store.know_rows_match_tree();
    store.remove(&place.0, &place.1, freed);
    store.count(caller.agent as usize - 1);
}

/// persist.
pub fn persist(
    store: &mut Standing,
    sizes: Sizes,
    agent: u32,
    bucket: &Text,
    target: Option<Place>,
    growth: u64,
)
    requires may { MayDo store.old.machine sizes agent (op.Persist bucket.now) }
    requires target { target ≡ target_of store.old.machine agent (op.Persist bucket.now) }
    requires growth { growth ≡ growth_of store.old.machine agent (op.Persist bucket.now) }
    requires known { (place : Place) → target_of store.old.machine agent (op.Persist bucket.now) ≡ Some place → is_known place.0 store.old.prepared ≡ true }
    ensures done { (extents : Option (List Extent)) → IsDone store.old store.new sizes agent (op.Persist bucket.now) extents }
    ensures prepared { store.new.prepared ≡ store.old.prepared }
{
    let at = agent as usize - 1;
    let Some(place) = target else {
        store.count(at);
        return;
    };
    // An area has so many bytes, a count of 64 bits.
    let _area = area_bytes(store);
    store.persist(&place.0, growth);
    store.count(at);
}
