//! Calls that open rows of a file.

ghost use Rattle.std.specs.Prelude.{◌≡◌, ◌+◌, ◌-◌, ◌<◌, ◌≤◌, ◌^◌, ℕ, List, Option, Some, length, suc};
ghost use Rattle.opfs_base.specs.Places.{place_of};
ghost use Rattle.opfs_base.specs.declared.extents.Extent.{Extent};
ghost use Rattle.opfs_state_rows.specs.Changes.Allowed.{MayDo};
ghost use Rattle.opfs_state_rows.specs.Changes.Asking.{target_of};
ghost use Rattle.opfs_state_rows.specs.Changes.Changed.{IsDone};
ghost use Rattle.opfs_state_rows.specs.Changes.Growing.{IsLockGiven};
ghost use Rattle.opfs_hist.specs.declared.op.Op.TheVariants as op;
ghost use Rattle.opfs_laws.specs.Lengths.Kept.{Kept};
ghost use Rattle.opfs_machine.specs.Agents.{agent_of};
ghost use Rattle.opfs_machine.specs.Contents.{in_lengths};
ghost use Rattle.opfs_machine.specs.Effects.{with_lock};
ghost use Rattle.opfs_machine.specs.Rows.{with_file};
ghost use Rattle.opfs_machine.specs.Rulings.{first_reserve, want_of};
ghost use Rattle.opfs_register.specs.Slots.{most_rows};
ghost use Rattle.opfs_tree.specs.Rows.{change_at, locked};

use crate::changes::storing::data_blocks;
use crate::standing::Standing;
use opfs_base::{Locator, blocks};
use opfs_hist::Mode;
use opfs_locks::{Held, Want};
use opfs_machine::{Place, Sizes};
use opfs_register::{OpenHandle, OpenStream};

/// getFile.
pub fn get_file(store: &mut Standing, sizes: Sizes, agent: u32, file: &Locator)
    requires may { MayDo store.old.machine sizes agent (op.GetFile file.now) }
    requires room { store.old.prepared.room ≡ Some (agent - 1) }
    ensures done { (extents : Option (List Extent)) → IsDone store.old store.new sizes agent (op.GetFile file.now) extents }
    ensures place { store.new.prepared.place ≡ store.old.prepared.place }
{
    let at = agent as usize - 1;
    store.add_snapshot(at);
    store.count(at);
}

/// createWritable, in memory for the file's place.
pub fn create_writable(
    store: &mut Standing,
    sizes: Sizes,
    agent: u32,
    file: &Locator,
    keep: bool,
    target: Option<Place>,
)
    requires may { MayDo store.old.machine sizes agent (op.CreateWritable file.now keep) }
    requires target { target ≡ target_of store.old.machine agent (op.CreateWritable file.now keep) }
    requires room { store.old.prepared.room ≡ Some (agent - 1) }
    ensures done { (extents : Option (List Extent)) → IsDone store.old store.new sizes agent (op.CreateWritable file.now keep) extents }
    ensures place { store.new.prepared.place ≡ store.old.prepared.place }
{
    let Some(place) = target else {
        unreachable!();
    };
    let at = agent as usize - 1;
    // There are so many data blocks, a count of 64 bits.
    let _blocks = data_blocks(store);
    let reserve = first_reserve(store, file, keep);
    let held = take(store, file, Want::Shared);
    store.open_stream(at, OpenStream::make(place, reserve, held));
    store.count(at);
}

/// createSyncAccessHandle, in memory for the file's place.
pub fn create_sync(
    store: &mut Standing,
    sizes: Sizes,
    agent: u32,
    file: &Locator,
    mode: Mode,
    target: Option<Place>,
)
    requires may { MayDo store.old.machine sizes agent (op.CreateSyncAccessHandle file.now mode) }
    requires target { target ≡ target_of store.old.machine agent (op.CreateSyncAccessHandle file.now mode) }
    requires room { store.old.prepared.room ≡ Some (agent - 1) }
    ensures done { (extents : Option (List Extent)) → IsDone store.old store.new sizes agent (op.CreateSyncAccessHandle file.now mode) extents }
    ensures place { store.new.prepared.place ≡ store.old.prepared.place }
{
    let Some(place) = target else {
        unreachable!();
    };
    let at = agent as usize - 1;
    let held = take(store, file, want_of(mode));
    store.open_handle(at, OpenHandle::make(place, mode, held));
    store.count(at);
}

// How an access handle of a mode asks for its file's lock.
fn want_of(mode: Mode) -> Want
    ensures { result ≡ want_of mode }
{
    match mode {
        Mode::ReadWrite => Want::Exclusive,
        Mode::ReadOnly => Want::ReadOnly,
    }
}

// The blocks that a new stream keeps.
fn first_reserve(store: &Standing, at: &Locator, keep: bool) -> u64
    ensures { result ≡ first_reserve in_lengths store.now.machine at.now keep }
{
    match store.size(&at.key, &at.path) {
        Some(size) if keep => blocks(size),
        _ => 0,
    }
}

// Takes the lock of a file, which is given as asked.
fn take(store: &mut Standing, file: &Locator, want: Want) -> Held
    requires kept { Kept store.old.machine }
    requires given { IsLockGiven store.old.machine (place_of file.now) want }
    ensures machine { store.new.machine ≡ with_file store.old.machine (place_of file.now) (with_lock want) }
    ensures tree { store.new.tree ≡ change_at (place_of file.now) (locked want) store.old.tree }
    ensures prepared { store.new.prepared ≡ store.old.prepared }
    ensures held { result ≡ want }
{
    store.know_rows_match_tree();
    few_rows(store);
    let Some(held) = store.take(&file.key, &file.path, want) else {
        unreachable!();
    };
    held
}

// There are few agents, and each has few rows. Says so: it looks at each agent once.
fn few_rows(store: &Standing)
    ensures agents { length store.now.machine.agents ≤ 64 }
    ensures rows { (at : ℕ) → at < length store.now.machine.agents → length (agent_of store.now.machine (suc at)).own ≤ most_rows }
{
    for at in 0..store.register().agents() {
        let _rows = store.register().rows(at);
    }
}
