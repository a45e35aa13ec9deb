//! What an agent has of an access handle.

ghost use Rattle.std.specs.Prelude.{◌≡◌, ◌↔◌, length, IsTrue};
ghost use Rattle.opfs_work.specs.Works.{place_in, IsNearRead};

use opfs_base::Locator;
use opfs_hist::{Mode, Room};
use opfs_work::Work;
use std::marker::Model;

/// An open access handle. It has to be spent, by a close or a discard: it cannot be dropped.
pub struct SyncHandle {
    pub(crate) row: u32,
    pub(crate) file: Locator,
    pub(crate) mode: Mode,
    pub(crate) work: Work,
    // The place of its discard's entry.
    pub(crate) room: Room,
}

impl Model for SyncHandle {
    ghost use Rattle.opfs_turns.specs.Asking.Rows.{HandleSeen};

    ghost Value = { HandleSeen };

    ghost view = { λ h. record { row = h.row; file = h.file; mode = h.mode; work = h.work } };
}

impl SyncHandle {
    /// The number of its row.
    pub fn row(&self) -> u32
        ensures { result ≡ self.now.row }
    {
        self.row
    }

    /// Whether the handle has the bytes that a read gives.
    pub fn near(&self, len: u64, at: Option<u64>) -> bool
        ensures { IsTrue result ↔ IsNearRead self.now.work (place_in self.now.work at) len }
    {
        self.work.near_read(len, at)
    }
}

/// An access handle that was closed or discarded.
#[derive(Drop)]
pub struct ClosedSync {
    /// The number of its row.
    pub row: u32,
}
