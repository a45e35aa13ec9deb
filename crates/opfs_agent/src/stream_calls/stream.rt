//! What an agent has of a writable stream.

ghost use Rattle.std.specs.Prelude.{◌≡◌, ◌↔◌, length, IsTrue};
ghost use Rattle.opfs_work.specs.Works.{place_in, IsNearWrite, IsNearSize};

use opfs_base::Locator;
use opfs_hist::Room;
use opfs_work::Work;
use std::marker::Model;

/// An open stream. It has to be spent, by a close or an abort: it cannot be dropped.
pub struct Writable {
    pub(crate) row: u32,
    pub(crate) file: Locator,
    pub(crate) work: Work,
    // The place of its abort's entry.
    pub(crate) room: Room,
}

impl Model for Writable {
    ghost use Rattle.opfs_turns.specs.Asking.Rows.{StreamSeen};

    ghost Value = { StreamSeen };

    ghost view = { λ w. record { row = w.row; file = w.file; work = w.work } };
}

impl Writable {
    /// The number of its row.
    pub fn row(&self) -> u32
        ensures { result ≡ self.now.row }
    {
        self.row
    }

    /// Whether a write of so many bytes needs only what the stream has: no block more, and no page that is elsewhere.
    pub fn fits(&self, position: Option<u64>, len: u64) -> bool
        ensures { IsTrue result ↔ IsNearWrite self.now.work (place_in self.now.work position) len }
    {
        self.work.near_write(position, len)
    }

    /// The same of a new size.
    pub fn fits_size(&self, size: u64) -> bool
        ensures { IsTrue result ↔ IsNearSize self.now.work size }
    {
        self.work.near_size(size)
    }
}

/// A stream that was closed or aborted.
#[derive(Drop)]
pub struct ClosedStream {
    /// The number of its row.
    pub row: u32,
}
