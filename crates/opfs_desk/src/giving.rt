//! Entries that were told are let go.

ghost use Rattle.std.specs.Prelude.{◌≡◌, ◌+◌, ◌<◌, ◌^◌, drop, length};
ghost use Rattle.opfs_desk.specs.Seen.{entries_of};

use crate::desk::Desk;
use opfs_hist::Given;
use opfs_outside::Disk;

impl<D: Disk> Desk<D> {
    /// Gives out the entries that were not given out before: the desk stands for the same history, and no longer holds them. Takes no
    /// memory, and as long for many as for one.
    pub fn give_out(&mut self) -> Given
        ensures kept { self.new ≡ self.old }
        ensures entries { result.entries ≡ drop result.place (entries_of self.old) }
        ensures place { result.place + length result.entries ≡ length (entries_of self.old) }
        ensures fits { result.place + length result.entries < 2 ^ 63 }
    {
        let alloc = self.parts.ledger.alloc;
        self.parts.ledger.books.give_out(alloc)
    }
}
