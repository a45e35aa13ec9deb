//! What the desk keeps.

ghost use Rattle.std.specs.Prelude.{◌≡◌, ◌++◌, ◌<◌, ◌^◌, List, length};
ghost use Rattle.opfs_desk.specs.Keeping.{KeepsAll};
ghost use Rattle.opfs_desk.specs.Moments.{KeepsContents, ShowsFronts};
ghost use Rattle.opfs_desk.specs.Seen.{entries_of, disk_of, CountsFaults, HasAcknowledged, ShowsNow};
ghost use Rattle.opfs_hist.specs.declared.entry.Entry.{Entry};
ghost use Rattle.opfs_laws.specs.Histories.Unread.{IsTold};

use crate::desk::Desk;
use opfs_books::{the_books_show_their_images, the_state_is_kept};
use opfs_outside::Disk;

impl<D: Disk> Desk<D> {
    /// What the type keeps: its history is legal, but for the bytes of reads where the disk does not tell, and not longer than
    /// numbers allow.
    pub fn know_legal(&self)
        ensures legal { IsTold D.tells self.now.fixed.opening (entries_of self.now) }
        ensures short { length (entries_of self.now) < 2 ^ 34 }
    {
        the_state_is_kept::<D>();
        let _ = &self.parts;
    }

    /// What the type keeps of the images that a crash may leave now.
    pub fn images(&self)
        ensures { ShowsNow D.Disk self.now }
    {
        the_books_show_their_images::<D>();
        let _ = &self.parts;
    }

    /// What the type keeps of each moment: each image since the run began shows a front of what is stored, and each content has been
    /// kept since a moment.
    pub fn know_moments(&self)
        ensures fronts { D.tells → ShowsFronts D.Disk self.now.fixed.opening (entries_of self.now) self.now.fixed.begun (disk_of self.now) }
        ensures keeps { D.tells → KeepsContents D.Disk self.now.fixed.opening (entries_of self.now) (disk_of self.now) }
    {
        let _ = &self.parts;
    }

    /// What is acknowledged stays: each image that a crash may leave now has all that any front of the history stored up to its last
    /// content.
    pub fn know_acknowledged(&self)
        ensures { D.tells → (front rest : List Entry) → entries_of self.now ≡ front ++ rest → HasAcknowledged D.Disk self.now front }
    {
        the_books_show_their_images::<D>();
        let _ = &self.parts;
    }

    /// All that was entered is kept from this moment on.
    pub fn know_kept(&self)
        ensures { KeepsAll D.Disk self.now }
    {
        the_books_show_their_images::<D>();
        let _ = &self.parts;
    }

    /// What the type keeps of faults: entries tell of no more than the disk's count has risen.
    pub fn counts(&self)
        ensures { CountsFaults D.Disk self.now }
    {
        let _ = &self.parts;
    }
}
