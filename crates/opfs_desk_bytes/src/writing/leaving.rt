//! The working copy that a call leaves, once the store has its row's pages.

ghost use Rattle.std.specs.Prelude.{◌≡◌, ℕ, ◌+◌, ◌/◌, ◌%◌, ◌^◌, ◌<◌, ◌≤◌, min, max, true, false, List, length, slice_index};
ghost use Rattle.opfs_base.specs.Blocks.{blocks};
ghost use Rattle.opfs_store.specs.Copies.Copies.{IsPaged};
ghost use Rattle.opfs_desk_bytes.specs.Writing.Leaving.{IsWritten, IsCut};
ghost use Rattle.opfs_machine.specs.Rulings.{reserve_for};
ghost use Rattle.opfs_pages.specs.Copies.{IsCopy, IsPageOf};
ghost use Rattle.opfs_pages.specs.Stages.{changed};
ghost use Rattle.opfs_work.specs.Pages.{page_at, is_far};

use crate::writing::target::Target;
use opfs_pages::{after_size, after_write};
use opfs_work::Work;

/// Leaves what is right after so many bytes were written, or a size was given: the row's bytes, its position and reserve, and the page
/// of a place beside them in memory. Takes no memory.
pub(crate) fn leave_put(work: &mut Work, target: Target, len: u64, page: &[u8])
    requires written { target.writes ≡ true → IsWritten work.old target len }
    requires cut { target.writes ≡ false → IsCut work.old target len }
    requires end { target.at + len < 2 ^ 63 }
    requires size { target.size < 2 ^ 63 }
    requires room { blocks target.size ≤ work.old.room }
    requires whole { length page.now ≡ 4096 }
    requires tail { (i : ℕ) → target.size ≤ i → i / 4096 ≡ target.beside / 4096 → slice_index page.now (i % 4096) ≡ 0 }
    ensures copy { (bytes given : List ℕ) → length given ≡ len → IsCopy bytes work.old → IsPageOf (changed bytes target.at given target.size) (target.beside / 4096) page.now
        → IsCopy (changed bytes target.at given target.size) work.new }
    ensures size { work.new.length ≡ target.size }
    ensures position { work.new.position ≡ target.position }
    ensures reserve { work.new.reserve ≡ reserve_for work.old.reserve target.size }
    ensures near { is_far (page_at work.new.pages (target.beside / 4096)) ≡ false }
    ensures paged { IsPaged work.new }
{
    if target.writes {
        after_write(work, target.at, len, target.beside, page);
        let _pages = work.pages();
        return;
    }
    after_size(work, target.size, page);
    let _pages = work.pages();
}
