// The working copy that is left when the store has a row's pages.
ghost use Rattle.std.specs.Prelude.{◌≡◌, ℕ, ◌⊎◌, ◌+◌, ◌*◌, ◌/◌, ◌%◌, ◌^◌, ◌<◌, ◌≤◌, max, true, List, length, slice_index};
ghost use Rattle.opfs_base.specs.Blocks.{blocks};
ghost use Rattle.opfs_splice.specs.Splicing.{splice, resize};
ghost use Rattle.opfs_work.specs.Pages.{page_at, is_far};
ghost use Rattle.opfs_work.specs.Works.{IsStored};
ghost use Rattle.opfs_pages.specs.Copies.{IsCopy, IsPageOf};

use opfs_base::BLOCK_SIZE;
use opfs_work::Work;
use opfs_work::sizes::blocks;

/// Leaves of a working copy what is right after a write of so many bytes at a position whose pages the store has: the pages
/// that it touched are elsewhere, the others stay as they are or go far. Takes no memory.
pub fn leave_write(work: &mut Work, at: u64, len: u64)
    requires end { at + len < 2 ^ 63 }
    requires room { blocks (max work.old.length (at + len)) ≤ work.old.room }
    ensures copy { (old given : List ℕ) → length given ≡ len → IsCopy old work.old → IsCopy (splice old at given) work.new }
    ensures stored { (k : ℕ) → IsStored work.new k }
    ensures length { work.new.length ≡ max work.old.length (at + len) }
    ensures rest { work.new ≡ record work.old { pages = work.new.pages; length = work.new.length; changed_from = 0; changed_to = 0 } }
{
    let size = work.size();
    let _pages = work.pages();
    let end = at + len;
    forget_touched(work, size.min(at), end);
    work.settle();
    work.resize_far(size.max(end));
}

/// Leaves of a working copy what is right after a cut or an extension to a size whose pages the store has. Takes no memory.
pub fn leave_size(work: &mut Work, size: u64)
    requires end { size < 2 ^ 63 }
    requires room { blocks size ≤ work.old.room }
    ensures copy { (old : List ℕ) → IsCopy old work.old → IsCopy (resize old size) work.new }
    ensures stored { (k : ℕ) → IsStored work.new k }
    ensures length { work.new.length ≡ size }
    ensures rest { work.new ≡ record work.old { pages = work.new.pages; length = work.new.length; changed_from = 0; changed_to = 0 } }
{
    let _pages = work.pages();
    forget_touched(work, work.size(), size);
    work.settle();
    work.resize_far(size);
}

// Sends the pages that hold a byte between two positions far.
fn forget_touched(work: &mut Work, from: u64, to: u64)
    requires { to < 2 ^ 63 }
    ensures far { (k : ℕ) → from < to → from < 4096 * k + 4096 → 4096 * k < to → k < length work.old.pages → is_far (page_at work.new.pages k) ≡ true }
    ensures others { (k : ℕ) → (is_far (page_at work.new.pages k) ≡ true) ⊎ (page_at work.new.pages k ≡ page_at work.old.pages k) }
    ensures length { length work.new.pages ≡ length work.old.pages }
    ensures rest { work.new ≡ record work.old { pages = work.new.pages } }
{
    if to <= from {
        return;
    }
    let last = blocks(to).min(work.pages());
    work.forget(from / BLOCK_SIZE, last);
}
