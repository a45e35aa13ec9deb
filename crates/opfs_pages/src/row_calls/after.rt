// The working copy that a call leaves once the store has its row's pages.
ghost use Rattle.std.specs.Prelude.{◌≡◌, ℕ, ◌+◌, ◌/◌, ◌%◌, ◌^◌, ◌<◌, ◌≤◌, min, max, false, List, [], length, slice_index};
ghost use Rattle.opfs_base.specs.Blocks.{blocks};
ghost use Rattle.opfs_machine.specs.Rulings.{reserve_for};
ghost use Rattle.opfs_pages.specs.Copies.{IsCopy, IsPageOf};
ghost use Rattle.opfs_pages.specs.Stages.{changed};
ghost use Rattle.opfs_splice.specs.Splicing.{splice, resize};
ghost use Rattle.opfs_work.specs.Pages.{page_at, is_far};
ghost use Rattle.opfs_work.specs.Works.{IsStored};

use crate::row_calls::leave::bring_near;
use crate::{leave_size, leave_write};
use opfs_base::BLOCK_SIZE;
use opfs_work::Work;
use opfs_work::sizes::blocks;

// Moves to a position, and reserves what the bytes take.
fn move_to(work: &mut Work, position: u64)
    requires room { blocks work.old.length ≤ work.old.room }
    ensures { work.new ≡ record work.old { position = position; reserve = reserve_for work.old.reserve work.old.length } }
{
    work.seek(position);
    work.grow(blocks(work.size()));
}

/// Leaves what is right after a write of so many bytes at a position: the row's bytes, the position behind them, as many blocks
/// reserved as the bytes take, and the page of a place beside them in memory. Takes no memory.
pub fn after_write(work: &mut Work, at: u64, len: u64, beside: u64, page: &[u8])
    requires end { at + len < 2 ^ 63 }
    requires room { blocks (max work.old.length (at + len)) ≤ work.old.room }
    requires whole { length page.now ≡ 4096 }
    requires tail { (i : ℕ) → max work.old.length (at + len) ≤ i → i / 4096 ≡ beside / 4096 → slice_index page.now (i % 4096) ≡ 0 }
    ensures copy { (old given : List ℕ) → length given ≡ len → IsCopy old work.old → IsPageOf (changed old at given (max work.old.length (at + len))) (beside / 4096) page.now → IsCopy (splice old at given) work.new }
    ensures stored { (k : ℕ) → IsStored work.new k }
    ensures near { is_far (page_at work.new.pages (beside / 4096)) ≡ false }
    ensures size { work.new.length ≡ max work.old.length (at + len) }
    ensures position { work.new.position ≡ at + len }
    ensures reserve { work.new.reserve ≡ reserve_for work.old.reserve (max work.old.length (at + len)) }
{
    leave_write(work, at, len);
    move_to(work, at + len);
    bring_near(work, beside / BLOCK_SIZE, page);
}

/// Leaves what is right after a cut or an extension to a size: the row's bytes, the position within them, as many blocks reserved
/// as they take, and the page of the position in memory. Takes no memory.
pub fn after_size(work: &mut Work, size: u64, page: &[u8])
    requires end { size < 2 ^ 63 }
    requires room { blocks size ≤ work.old.room }
    requires whole { length page.now ≡ 4096 }
    requires tail { (i : ℕ) → size ≤ i → i / 4096 ≡ min work.old.position size / 4096 → slice_index page.now (i % 4096) ≡ 0 }
    ensures copy { (old : List ℕ) → IsCopy old work.old → IsPageOf (changed old 0 [] size) (min work.old.position size / 4096) page.now → IsCopy (resize old size) work.new }
    ensures stored { (k : ℕ) → IsStored work.new k }
    ensures near { is_far (page_at work.new.pages (work.new.position / 4096)) ≡ false }
    ensures size { work.new.length ≡ size }
    ensures position { work.new.position ≡ min work.old.position size }
    ensures reserve { work.new.reserve ≡ reserve_for work.old.reserve size }
{
    let position = work.position().min(size);
    leave_size(work, size);
    move_to(work, position);
    bring_near(work, position / BLOCK_SIZE, page);
}

/// Leaves what is right after a flush: the same bytes, the same position, and nothing reserved. Takes no memory.
pub fn after_flush(work: &mut Work)
    requires end { work.old.length < 2 ^ 63 }
    requires room { blocks work.old.length ≤ work.old.room }
    ensures copy { (old : List ℕ) → IsCopy old work.old → IsCopy old work.new }
    ensures stored { (k : ℕ) → IsStored work.new k }
    ensures size { work.new.length ≡ work.old.length }
    ensures position { work.new.position ≡ work.old.position }
    ensures reserve { work.new.reserve ≡ 0 }
{
    let size = work.size();
    leave_size(work, size);
    work.drop_reserve();
}
