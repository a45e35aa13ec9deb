// What a call puts of a row's pages, with all memory, all reads, and the blocks where these are free.
ghost use Rattle.std.specs.Prelude.{◌≡◌, ℕ, ◌+◌, ◌*◌, ◌^◌, ◌<◌, ◌≤◌, List, [], Bool, true, false, length, is_some, IfOk, OnOk, OnErr, IsErrOf};
ghost use Rattle.std.specs.List.{AllByRecursion};
ghost use Rattle.std.specs.Vec.{vec_capacity};
ghost use Rattle.opfs_base.specs.Blocks.{blocks};
ghost use Rattle.opfs_blocks.specs.Sets.{AreBelow};
ghost use Rattle.opfs_data.specs.Calls.{Reads};
ghost use Rattle.opfs_data.specs.Pages.{LiesIn, IsDataPart};
ghost use Rattle.opfs_data.specs.Rows.{row_of, pages_at};
ghost use Rattle.opfs_outside.specs.Faults.{Rose};
ghost use Rattle.opfs_pages.specs.Stages.{IsReady, IsReadyFor, IsStaged, stage_of};
ghost use Rattle.opfs_pages.specs.Writing.Puts.{HasSamePages, IsReady as IsPutReady};
ghost use Rattle.opfs_records.specs.Replay.Built.{named, has_block};
ghost use Rattle.opfs_space.specs.Holders.{AreAllBelow, AreSwept};
ghost use Rattle.opfs_pages.specs.RowCalls.Plans.{IsStagedFor, HasTaken};
ghost use Rattle.opfs_pages.specs.RowCalls.Planned.{MayPlan, LeavesPlanned, IsPutPlanned, pages_seen};
ghost use Rattle.opfs_space.specs.Plans.{ArePlanned};
ghost use Rattle.opfs_data.specs.Writes.{page_writes, page_moves};

use crate::writing::{Put, RowPages};
use crate::{PagePut, PageSource, Planning, stage_changes};
use opfs_data::{DataRefusal, PageWrites, Swap};
use opfs_journal::Journal;
use opfs_outside::Disk;
use opfs_space::Space;
use opfs_tree::ReadyTree;
use opfs_work::Work;
use opfs_work::sizes::blocks;
use std::alloc::Global;

// The pages that a write at a position and then a new size leave changed, or that a content wants, with all memory, and with
// blocks where these are free.
fn try_put<D: Disk>(
    alloc: Global,
    work: &Work,
    swap: &mut Swap,
    space: &mut Space,
    journal: &mut Journal<D>,
    base: u64,
    put: &PagePut<'_>,
) -> Result<Put, DataRefusal>
    requires size { put.now.size < 2 ^ 63 }
    requires stays { put.now.at + length put.now.given.now ≤ put.now.size }
    requires there { is_some (row_of put.now.agent put.now.row swap.old) ≡ true }
    requires lies { AllByRecursion (λ page. LiesIn base (D.size journal.old.disk) page.block) (pages_at put.now.agent put.now.row swap.old) }
    requires ready { IsReady work.now swap.old space.old put.now.agent put.now.row base (D.size journal.old.disk) journal.old.areas }
    ensures pages { HasSamePages put.now.agent put.now.row swap.old swap.new }
    ensures reads { Reads D.Disk journal.old journal.new }
    ensures staged { IfOk result (λ made. IsStagedFor D.tells work.now (D.content journal.old.disk) base swap.old put.now.agent put.now.row put.now.at put.now.given.now put.now.size put.now.whole made.writes) }
    ensures planned { IfOk result (λ made. ArePlanned space.old.own swap.old put.now.agent put.now.row (blocks put.now.size) (page_writes made.writes put.now.given.now) (page_moves made.writes put.now.given.now)) }
    ensures ready { IfOk result (λ made. IsPutReady D.tells (D.content journal.new.disk) base swap.new put.now.agent put.now.row (blocks put.now.size) made.writes made.moves (vec_capacity made.extents)) }
    ensures count { IfOk result (λ made. made.pages ≡ blocks put.now.size) }
    ensures taken { IfOk result (λ made. HasTaken made.taken space.old space.new made.moves made.extents.items) }
    ensures err { OnErr result (space.new ≡ space.old) }
    ensures cause { IsErrOf result DataRefusal.DiskFault → Rose (D.faults journal.old.disk) (D.faults journal.new.disk) }
{
    let source = PageSource {
        work,
        swap,
        space,
        base,
    };
    let writes = stage_changes(alloc, &source, put, journal)?;
    let pages = RowPages {
        agent: put.agent,
        row: put.row,
        pages: blocks(put.size),
    };
    let mut made = Put::ready(alloc, swap, journal, base, &pages, writes)?;
    made.take(space);
    Ok(made)
}

// Finds anew which blocks one page alone has, and no file.
fn look_anew(space: &mut Space, tree: &ReadyTree, swap: &Swap)
    requires files { AreBelow (length space.old.used) (named tree.now.rows) }
    requires pages { AreAllBelow (length space.old.used) swap.now }
    ensures used { space.new.used ≡ space.old.used }
    ensures own { length space.new.own ≡ length space.new.used }
    ensures found { AreSwept (length space.old.used) (has_block (named tree.now.rows)) swap.now space.new.seen space.new.own }
{
    space.look(tree, swap);
    space.know_kept();
}

/// Plans what a call puts of a row's pages: a write at a position and then a new size, or a content. It has all memory and all
/// reads, and the blocks where enough are free; where they are not, which pages want one is known exactly. Nothing is written.
pub fn plan_put<D: Disk>(
    planning: &Planning<'_>,
    wanted: &PagePut<'_>,
    work: &Work,
    swap: &mut Swap,
    space: &mut Space,
    journal: &mut Journal<D>,
) -> Result<Put, DataRefusal>
    requires may { MayPlan D.Disk planning.now wanted.now work.now (pages_seen swap.old space.old journal.old) }
    ensures left { LeavesPlanned D.Disk planning.now wanted.now (pages_seen swap.old space.old journal.old) (pages_seen swap.new space.new journal.new) }
    ensures planned { IfOk result (λ put. IsPutPlanned D.Disk planning.now wanted.now work.now (pages_seen swap.old space.old journal.old) (pages_seen swap.new space.new journal.new) put) }
    ensures cause { IsErrOf result DataRefusal.DiskFault → Rose (D.faults journal.old.disk) (D.faults journal.new.disk) }
{
    let alloc = planning.alloc;
    let base = planning.base;
    let put = try_put(alloc, work, swap, space, journal, base, wanted)?;
    if put.taken {
        return Ok(put);
    }
    look_anew(space, planning.tree, swap);
    let put = try_put(alloc, work, swap, space, journal, base, wanted)?;
    Ok(put)
}
