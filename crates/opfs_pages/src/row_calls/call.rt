// What a call that writes wants before its first write.
ghost use Rattle.std.specs.Prelude.{◌≡◌, ◌+◌, ◌^◌, ◌<◌, false, length, IfOk, IsErrOf};
ghost use Rattle.opfs_data.specs.Calls.{Reads};
ghost use Rattle.opfs_data.specs.Pages.{IsDataPart};
ghost use Rattle.opfs_data.specs.Rows.{pages_at};
ghost use Rattle.opfs_outside.specs.Faults.{Rose};
ghost use Rattle.opfs_pages.specs.Copies.{HasFar};
ghost use Rattle.opfs_pages.specs.RowCalls.Planned.{MayPlan, LeavesPlanned, IsCallPlanned, IsPageLeft, pages_seen};

use crate::bytes::zeros;
use crate::row_calls::leave::page_after;
use crate::row_calls::plan::plan_put;
use crate::writing::Put;
use crate::{PagePut, Planning, RowSource};
use opfs_base::BLOCK_SIZE;
use opfs_data::{DataRefusal, Swap};
use opfs_journal::Journal;
use opfs_outside::Disk;
use opfs_space::Space;
use opfs_work::Work;
use opfs_work::sizes::blocks;

// Reads the page of a position as a write at a place and then a new size leave it.
fn page_left<D: Disk>(
    planning: &Planning<'_>,
    wanted: &PagePut<'_>,
    position: u64,
    work: &Work,
    swap: &Swap,
    journal: &mut Journal<D>,
) -> Result<Vec<u8>, DataRefusal>
    requires end { wanted.now.at + length wanted.now.given.now < 2 ^ 63 }
    requires position { position < 2 ^ 63 }
    requires far { HasFar work.now planning.now.base (D.size journal.old.disk) (pages_at wanted.now.agent wanted.now.row swap.now) }
    requires part { IsDataPart journal.old.areas planning.now.base }
    ensures reads { Reads D.Disk journal.old journal.new }
    ensures page { IfOk result (λ page. IsPageLeft D.tells planning.now wanted.now position work.now (D.content journal.old.disk) swap.now page.items) }
    ensures cause { IsErrOf result DataRefusal.DiskFault → Rose (D.faults journal.old.disk) (D.faults journal.new.disk) }
{
    let mut page = zeros(planning.alloc, BLOCK_SIZE as usize)?;
    let number = position / BLOCK_SIZE;
    let source = RowSource {
        agent: wanted.agent,
        row: wanted.row,
        work,
        swap,
        base: planning.base,
    };
    page_after(&source, wanted, number, journal, &mut page)?;
    Ok(page)
}

/// The pages that a call puts, and the page of its position as it leaves it.
#[derive(Drop)]
pub struct Planned {
    pub put: Put,
    pub page: Vec<u8>,
}

/// Plans a write at a position and then a new size, and makes the page of a place as the call leaves it. It has all memory
/// and all reads, of the working copy too, and the blocks where enough are free. Nothing is written.
pub fn plan_call<D: Disk>(
    planning: &Planning<'_>,
    wanted: &PagePut<'_>,
    position: u64,
    work: &mut Work,
    swap: &mut Swap,
    space: &mut Space,
    journal: &mut Journal<D>,
) -> Result<Planned, DataRefusal>
    requires may { MayPlan D.Disk planning.now wanted.now work.old (pages_seen swap.old space.old journal.old) }
    requires changes { wanted.now.whole ≡ false }
    requires position { position < 2 ^ 63 }
    ensures same { work.new ≡ record work.old { room = work.new.room } }
    ensures left { LeavesPlanned D.Disk planning.now wanted.now (pages_seen swap.old space.old journal.old) (pages_seen swap.new space.new journal.new) }
    ensures planned { IfOk result (λ made. IsCallPlanned D.Disk planning.now wanted.now position work.old work.new (pages_seen swap.old space.old journal.old) (pages_seen swap.new space.new journal.new) made) }
    ensures cause { IsErrOf result DataRefusal.DiskFault → Rose (D.faults journal.old.disk) (D.faults journal.new.disk) }
{
    work.prepare(blocks(wanted.size))?;
    let page = page_left(planning, wanted, position, work, swap, journal)?;
    let put = plan_put(planning, wanted, work, swap, space, journal)?;
    Ok(Planned { put, page })
}
