// A row that is opened with the bytes of its file.
ghost use Rattle.std.specs.Prelude.{◌≡◌, ℕ, ◌+◌, ◌^◌, ◌<◌, ◌≤◌, true, is_some, None, length, IfOk, OnOk, OnErr};
ghost use Rattle.std.specs.List.{AllByRecursion};
ghost use Rattle.opfs_base.specs.Blocks.{blocks};
ghost use Rattle.opfs_data.specs.Pages.{pages_in};
ghost use Rattle.opfs_data.specs.Rows.{row_of, pages_at, kept_count, OthersStay};
ghost use Rattle.opfs_work.specs.Pages.{page_at, is_far};
ghost use Rattle.opfs_work.specs.Works.{IsStored};

use opfs_base::Extent;
use opfs_data::Swap;
use opfs_work::Work;
use std::alloc::{AllocError, Global};

/// Opens a row whose pages have the blocks of its file, in order, and the working copy of so many bytes, all of them elsewhere.
/// Where there is no memory all is as before.
pub fn open_row(
    alloc: Global,
    swap: &mut Swap,
    agent: u32,
    row: u32,
    extents: &[Extent],
    length: u64,
    reserve: u64,
) -> Result<Work, AllocError>
    requires absent { row_of agent row swap.old ≡ None }
    requires lies { AllByRecursion (λ extent. extent.start + extent.count ≤ 2 ^ 32) extents.now }
    ensures there { OnOk result (is_some (row_of agent row swap.new) ≡ true) }
    ensures pages { OnOk result (pages_at agent row swap.new ≡ pages_in extents.now) }
    ensures others { OthersStay agent row swap.old swap.new }
    ensures kept { kept_count swap.new ≡ kept_count swap.old }
    ensures length { IfOk result (λ work. work.length ≡ length) }
    ensures position { IfOk result (λ work. work.position ≡ 0) }
    ensures reserve { IfOk result (λ work. work.reserve ≡ reserve) }
    ensures far { IfOk result (λ work. (k : ℕ) → k < blocks length → is_far (page_at work.pages k) ≡ true) }
    ensures stored { IfOk result (λ work. (k : ℕ) → IsStored work k) }
    ensures err { OnErr result (swap.new ≡ swap.old) }
{
    let work = Work::far(alloc, length, 0, reserve)?;
    swap.open(alloc, agent, row, extents)?;
    Ok(work)
}
