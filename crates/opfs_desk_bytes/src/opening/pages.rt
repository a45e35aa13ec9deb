//! The pages of a row that a call opens.

ghost use Rattle.std.specs.Prelude.{◌≡◌, ◌+◌, ◌^◌, ◌≤◌, true, is_some, None, if◌then◌else◌, count_by, length, IfOk, OnOk, OnErr};
ghost use Rattle.std.specs.List.{AllByRecursion};
ghost use Rattle.opfs_data.specs.Pages.{pages_in};
ghost use Rattle.opfs_data.specs.Rows.{row_of, pages_at, kept_count, OthersStay};
ghost use Rattle.opfs_base.specs.Blocks.{blocks};
ghost use Rattle.opfs_base.specs.Places.{place_of};
ghost use Rattle.opfs_desk_bytes.specs.Opening.Sizes.{IsFar, present_in, opened_size, kept_blocks};
ghost use Rattle.opfs_desk_steps.specs.Parts.Seen.{machine_in};
ghost use Rattle.opfs_desk_steps.specs.RowLaws.Opens.{opens_row, file_extents, opened_extents};
ghost use Rattle.opfs_tree.specs.Rows.{file_at};
ghost use Rattle.opfs_hist.specs.Sums.{makes_row};
ghost use Rattle.opfs_machine.specs.Agents.{agent_of};
ghost use Rattle.opfs_register.specs.Slots.{most_rows};
ghost use Rattle.opfs_state.specs.Verdicts.Callers.{IsAgent};

use opfs_base::Locator;
use opfs_data::Swap;
use opfs_desk_steps::Ledger;
use opfs_hist::{Op, Pending};
use opfs_outside::Disk;
use opfs_pages::open_row;
use opfs_state::State;
use opfs_work::Work;
use opfs_work::sizes::blocks;
use std::alloc::{AllocError, Global};

/// The number of the row that an agent makes next, its pending calls counted.
pub(crate) fn next_row<D: Disk>(ledger: &Ledger<D>, agent: u32, pending: &Pending) -> u32
    requires agent { IsAgent (machine_in ledger.now) agent }
    requires few { length (agent_of (machine_in ledger.now) agent).own + count_by makes_row pending.now ≤ most_rows }
    ensures { result ≡ length (agent_of (machine_in ledger.now) agent).own + count_by makes_row pending.now + 1 }
{
    let made = ledger.books.state.rows(agent) as u64;
    (made + pending.sum().rows + 1) as u32
}

// Opens a row over a file, with blocks kept for its bytes or none.
fn open_file(
    alloc: Global,
    state: &State,
    swap: &mut Swap,
    agent: u32,
    row: u32,
    file: &Locator,
    keeps: bool,
) -> Result<Work, AllocError>
    requires absent { row_of agent row swap.old ≡ None }
    requires lies { AllByRecursion (λ extent. extent.start + extent.count ≤ 2 ^ 32) (file_extents state.now.store.tree (place_of file.now)) }
    ensures there { OnOk result (is_some (row_of agent row swap.new) ≡ true) }
    ensures pages { OnOk result (pages_at agent row swap.new ≡ pages_in (file_extents state.now.store.tree (place_of file.now))) }
    ensures others { OthersStay agent row swap.old swap.new }
    ensures kept { kept_count swap.new ≡ kept_count swap.old }
    ensures copy { IfOk result (λ work. IsFar (present_in (file_at (place_of file.now) state.now.store.tree)) (if keeps then blocks (present_in (file_at (place_of file.now) state.now.store.tree)) else 0) work) }
    ensures err { OnErr result (swap.new ≡ swap.old) }
{
    match state.file(&file.key, &file.path) {
        Some(found) => {
            let kept = if keeps { blocks(found.present) } else { 0 };
            open_row(
                alloc,
                swap,
                agent,
                row,
                found.extents.as_slice(),
                found.present,
                kept,
            )
        }
        None => open_row(alloc, swap, agent, row, &[], 0, 0),
    }
}

/// Opens the row of a call over the pages of its file, or over none where a stream begins empty; and gives its working copy. Where
/// there is no memory all is as before.
pub(crate) fn open_pages(
    alloc: Global,
    state: &State,
    swap: &mut Swap,
    agent: u32,
    row: u32,
    op: &Op,
) -> Result<Work, AllocError>
    requires word { opens_row op.now ≡ true }
    requires absent { row_of agent row swap.old ≡ None }
    requires lies { AllByRecursion (λ extent. extent.start + extent.count ≤ 2 ^ 32) (opened_extents state.now.store.tree op.now) }
    ensures there { OnOk result (is_some (row_of agent row swap.new) ≡ true) }
    ensures pages { OnOk result (pages_at agent row swap.new ≡ pages_in (opened_extents state.now.store.tree op.now)) }
    ensures others { OthersStay agent row swap.old swap.new }
    ensures kept { kept_count swap.new ≡ kept_count swap.old }
    ensures copy { IfOk result (λ work. IsFar (opened_size state.now.store.tree op.now) (kept_blocks state.now.store.tree op.now) work) }
    ensures err { OnErr result (swap.new ≡ swap.old) }
{
    match op {
        Op::CreateWritable { file, keep: true } => open_file(
            alloc, state, swap, agent, row, file, true,
        ),
        Op::CreateWritable { .. } => open_row(alloc, swap, agent, row, &[], 0, 0),
        Op::CreateSyncAccessHandle { file, .. } => open_file(
            alloc, state, swap, agent, row, file, false,
        ),
        _ => unreachable!(),
    }
}
