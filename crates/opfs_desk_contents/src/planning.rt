//! What a call that stores a row's content wants before its first write.

ghost use Rattle.std.specs.Prelude.{◌≡◌, ◌≤◌, [], true, Some, is_some, IfOk, IsErrOf};
ghost use Rattle.std.specs.Vec.{vec_capacity};
ghost use Rattle.opfs_desk_contents.specs.Planning.{MayPlanContent, LeavesContentPlanned, IsContentReady};
ghost use Rattle.opfs_outside.specs.Faults.{Rose};
ghost use Rattle.opfs_state.specs.Reading.{row_file};
ghost use Rattle.opfs_state.specs.Verdicts.Callers.{IsAgent};

use opfs_base::{Extent, copy_place};
use opfs_data::DataRefusal;
use opfs_desk_steps::DeskParts;
use opfs_machine::Place;
use opfs_outside::Disk;
use opfs_pages::{PagePut, Planning, Put, plan_put};
use opfs_state::State;
use opfs_work::Work;
use std::alloc::{AllocError, Global};

/// What a call stores of a row: its pages with all memory, its file, and room for the runs of its blocks, once for the change and
/// once for the file.
#[derive(Drop)]
pub struct Plan {
    pub put: Put,
    pub place: Place,
    pub runs: Vec<Extent>,
    pub copy: Vec<Extent>,
}

// The file of an open row, in memory of its own.
fn file_of(alloc: Global, state: &State, agent: u32, row: u32) -> Result<Place, AllocError>
    requires agent { IsAgent state.now.store.machine agent }
    requires there { is_some (row_file state.now.store.machine agent row) ≡ true }
    ensures { IfOk result (λ place. row_file state.now.store.machine agent row ≡ Some place) }
{
    match state.row_file(agent, row) {
        Some(place) => copy_place(alloc, &place.0, &place.1),
        None => unreachable!(),
    }
}

// Room for so many runs.
fn room_for(alloc: Global, count: u64) -> Result<Vec<Extent>, AllocError>
    ensures empty { IfOk result (λ runs. runs.items ≡ []) }
    ensures room { IfOk result (λ runs. count ≤ vec_capacity runs) }
{
    let mut runs = Vec::new(alloc);
    runs.reserve(count as usize)?;
    Ok(runs)
}

/// Plans what a call stores of a row. It has all memory and all reads, and the blocks where enough are free. Nothing is written.
pub fn plan_content<D: Disk>(
    parts: &mut DeskParts<D>,
    agent: u32,
    row: u32,
    work: &Work,
) -> Result<Plan, DataRefusal>
    requires may { MayPlanContent D.Disk parts.old agent row work.now }
    ensures left { LeavesContentPlanned D.Disk parts.old parts.new agent row }
    ensures planned { IfOk result (λ plan. IsContentReady D.Disk parts.old parts.new agent row work.now plan) }
    ensures cause { IsErrOf result DataRefusal.DiskFault → Rose (D.faults parts.old.ledger.journal.disk) (D.faults parts.new.ledger.journal.disk) }
{
    let alloc = parts.ledger.alloc;
    let size = work.size();
    let planning = Planning {
        alloc,
        tree: parts.ledger.books.state.tree(),
        base: parts.pages.base,
    };
    let wanted = PagePut {
        agent,
        row,
        at: 0,
        given: &[],
        size,
        whole: true,
    };
    let put = plan_put(
        &planning,
        &wanted,
        work,
        &mut parts.pages.swap,
        &mut parts.pages.space,
        &mut parts.ledger.journal,
    )?;
    let place = file_of(alloc, &parts.ledger.books.state, agent, row)?;
    let runs = room_for(alloc, put.pages)?;
    let copy = room_for(alloc, put.pages)?;
    Ok(Plan {
        put,
        place,
        runs,
        copy,
    })
}
