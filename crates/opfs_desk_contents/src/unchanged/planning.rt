//! What is stored again of a file, found before anything is entered.

ghost use Rattle.std.specs.Prelude.{◌≡◌, true, Some, is_some, IfOk};
ghost use Rattle.opfs_base.specs.Places.{Place};
ghost use Rattle.opfs_desk_steps.specs.Parts.Seen.{machine_in, tree_in};
ghost use Rattle.opfs_state_rows.specs.Standing.Seen.{lines_of};
ghost use Rattle.opfs_state.specs.Reading.{row_file};
ghost use Rattle.opfs_tree.specs.Rows.{file_at as file_in_tree};
ghost use Rattle.opfs_tree.specs.declared.row.FileRow.{FileRow};
ghost use Rattle.opfs_state.specs.Verdicts.Callers.{IsAgent};

use opfs_base::{Extents, copy_place};
use opfs_desk_steps::Ledger;
use opfs_machine::Place;
use opfs_outside::Disk;
use opfs_state::State;
use std::alloc::{AllocError, Global};

/// A file with as many bytes as a read gives, and the runs of its own blocks.
#[derive(Drop)]
pub(crate) struct Again {
    pub place: Place,
    pub size: u64,
    pub runs: Extents,
}

// The file of an open row, in memory of its own.
fn file_of(alloc: Global, state: &State, agent: u32, row: u32) -> Result<Place, AllocError>
    requires agent { IsAgent state.now.store.machine agent }
    requires there { is_some (row_file state.now.store.machine agent row) ≡ true }
    ensures { IfOk result (λ place. row_file state.now.store.machine agent row ≡ Some place) }
{
    match state.row_file(agent, row) {
        Some(place) => copy_place(alloc, &place.0, &place.1),
        None => unreachable!(),
    }
}

// How many bytes a read of a file gives.
fn size_of(state: &State, place: &Place) -> u64
    requires there { is_some (file_in_tree place.now state.now.store.tree) ≡ true }
    ensures { (f : FileRow) → file_in_tree place.now state.now.store.tree ≡ Some f → result ≡ f.present }
{
    match state.file(&place.0, &place.1) {
        Some(file) => file.present,
        None => unreachable!(),
    }
}

// The runs of a file's blocks, in memory of their own.
fn runs_of(alloc: Global, state: &State, place: &Place) -> Result<Extents, AllocError>
    requires there { is_some (file_in_tree place.now state.now.store.tree) ≡ true }
    ensures { IfOk result (λ runs. (f : FileRow) → file_in_tree place.now state.now.store.tree ≡ Some f → runs ≡ f.extents) }
{
    match state.file(&place.0, &place.1) {
        Some(file) => file.extents.copy(alloc),
        None => unreachable!(),
    }
}

/// Finds the file of an open row, with all memory that storing it again wants.
pub(crate) fn plan_again<D: Disk>(
    ledger: &Ledger<D>,
    agent: u32,
    row: u32,
) -> Result<Again, AllocError>
    requires agent { IsAgent (machine_in ledger.now) agent }
    requires there { is_some (row_file (machine_in ledger.now) agent row) ≡ true }
    requires stands { (machine_in ledger.now).rows ≡ lines_of (tree_in ledger.now) → (place : Place) → row_file (machine_in ledger.now) agent row ≡ Some place → is_some (file_in_tree place (tree_in ledger.now)) ≡ true }
    ensures file { IfOk result (λ again. row_file (machine_in ledger.now) agent row ≡ Some again.place) }
    ensures size { IfOk result (λ again. (f : FileRow) → file_in_tree again.place (tree_in ledger.now) ≡ Some f → again.size ≡ f.present) }
    ensures runs { IfOk result (λ again. (f : FileRow) → file_in_tree again.place (tree_in ledger.now) ≡ Some f → again.runs ≡ f.extents) }
{
    let state = &ledger.books.state;
    state.know_rows_match_tree();
    let place = file_of(ledger.alloc, state, agent, row)?;
    let size = size_of(state, &place);
    let runs = runs_of(ledger.alloc, state, &place)?;
    Ok(Again { place, size, runs })
}
