//! A row's pages are put, and its content is stored with the call.

ghost use Rattle.std.specs.Prelude.{◌≡◌, ◌+◌, ◌<◌, ◌≤◌, ◌^◌, ℕ, [], true, Some, length, IfOk, OnErr};
ghost use Rattle.std.specs.Vec.{vec_capacity};
ghost use Rattle.opfs_base.specs.Texts.{Text};
ghost use Rattle.opfs_books.specs.Laws.Books.{Fixed};
ghost use Rattle.opfs_books.specs.Stored.Laws.{CallsAreSpelled, CallsMayFail};
ghost use Rattle.opfs_books.specs.Laws.Commits.{StateLaws};
ghost use Rattle.opfs_books.specs.Laws.Laws.{BooksKeepTheState, FaultsAreCounted};
ghost use Rattle.opfs_data.specs.Rows.{pages_at, page_at};
ghost use Rattle.opfs_desk_contents.specs.Storing.{AreRunsOf, StoresContent, MayStorePages, HasStoredPages};
ghost use Rattle.opfs_desk_contents.specs.Words.{is_storing};
ghost use Rattle.opfs_desk_steps.specs.Parts.Acted.{HasFailed};
ghost use Rattle.opfs_desk_steps.specs.Parts.Held.{AreHeldWhole};
ghost use Rattle.opfs_desk_steps.specs.RowLaws.Inside.{PartsLieInside};
ghost use Rattle.opfs_hist.specs.declared.reply.Reply.TheVariants as reply;
ghost use Rattle.opfs_records.specs.Replay.Built.{Built};

use crate::planning::Plan;
use crate::putting::put_content;
use crate::storing::{copy_runs, enter_content};
use opfs_base::{Extent, Extents};
use opfs_books::{
    EntryWithRoom, a_fault_is_counted, calls_are_spelled, calls_may_fail, state_laws,
    the_state_is_kept,
};
use opfs_data::Swap;
use opfs_desk_steps::{DeskParts, fail_call, parts_lie_inside};
use opfs_journal::DiskFault;
use opfs_machine::Sizes;
use opfs_outside::Disk;
use opfs_pages::collect_blocks;
use opfs_work::Work;

// What is known of the steps of such a call.
fn storing_laws<D: Disk>()
    ensures states { StateLaws }
    ensures kept { BooksKeepTheState D.Disk }
    ensures counted { FaultsAreCounted D.Disk }
    ensures spelled { CallsAreSpelled }
    ensures fails { CallsMayFail D.tells }
    ensures inside { PartsLieInside D.Disk }
{
    state_laws();
    the_state_is_kept::<D>();
    a_fault_is_counted::<D>();
    calls_are_spelled();
    calls_may_fail::<D>();
    parts_lie_inside::<D>();
}

// The runs of blocks of a row's pages, twice. Takes no memory.
fn collect(
    swap: &Swap,
    agent: u32,
    row: u32,
    pages: u64,
    runs: &mut Vec<Extent>,
    copy: &mut Vec<Extent>,
)
    requires empty { runs.old.items ≡ [] }
    requires none { copy.old.items ≡ [] }
    requires room { pages ≤ vec_capacity runs.old }
    requires space { pages ≤ vec_capacity copy.old }
    requires there { pages ≤ length (pages_at agent row swap.now) }
    requires small { (i b : ℕ) → (page_at agent row i swap.now).block ≡ Some b → b + 1 < 2 ^ 32 }
    ensures runs { AreRunsOf swap.now agent row pages runs.new.items }
    ensures same { copy.new.items ≡ runs.new.items }
{
    collect_blocks(swap, agent, row, pages, runs);
    copy_runs(runs, copy);
}

/// Puts a row's pages, and stores its content with the call's entry; gives the runs of its blocks. Where the disk fails, the call is
/// entered so, and the row's bytes stay.
pub fn store_pages<D: Disk>(
    parts: &mut DeskParts<D>,
    last: EntryWithRoom,
    sizes: Sizes,
    plan: Plan,
    agent: u32,
    row: u32,
    work: &Work,
) -> Result<Extents, DiskFault>
    requires may { MayStorePages D.Disk parts.old last.entry sizes agent row plan.put plan.place work.now }
    requires word { is_storing last.entry.op ≡ true }
    requires done { last.entry.reply ≡ reply.Done }
    requires empty { plan.runs.items ≡ [] }
    requires none { plan.copy.items ≡ [] }
    requires room { plan.put.pages ≤ vec_capacity plan.runs }
    requires space { plan.put.pages ≤ vec_capacity plan.copy }
    ensures base { parts.new.pages.base ≡ parts.old.pages.base }
    ensures stored { IfOk result (λ runs. (f : Fixed D) (recorded : Built) (bytes : Text) → AreHeldWhole D.Disk f recorded parts.old.ledger parts.old.pages
        → StoresContent D.Disk f parts.old.ledger parts.old.pages last.entry sizes agent row plan.put plan.place work.now bytes
        → HasStoredPages D.Disk f parts.old parts.new last.entry sizes agent row plan.put.pages plan.place runs bytes) }
    ensures failed { OnErr result ((f : Fixed D) (recorded : Built) (bytes : Text) → AreHeldWhole D.Disk f recorded parts.old.ledger parts.old.pages
        → StoresContent D.Disk f parts.old.ledger parts.old.pages last.entry sizes agent row plan.put plan.place work.now bytes
        → HasFailed D.Disk f last.entry parts.old.ledger parts.new.ledger parts.new.pages) }
{
    storing_laws::<D>();
    parts.ledger.books.state.know_rows_match_tree();
    parts.ledger.books.state.know_order();
    let Plan {
        put,
        place,
        runs,
        copy,
    } = plan;
    let mut put = put;
    let mut runs = runs;
    let mut copy = copy;
    let pages = put.pages;
    let size = work.size();
    match put_content(parts, &mut put, agent, row) {
        Ok(()) => {
            collect(&parts.pages.swap, agent, row, pages, &mut runs, &mut copy);
            let runs = Extents::from_vec(runs);
            let extents = Some(Extents::from_vec(copy));
            match enter_content(&mut parts.ledger, last, sizes, &place, size, &runs, extents) {
                Ok(()) => Ok(runs),
                Err(fault) => Err(fault),
            }
        }
        Err(fault) => {
            fail_call(&mut parts.ledger, last);
            Err(fault)
        }
    }
}
