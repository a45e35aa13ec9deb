//! The pages of a row on their way to the disk: the doubt is ended, they get their blocks, and are written.

ghost use Rattle.std.specs.Prelude.{◌≡◌, ◌≤◌, ℕ, [], false, OnOk, OnErr};
ghost use Rattle.std.specs.Vec.{vec_capacity};
ghost use Rattle.opfs_base.specs.Texts.{Text};
ghost use Rattle.opfs_books.specs.Laws.Books.{Fixed};
ghost use Rattle.opfs_books.specs.Laws.Laws.{LeavesPages};
ghost use Rattle.opfs_desk_contents.specs.Putting.{MayPut, MayWrite, HasContent, IsRowToPut};
ghost use Rattle.opfs_desk_steps.specs.Parts.Acted.{AreCleared};
ghost use Rattle.opfs_desk_steps.specs.Parts.Held.{AreHeldWhole};
ghost use Rattle.opfs_desk_steps.specs.declared.parts.parts.OpenPages.{OpenPages};
ghost use Rattle.opfs_outside.specs.Faults.{Rose};
ghost use Rattle.opfs_records.specs.Replay.Built.{Built};
ghost use Rattle.opfs_pages.specs.RowCalls.Plans.{HaveBlocks};
ghost use Rattle.opfs_work.specs.Works.{WorkingCopy};

use opfs_books::{pages_beside_leave_the_books, the_books_show_their_images, the_state_is_kept};
use opfs_desk_steps::{DeskParts, Ledger, commit_kept, parts_lie_inside, puts_have_room};
use opfs_journal::DiskFault;
use opfs_outside::Disk;
use opfs_pages::{
    Put, blocks_go_on, find_blocks, pages_go_on_telling, pages_that_were_put_tell_the_row,
    what_is_laid_goes_on,
};

// Ends the doubt. Without doubt it calls no disk.
fn settle_doubt<D: Disk>(ledger: &mut Ledger<D>) -> Result<(), DiskFault>
    ensures entries { ledger.new.books.history ≡ ledger.old.books.history }
    ensures state { ledger.new.books.state ≡ ledger.old.books.state }
    ensures sure { OnOk result (ledger.new.journal.in_doubt ≡ false) }
    ensures leaves { LeavesPages D.Disk ledger.old.journal ledger.new.journal }
    ensures held { (f : Fixed D) (recorded : Built) (p : OpenPages) → AreHeldWhole D.Disk f recorded ledger.old p → AreHeldWhole D.Disk f recorded ledger.new p }
    ensures cleared { (f : Fixed D) (recorded : Built) (p : OpenPages) → AreHeldWhole D.Disk f recorded ledger.old p → AreCleared D.Disk f [] ledger.old ledger.new p }
    ensures cause { OnErr result (Rose (D.faults ledger.old.journal.disk) (D.faults ledger.new.journal.disk)) }
{
    what_is_laid_goes_on::<D>();
    match ledger.books.settle(&mut ledger.journal) {
        Ok(()) => Ok(()),
        Err(fault) => Err(fault),
    }
}

// Finds blocks for pages that wait for them: what is kept back is committed, and a sweep finds what is free.
fn find_room<D: Disk>(
    parts: &mut DeskParts<D>,
    put: &mut Put,
    agent: u32,
    row: u32,
) -> Result<(), DiskFault>
    requires may { MayPut D.Disk parts.old agent row put.old }
    requires settled { parts.old.ledger.journal.in_doubt ≡ false }
    ensures swap { parts.new.pages.swap ≡ parts.old.pages.swap }
    ensures base { parts.new.pages.base ≡ parts.old.pages.base }
    ensures entries { parts.new.ledger.books.history ≡ parts.old.ledger.books.history }
    ensures state { parts.new.ledger.books.state ≡ parts.old.ledger.books.state }
    ensures writes { put.new.writes ≡ put.old.writes }
    ensures moves { put.new.moves ≡ put.old.moves }
    ensures count { put.new.pages ≡ put.old.pages }
    ensures capacity { vec_capacity put.old.extents ≤ vec_capacity put.new.extents }
    ensures sure { OnOk result (parts.new.ledger.journal.in_doubt ≡ false) }
    ensures leaves { LeavesPages D.Disk parts.old.ledger.journal parts.new.ledger.journal }
    ensures blocks { OnOk result (HaveBlocks parts.new.pages.base (D.size parts.new.ledger.journal.disk) parts.new.pages.swap parts.new.pages.space agent row put.new.pages put.new.writes [] put.new.extents.items) }
    ensures cleared { (f : Fixed D) (recorded : Built) → AreHeldWhole D.Disk f recorded parts.old.ledger parts.old.pages → AreCleared D.Disk f [] parts.old.ledger parts.new.ledger parts.new.pages }
    ensures cause { OnErr result (Rose (D.faults parts.old.ledger.journal.disk) (D.faults parts.new.ledger.journal.disk)) }
{
    parts_lie_inside::<D>();
    puts_have_room();
    the_state_is_kept::<D>();
    the_books_show_their_images::<D>();
    if put.taken {
        return Ok(());
    }
    parts.ledger.books.state.know_rows_match_tree();
    match commit_kept(&mut parts.ledger) {
        Ok(()) => {
            find_blocks(
                put,
                &mut parts.pages.space,
                parts.ledger.books.state.tree(),
                &parts.pages.swap,
                agent,
                row,
            );
            Ok(())
        }
        Err(fault) => Err(fault),
    }
}

// Writes the pages into their blocks.
fn write_pages<D: Disk>(
    parts: &mut DeskParts<D>,
    put: &mut Put,
    agent: u32,
    row: u32,
) -> Result<(), DiskFault>
    requires may { MayWrite D.Disk parts.old agent row put.old }
    ensures base { parts.new.pages.base ≡ parts.old.pages.base }
    ensures entries { parts.new.ledger.books.history ≡ parts.old.ledger.books.history }
    ensures state { parts.new.ledger.books.state ≡ parts.old.ledger.books.state }
    ensures sure { parts.new.ledger.journal.in_doubt ≡ false }
    ensures cleared { (f : Fixed D) (recorded : Built) (work : WorkingCopy) (bytes : Text) → AreHeldWhole D.Disk f recorded parts.old.ledger parts.old.pages → IsRowToPut D.Disk f parts.old.ledger parts.old.pages agent row put.old work bytes
        → AreCleared D.Disk f [] parts.old.ledger parts.new.ledger parts.new.pages }
    ensures content { OnOk result ((f : Fixed D) (work : WorkingCopy) (bytes : Text) → IsRowToPut D.Disk f parts.old.ledger parts.old.pages agent row put.old work bytes
        → HasContent D.tells parts.new.pages.base (D.content parts.new.ledger.journal.disk) parts.new.pages.swap agent row put.old.pages bytes) }
    ensures cause { OnErr result (Rose (D.faults parts.old.ledger.journal.disk) (D.faults parts.new.ledger.journal.disk)) }
{
    parts_lie_inside::<D>();
    pages_beside_leave_the_books::<D>();
    pages_go_on_telling();
    pages_that_were_put_tell_the_row();
    blocks_go_on();
    what_is_laid_goes_on::<D>();
    match put.write(
        &mut parts.pages.swap,
        &mut parts.ledger.journal,
        parts.pages.base,
        agent,
        row,
        &[],
    ) {
        Ok(()) => Ok(()),
        Err(fault) => Err(fault),
    }
}

/// Puts a row's pages as its content: the doubt is ended, what is kept back is committed where blocks are short, and the pages are
/// written. The row's bytes stay. Takes no memory.
pub(crate) fn put_content<D: Disk>(
    parts: &mut DeskParts<D>,
    put: &mut Put,
    agent: u32,
    row: u32,
) -> Result<(), DiskFault>
    requires may { MayPut D.Disk parts.old agent row put.old }
    ensures base { parts.new.pages.base ≡ parts.old.pages.base }
    ensures entries { parts.new.ledger.books.history ≡ parts.old.ledger.books.history }
    ensures state { parts.new.ledger.books.state ≡ parts.old.ledger.books.state }
    ensures sure { OnOk result (parts.new.ledger.journal.in_doubt ≡ false) }
    ensures cleared { (f : Fixed D) (recorded : Built) (work : WorkingCopy) (bytes : Text) → AreHeldWhole D.Disk f recorded parts.old.ledger parts.old.pages → IsRowToPut D.Disk f parts.old.ledger parts.old.pages agent row put.old work bytes
        → AreCleared D.Disk f [] parts.old.ledger parts.new.ledger parts.new.pages }
    ensures content { OnOk result ((f : Fixed D) (recorded : Built) (work : WorkingCopy) (bytes : Text) → AreHeldWhole D.Disk f recorded parts.old.ledger parts.old.pages → IsRowToPut D.Disk f parts.old.ledger parts.old.pages agent row put.old work bytes
        → HasContent D.tells parts.new.pages.base (D.content parts.new.ledger.journal.disk) parts.new.pages.swap agent row put.old.pages bytes) }
    ensures cause { OnErr result (Rose (D.faults parts.old.ledger.journal.disk) (D.faults parts.new.ledger.journal.disk)) }
{
    parts_lie_inside::<D>();
    match settle_doubt(&mut parts.ledger) {
        Ok(()) => match find_room(parts, put, agent, row) {
            Ok(()) => match write_pages(parts, put, agent, row) {
                Ok(()) => Ok(()),
                Err(fault) => Err(fault),
            },
            Err(fault) => Err(fault),
        },
        Err(fault) => Err(fault),
    }
}
