//! Calls that put bytes into a row.

ghost use Rattle.std.specs.Prelude.{◌≡◌, ◌^◌, ◌<◌, true, [], IfOk, OnOk, OnErr};
ghost use Rattle.opfs_store.specs.Acts.Acting.{IsSameCopy};
ghost use Rattle.opfs_books.specs.Laws.Books.{Fixed};
ghost use Rattle.opfs_books.specs.Laws.Laws.{BooksShowTheirImages};
ghost use Rattle.opfs_desk_steps.specs.Parts.Acted.{HasActed, IsUnacted};
ghost use Rattle.opfs_desk_steps.specs.Parts.Asked.{IsAsked, MayGo};
ghost use Rattle.opfs_desk_steps.specs.Parts.Held.{AreHeldWhole};
ghost use Rattle.opfs_desk_steps.specs.Parts.Seen.{call_in};
ghost use Rattle.opfs_desk_bytes.specs.Writing.Words.{bytes_put};
ghost use Rattle.opfs_desk_steps.specs.RowLaws.Inside.{PartsLieInside};
ghost use Rattle.opfs_desk_steps.specs.RowLaws.Puts.{PutsHaveRoom, puts_row, size_put};
ghost use Rattle.opfs_laws.specs.Histories.Unread.{ReadsLeaveTheState};
ghost use Rattle.opfs_laws.specs.Counting.{AStateCountsItsHistory};
ghost use Rattle.opfs_laws.specs.GoingOn.{LegalHistoriesGoOn};
ghost use Rattle.opfs_laws.specs.Lengths.Bridge.{LengthsDecideEachRuling};
ghost use Rattle.opfs_records.specs.Replay.Built.{Built};
ghost use Rattle.opfs_state.specs.Laws.Room.{EvictionsMakeRoom};

use crate::reading::fail_reading;
use crate::writing::acting::enter_call;
use crate::writing::target::{bytes_held, spelled_out, target_of};
use opfs_base::Told;
use opfs_books::{reads_leave_the_books, the_books_show_their_images};
use opfs_data::DataRefusal;
use opfs_desk_steps::{DeskParts, ReadyCall, copies_are_stored, parts_lie_inside, puts_have_room};
use opfs_hist::Pending;
use opfs_laws::counted::a_state_counts_its_history;
use opfs_laws::going_on::legal_histories_go_on;
use opfs_laws::histories::unread::reads_leave_the_state;
use opfs_laws::lengths::bridge::lengths_decide_each_ruling;
use opfs_outside::Disk;
use opfs_pages::{PagePut, Planning, plan_call, what_is_laid_goes_on};
use opfs_state::laws::room::evictions_make_room;
use opfs_store::Acted;
use opfs_work::Work;
use std::alloc::AllocError;

// Acts a call with its bytes in memory.
fn put_bytes<D: Disk>(
    parts: &mut DeskParts<D>,
    call: ReadyCall,
    given: &[u8],
    pending: &mut Pending,
    work: &mut Work,
) -> Result<Acted, AllocError>
    requires go { MayGo D.Disk parts.old call pending.old work.old [] }
    requires word { puts_row call.op ≡ true }
    requires given { given.now ≡ bytes_put call.op }
    requires small { size_put call.sizes call.op < 2 ^ 63 }
    ensures acted { IfOk result (λ acted. (f : Fixed D) (recorded : Built) → AreHeldWhole D.Disk f recorded parts.old.ledger parts.old.pages
        → IsAsked D.tells f.opening parts.old.ledger.books.history pending.old parts.old.ledger.books.state call work.old []
        → HasActed D.Disk f parts.old parts.new pending.old (call_in call) work.old work.new acted) }
    ensures taken { OnOk result (pending.new ≡ []) }
    ensures unacted { OnErr result ((pending.new ≡ pending.old) × IsSameCopy work.old work.new) }
    ensures idle { OnErr result ((f : Fixed D) (recorded : Built) → AreHeldWhole D.Disk f recorded parts.old.ledger parts.old.pages → IsUnacted D.Disk f parts.old parts.new) }
{
    reads_leave_the_books::<D>();
    what_is_laid_goes_on::<D>();
    copies_are_stored::<D>();
    parts_lie_inside::<D>();
    let _pages = work.pages();
    let target = target_of(&call.op, &call.sizes);
    let planning = Planning {
        alloc: parts.ledger.alloc,
        tree: parts.ledger.books.state.tree(),
        base: parts.pages.base,
    };
    let wanted = PagePut {
        agent: call.agent,
        row: target.row,
        at: target.at,
        given,
        size: target.size,
        whole: false,
    };
    match plan_call(
        &planning,
        &wanted,
        target.beside,
        work,
        &mut parts.pages.swap,
        &mut parts.pages.space,
        &mut parts.ledger.journal,
    ) {
        Ok(planned) => Ok(enter_call(parts, call, target, planned, given, pending, work)),
        Err(DataRefusal::DiskFault) => Ok(fail_reading(parts, call, pending)),
        Err(DataRefusal::NoMemory) => {
            drop(call);
            Err(AllocError)
        }
    }
}

// A size that an asked call leaves is small.
fn size_laws<D: Disk>()
    ensures inside { PartsLieInside D.Disk }
    ensures shown { BooksShowTheirImages D.Disk }
    ensures room { PutsHaveRoom }
    ensures reads { ReadsLeaveTheState }
    ensures counts { AStateCountsItsHistory }
    ensures make { EvictionsMakeRoom }
    ensures decide { LengthsDecideEachRuling }
    ensures goes_on { LegalHistoriesGoOn }
{
    parts_lie_inside::<D>();
    the_books_show_their_images::<D>();
    puts_have_room();
    reads_leave_the_state();
    a_state_counts_its_history();
    evictions_make_room();
    lengths_decide_each_ruling();
    legal_histories_go_on();
}

/// Acts a write, a truncate, or an access handle's write or truncate: the pages of its row are put, and it is entered. All memory
/// is taken and all is read first; where there is no memory nothing is entered. Where the disk fails the call is entered so.
pub fn act_put<D: Disk>(
    parts: &mut DeskParts<D>,
    call: ReadyCall,
    pending: &mut Pending,
    work: &mut Work,
) -> Result<Acted, AllocError>
    requires go { MayGo D.Disk parts.old call pending.old work.old [] }
    requires word { puts_row call.op ≡ true }
    ensures acted { IfOk result (λ acted. (f : Fixed D) (recorded : Built) → AreHeldWhole D.Disk f recorded parts.old.ledger parts.old.pages
        → IsAsked D.tells f.opening parts.old.ledger.books.history pending.old parts.old.ledger.books.state call work.old []
        → HasActed D.Disk f parts.old parts.new pending.old (call_in call) work.old work.new acted) }
    ensures taken { OnOk result (pending.new ≡ []) }
    ensures unacted { OnErr result ((pending.new ≡ pending.old) × IsSameCopy work.old work.new) }
    ensures idle { OnErr result ((f : Fixed D) (recorded : Built) → AreHeldWhole D.Disk f recorded parts.old.ledger parts.old.pages → IsUnacted D.Disk f parts.old parts.new) }
{
    size_laws::<D>();
    let held = match bytes_held(&call.op) {
        Ok(held) => held,
        Err(error) => {
            drop(call);
            return Err(error);
        }
    };
    match held.told() {
        Told::Given(bytes) => put_bytes(parts, call, bytes, pending, work),
        Told::Fill(byte, count) => {
            let Ok(bytes) = spelled_out(parts.ledger.alloc, byte, count) else {
                drop(call);
                return Err(AllocError);
            };
            put_bytes(parts, call, bytes.as_slice(), pending, work)
        }
    }
}
