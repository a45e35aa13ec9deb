//! Calls that are answered by that they are done, and change nothing that is stored.

ghost use Rattle.std.specs.Prelude.{◌≡◌, [], true};
ghost use Rattle.opfs_books.specs.Laws.Books.{Fixed};
ghost use Rattle.opfs_desk_steps.specs.Parts.Acted.{HasActed};
ghost use Rattle.opfs_desk_steps.specs.Parts.Asked.{IsAsked, MayGo};
ghost use Rattle.opfs_desk_steps.specs.Parts.Held.{AreHeldWhole};
ghost use Rattle.opfs_desk_steps.specs.Parts.Seen.{machine_in, call_in};
ghost use Rattle.opfs_desk_entries.specs.Answers.Telling.{TellsOnly, is_done};
ghost use Rattle.opfs_records.specs.Replay.Built.{Built};

use crate::answers::telling::tell;
use opfs_desk_steps::{DeskParts, ReadyCall};
use opfs_hist::{Pending, Reply};
use opfs_outside::Disk;
use opfs_store::{Acted, Gift};
use opfs_work::Work;

/// Acts a getDirectory, getDirectoryHandle or getFileHandle of what is there, a post, an await, a wait or an end. Takes no memory,
/// and calls no disk.
pub fn act_done<D: Disk>(
    parts: &mut DeskParts<D>,
    call: ReadyCall,
    pending: &mut Pending,
    work: &mut Work,
) -> Acted
    requires go { MayGo D.Disk parts.old call pending.old work.old [] }
    requires word { is_done call.op ≡ true }
    requires only { TellsOnly (machine_in parts.old.ledger) call.agent call.op }
    ensures acted { (f : Fixed D) (recorded : Built) → AreHeldWhole D.Disk f recorded parts.old.ledger parts.old.pages
        → IsAsked D.tells f.opening parts.old.ledger.books.history pending.old parts.old.ledger.books.state call work.old []
        → HasActed D.Disk f parts.old parts.new pending.old (call_in call) work.old work.new result }
    ensures taken { pending.new ≡ [] }
{
    let rows = tell(parts, call, pending, Reply::Done);
    Acted {
        reply: Reply::Done,
        gift: Gift::Nothing,
        rows,
    }
}
