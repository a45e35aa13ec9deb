//! Calls that the machine refuses.

ghost use Rattle.std.specs.Prelude.{◌≡◌, [], List};
ghost use Rattle.opfs_base.specs.Texts.{Text};
ghost use Rattle.opfs_books.specs.Laws.Books.{Fixed};
ghost use Rattle.opfs_desk_steps.specs.Parts.Acted.{HasActed};
ghost use Rattle.opfs_desk_steps.specs.Parts.Held.{AreHeldWhole};
ghost use Rattle.opfs_desk_entries.specs.Answers.Refused.{MayActRefused, IsRefusedCall};
ghost use Rattle.opfs_records.specs.Replay.Built.{Built};
ghost use Rattle.opfs_work.specs.Works.{WorkingCopy};

use opfs_books::{EntryWithRoom, state_laws, the_books_show_their_images};
use opfs_desk_steps::{DeskParts, calls_are_acted, refuse_call, take_in};
use opfs_hist::{Entry, Op, Pending, Refusal, Reply, Room};
use opfs_laws::histories::unread::reads_leave_the_state;
use opfs_laws::lengths::bridge::{lengths_follow_each_call, local_calls_are_known_by_their_word};
use opfs_outside::Disk;
use opfs_store::{Acted, Gift};

/// Enters a call that the machine refuses, after its agent's pending calls. Calls no disk.
pub fn act_refused<D: Disk>(
    parts: &mut DeskParts<D>,
    room: Room,
    agent: u32,
    number: u32,
    op: Op,
    refusal: Refusal,
    pending: &mut Pending,
) -> Acted
    requires may { MayActRefused D.Disk parts.old pending.old (record { agent = agent; number = number; op = op }) refusal }
    ensures taken { pending.new ≡ [] }
    ensures acted { (f : Fixed D) (recorded : Built) (work : WorkingCopy) (past : List Text) → AreHeldWhole D.Disk f recorded parts.old.ledger parts.old.pages
        → IsRefusedCall D.tells f.opening parts.old.ledger.books.history pending.old (record { agent = agent; number = number; op = op }) refusal work past
        → HasActed D.Disk f parts.old parts.new pending.old (record { agent = agent; number = number; op = op }) work work result }
{
    state_laws();
    reads_leave_the_state();
    lengths_follow_each_call();
    local_calls_are_known_by_their_word();
    calls_are_acted::<D>();
    the_books_show_their_images::<D>();
    take_in(&mut parts.ledger, agent, pending);
    let rows = parts.ledger.books.state.rows(agent) as u32;
    let last = EntryWithRoom {
        room,
        entry: Entry {
            agent,
            number,
            op,
            reply: Reply::No(refusal),
            turn: true,
        },
    };
    refuse_call(&mut parts.ledger, last);
    Acted {
        reply: Reply::No(refusal),
        gift: Gift::Nothing,
        rows,
    }
}
