//! Calls that ask for a bucket's mode.

ghost use Rattle.std.specs.Prelude.{◌≡◌, [], true, is_some, IfOk, OnOk, OnErr};
ghost use Rattle.opfs_store.specs.Acts.Acting.{IsSameCopy};
ghost use Rattle.opfs_base.specs.Units.{unit_of};
ghost use Rattle.opfs_books.specs.Laws.Books.{Fixed};
ghost use Rattle.opfs_desk_steps.specs.Parts.Acted.{HasActed, IsUnacted};
ghost use Rattle.opfs_desk_steps.specs.Parts.Asked.{IsAsked, MayGo};
ghost use Rattle.opfs_desk_steps.specs.Parts.Held.{AreHeldWhole};
ghost use Rattle.opfs_desk_steps.specs.Parts.Seen.{machine_in, call_in};
ghost use Rattle.opfs_desk_entries.specs.Answers.Telling.{TellsOnly, is_of_mode, mode_answer};
ghost use Rattle.opfs_machine.specs.Agents.{agent_of};
ghost use Rattle.opfs_machine.specs.Replies.{origin_in};
ghost use Rattle.opfs_machine.specs.Sums.{is_persistent};
ghost use Rattle.opfs_records.specs.Replay.Built.{Built};
ghost use Rattle.opfs_state.specs.Verdicts.Callers.{IsAgent};

use crate::answers::telling::{tell, telling_laws};
use opfs_base::{Text, unit_of};
use opfs_desk_steps::{DeskParts, ReadyCall};
use opfs_hist::{Op, Pending, Reply};
use opfs_outside::Disk;
use opfs_state::State;
use opfs_store::{Acted, Gift};
use opfs_work::Work;
use std::alloc::{AllocError, Global};

// Whether a bucket of an agent is persistent.
fn is_persistent(
    alloc: Global,
    state: &State,
    agent: u32,
    bucket: &Text,
) -> Result<bool, AllocError>
    requires agent { IsAgent state.now.store.machine agent }
    requires key { is_some (agent_of state.now.store.machine agent).key ≡ true }
    ensures { IfOk result (λ flag. flag ≡ is_persistent state.now.store.machine (unit_of (origin_in (agent_of state.now.store.machine agent).key) bucket.now)) }
{
    match state.key(agent) {
        Some(origin) => {
            let unit = unit_of(alloc, origin, bucket.as_str())?;
            Ok(state.is_persistent(&unit))
        }
        None => unreachable!(),
    }
}

// What a persist or a persisted answers.
fn mode(alloc: Global, state: &State, agent: u32, op: &Op) -> Result<bool, AllocError>
    requires agent { IsAgent state.now.store.machine agent }
    requires key { is_some (agent_of state.now.store.machine agent).key ≡ true }
    requires word { is_of_mode op.now ≡ true }
    ensures { IfOk result (λ flag. flag ≡ mode_answer state.now.store.machine agent op.now) }
{
    match op {
        Op::Persist { bucket } => {
            if state.has_grant(agent) {
                return Ok(true);
            }
            is_persistent(alloc, state, agent, bucket)
        }
        Op::Persisted { bucket } => is_persistent(alloc, state, agent, bucket),
        _ => unreachable!(),
    }
}

/// Acts a persisted, or a persist that gives no mode. Calls no disk. Where there is no memory nothing is entered.
pub fn act_persisted<D: Disk>(
    parts: &mut DeskParts<D>,
    call: ReadyCall,
    pending: &mut Pending,
    work: &mut Work,
) -> Result<Acted, AllocError>
    requires go { MayGo D.Disk parts.old call pending.old work.old [] }
    requires word { is_of_mode call.op ≡ true }
    requires only { TellsOnly (machine_in parts.old.ledger) call.agent call.op }
    ensures acted { IfOk result (λ acted. (f : Fixed D) (recorded : Built) → AreHeldWhole D.Disk f recorded parts.old.ledger parts.old.pages
        → IsAsked D.tells f.opening parts.old.ledger.books.history pending.old parts.old.ledger.books.state call work.old []
        → HasActed D.Disk f parts.old parts.new pending.old (call_in call) work.old work.new acted) }
    ensures taken { OnOk result (pending.new ≡ []) }
    ensures unacted { OnErr result ((pending.new ≡ pending.old) × IsSameCopy work.old work.new) }
    ensures idle { OnErr result ((f : Fixed D) (recorded : Built) → AreHeldWhole D.Disk f recorded parts.old.ledger parts.old.pages → IsUnacted D.Disk f parts.old parts.new) }
{
    telling_laws::<D>();
    let Ok(flag) = mode(
        parts.ledger.alloc,
        &parts.ledger.books.state,
        call.agent,
        &call.op,
    ) else {
        drop(call);
        return Err(AllocError);
    };
    let rows = tell(parts, call, pending, Reply::Flag(flag));
    Ok(Acted {
        reply: Reply::Flag(flag),
        gift: Gift::Nothing,
        rows,
    })
}
