//! What an agent's origin uses and may use.

ghost use Rattle.std.specs.Prelude.{◌≡◌, ◌≤◌, ◌*◌, [], true, is_some};
ghost use Rattle.opfs_books.specs.Laws.Books.{Fixed};
ghost use Rattle.opfs_desk_entries.specs.Buckets.Estimating.{is_estimate, usage_of};
ghost use Rattle.opfs_desk_entries.specs.KeptBack.Keeping.{HasOwnKey};
ghost use Rattle.opfs_desk_steps.specs.Parts.Acted.{HasActed};
ghost use Rattle.opfs_desk_steps.specs.Parts.Asked.{IsAsked, MayGo};
ghost use Rattle.opfs_desk_steps.specs.Parts.Held.{AreHeldWhole};
ghost use Rattle.opfs_desk_steps.specs.Parts.Seen.{call_in};
ghost use Rattle.opfs_machine.specs.Agents.{agent_of};
ghost use Rattle.opfs_machine.specs.Replies.{block_bytes};
ghost use Rattle.opfs_records.specs.Replay.Built.{Built};
ghost use Rattle.opfs_state.specs.Verdicts.Callers.{IsAgent};

use crate::answers::{tell, telling_laws};
use opfs_books::{state_laws, the_state_is_kept};
use opfs_desk_steps::{DeskParts, ReadyCall};
use opfs_hist::{Pending, Reply};
use opfs_laws::histories::unread::reads_leave_the_state;
use opfs_outside::Disk;
use opfs_state::State;
use opfs_store::{Acted, Gift};
use opfs_work::Work;

// The bytes of a block.
const BLOCK: u64 = 4096;

// The blocks that an agent's origin uses.
fn used(state: &State, agent: u32) -> u64
    requires agent { IsAgent state.now.store.machine agent }
    requires key { is_some (agent_of state.now.store.machine agent).key ≡ true }
    requires own { HasOwnKey (agent_of state.now.store.machine agent).key }
    ensures { result ≡ usage_of state.now.store.machine agent }
{
    match state.key(agent) {
        Some(origin) => state.usage(origin),
        None => unreachable!(),
    }
}

// Usage and quota of an agent's origin, in bytes.
fn estimate(state: &State, agent: u32) -> (u64, u64)
    requires agent { IsAgent state.now.store.machine agent }
    requires key { is_some (agent_of state.now.store.machine agent).key ≡ true }
    requires own { HasOwnKey (agent_of state.now.store.machine agent).key }
    requires few { usage_of state.now.store.machine agent ≤ 65536 }
    requires small { state.now.store.machine.limits.quota ≤ 65536 }
    ensures usage { result.0 ≡ block_bytes * usage_of state.now.store.machine agent }
    ensures quota { result.1 ≡ block_bytes * state.now.store.machine.limits.quota }
{
    let usage = used(state, agent);
    let quota = state.quota();
    (BLOCK * usage, BLOCK * quota)
}

/// Acts an estimate. Takes no memory, and calls no disk.
pub fn act_estimate<D: Disk>(
    parts: &mut DeskParts<D>,
    call: ReadyCall,
    pending: &mut Pending,
    work: &mut Work,
) -> Acted
    requires go { MayGo D.Disk parts.old call pending.old work.old [] }
    requires word { is_estimate call.op ≡ true }
    ensures acted { (f : Fixed D) (recorded : Built) → AreHeldWhole D.Disk f recorded parts.old.ledger parts.old.pages
        → IsAsked D.tells f.opening parts.old.ledger.books.history pending.old parts.old.ledger.books.state call work.old []
        → HasActed D.Disk f parts.old parts.new pending.old (call_in call) work.old work.new result }
    ensures taken { pending.new ≡ [] }
{
    telling_laws::<D>();
    state_laws();
    reads_leave_the_state();
    the_state_is_kept::<D>();
    let (usage, quota) = estimate(&parts.ledger.books.state, call.agent);
    let rows = tell(parts, call, pending, Reply::Estimate(usage, quota));
    Acted {
        reply: Reply::Estimate(usage, quota),
        gift: Gift::Nothing,
        rows,
    }
}
