//! Whether an agent may make a call now.
#![tactic(auto, unfolding(opfs_machine::specs::Machine::machine))]

ghost use Rattle.std.specs.Prelude.{◌≡◌, ◌&&◌, false, IsTrue};
ghost use Rattle.std.specs.Option.{option_copied};
ghost use Rattle.std.specs.List.{list_all, enumerate_from};
ghost use Rattle.opfs_script_run.specs.Runs.Running.{is_wait};
ghost use Rattle.opfs_machine.specs.Agents.{agent_of, is_no_help, is_posted, is_unposted, others_stuck, party_of, party_with, same_party};
ghost use Rattle.opfs_machine.specs.Histories.{may_enter};
ghost use Rattle.opfs_rulings.specs.Known.{IsAgent};

use opfs_base::Key;
use opfs_hist::Op;
use opfs_machine::{Agent, Own, Party};
use opfs_rulings::{Board, agent, may_enter};

/// Whether a party is that of an agent.
fn is_party(key: Option<&Key>, number: usize, party: &Party) -> bool
    ensures { result ≡ same_party (party_with (option_copied key.entry) number) party.now }
{
    match (key, party) {
        (Some(key), Party::Origin(origin)) => *key == *origin,
        (None, Party::Alone(alone)) => number == *alone as usize,
        _ => false,
    }
}

/// Whether two agents share their tags.
fn share_tags(key: Option<&Key>, number: usize, other_key: Option<&Key>, other: usize) -> bool
    ensures { result ≡ same_party (party_with (option_copied key.entry) number) (party_with (option_copied other_key.entry) other) }
{
    match (key, other_key) {
        (Some(key), Some(origin)) => *key == *origin,
        (None, None) => number == other,
        _ => false,
    }
}

/// Whether a tag was posted among those that an agent shares.
fn is_posted(state: &Board, key: Option<&Key>, number: usize, tag: &[u8]) -> bool
    ensures { result ≡ is_posted state.now (party_with (option_copied key.entry) number) tag.now }
{
    state.held().posted.items.iter().any(|posted| is_party(key, number, &posted.party)
        && tag == posted.tag.as_slice())
}

/// Whether another agent can't post a tag of the caller's: it is the caller, has ended, is of another party, or is stuck.
fn is_no_help(
    state: &Board,
    key: Option<&Key>,
    number: usize,
    other_number: usize,
    other: &Agent<Own>,
) -> bool
    ensures { result ≡ is_no_help state.now number (party_with (option_copied key.entry) number) (other_number, other.now) }
{
    if other_number == number || !other.live {
        return true;
    }
    if !share_tags(key, number, other.key.as_ref(), other_number) {
        return true;
    }
    match &other.waits {
        None => false,
        Some(tag) => !is_posted(state, key, number, tag.as_slice()),
    }
}

/// Whether every other live agent of the caller's party is stuck.
fn others_stuck(state: &Board, key: Option<&Key>, number: usize) -> bool
    ensures { result ≡ list_all (is_no_help state.now number (party_with (option_copied key.entry) number)) (enumerate_from 1 state.now.agents) }
{
    let agents = state.held().agents.items.as_slice();
    for index in 0..agents.len() {
        if !is_no_help(state, key, number, index + 1, &agents[index]) {
            return false;
        }
    }
    true
}

/// Whether there is an agent of a number, it is live, and may make a call, which is no wait.
pub fn stands(state: &Board, number: u32, op: &Op) -> bool
    requires moves { is_wait op.now ≡ false }
    ensures exact { result ≡ ((agent_of state.now number).live && may_enter state.now number op.now) }
    ensures agent { IsTrue result → IsAgent state.now number }
{
    if number == 0 || number as usize > state.held().agents.items.len() {
        return false;
    }
    let caller = agent(state, number);
    if !caller.live {
        return false;
    }
    match op {
        Op::Await { tag } => {
            let key = caller.key.as_ref();
            is_posted(state, key, number as usize, tag.as_bytes())
                || others_stuck(state, key, number as usize)
        }
        _ => may_enter(state, number, op),
    }
}
