//! One group of a transcript: evictions, and then a call of an agent.

ghost use Rattle.std.specs.Prelude.{◌≡◌, ◌+◌, ◌<◌, ◌≤◌, ◌∷◌, ◌++◌, [], true, false, map, length, None, Some, IfOk, IfSome, OnOk, is_some, slice_set, IsTrue};
ghost use Rattle.opfs_hist.specs.declared.reply.Reply.{Reply};
ghost use Rattle.opfs_machine.specs.Agents.{agent_of};
ghost use Rattle.opfs_machine.specs.Histories.{may_enter};
ghost use Rattle.opfs_machine.specs.Runs.{eviction};
ghost use Rattle.opfs_print.specs.Lines.{line_of, text_of};
ghost use Rattle.opfs_rulings.specs.Known.{IsAgent};
ghost use Rattle.opfs_script_run.specs.Runs.Running.{is_wait};
ghost use Rattle.opfs_transcripts.specs.Told.Reading.{begins};
ghost use Rattle.opfs_transcripts.specs.Told.Goings.{asked, going_on};
ghost use Rattle.opfs_transcripts.specs.Told.Turns.{HasTurn};
ghost use Rattle.opfs_judge.specs.Agents.{AreFronts};
ghost use Rattle.opfs_judge.specs.Players.{going_at, goings_of};
ghost use Rattle.opfs_judge.specs.Turns.{IsEnteredAs, IsGroup, IsToldCall, IsToldGroup, IsTurn, call_asked, entry_with};

use crate::asking::{Asking, find_asking};
use crate::player::Player;
use opfs_base::Bytes;
use opfs_hist::{Entry, Op, Refusal, Reply};
use opfs_plain::{enter, fault};
use opfs_print::line;
use opfs_rulings::Board;
use std::alloc::{AllocError, Global};

/// The lines of entries.
fn text_of(alloc: Global, entries: &[Entry]) -> Result<Vec<u8>, AllocError>
    ensures { IfOk result (λ text. text.items ≡ text_of entries.now) }
{
    let mut text = Vec::new(alloc);
    for entry in entries {
        line(alloc, entry, &mut text)?;
    }
    Ok(text)
}

/// Whether a text begins with another.
fn starts(text: &[u8], front: &[u8]) -> bool
    ensures { result ≡ begins front.now text.now }
{
    text.starts_with(front)
}

/// Whether a text begins with the line of an entry.
fn begins_with(alloc: Global, text: &[u8], entry: &Entry) -> Result<bool, AllocError>
    ensures { IfOk result (λ told. told ≡ begins (line_of entry.now) text.now) }
{
    let mut told = Vec::new(alloc);
    line(alloc, entry, &mut told)?;
    Ok(starts(text, told.as_slice()))
}

/// Who makes a call: the number of its agent, and that of its entry.
#[derive(Clone, Copy)]
struct Caller {
    agent: u32,
    number: u32,
}

/// Enters a call as a text tells it, behind so many evictions: where its line says that the disk failed, with that
/// answer, if it may stand; else with the machine's own, whatever the line says.
fn enter_told(
    alloc: Global,
    state: &mut Board,
    entries: &mut Vec<Entry>,
    caller: Caller,
    op: Op,
    evictions: usize,
    text: &[u8],
) -> Result<bool, AllocError>
    requires agent { IsAgent state.old caller.agent }
    requires live { IsTrue (agent_of state.old caller.agent).live }
    requires fitting { IsTrue (may_enter state.old caller.agent op) }
    requires moves { is_wait op ≡ false }
    requires first { entries.old.items ≡ [] }
    ensures entered { IfOk result (λ stands. stands ≡ true → IsEnteredAs state.old state.new (record { agent = caller.agent; number = caller.number; op = op }) entries.new.items) }
    ensures told { IfOk result (λ stands. (told : IsToldCall state.old (record { agent = caller.agent; number = caller.number; op = op }) evictions text.now) → (stands ≡ true) × (entries.new.items ≡ map eviction told.gone ++ entry_with (record { agent = caller.agent; number = caller.number; op = op }) told.answered ∷ [])) }
{
    let Caller { agent, number } = caller;
    let entry = Entry {
        agent,
        number,
        op,
        reply: Reply::No(Refusal::DiskFault),
        turn: true,
    };
    let fails = begins_with(alloc, text, &entry)?;
    let Entry { op, .. } = entry;
    if fails {
        return fault(alloc, state, entries, agent, number, op, evictions);
    }
    enter(alloc, state, entries, agent, number, op)?;
    Ok(true)
}

/// An agent's run goes on behind its entry.
fn move_on(
    alloc: Global,
    players: &mut Vec<Player<'_>>,
    index: usize,
    entry: &Entry,
) -> Result<(), AllocError>
    requires within { index < length players.old.items }
    requires asks { asked (going_at players.old.items index) ≡ Some (entry.now.number, entry.now.op) }
    ensures { OnOk result (players.new.items ≡ slice_set players.old.items index (going_on (going_at players.old.items index) entry.now.reply)) }
{
    players[index].go_on(alloc, entry)?;
    Ok(())
}

/// Enters the call that stands in front of a text, and gives how many bytes its group has; None where that is not what the
/// text begins with.
fn enter_group(
    alloc: Global,
    state: &mut Board,
    players: &mut Vec<Player<'_>>,
    asking: Asking,
    text: &[u8],
) -> Result<Option<usize>, AllocError>
    requires within { asking.index < length players.old.items }
    requires asks { asked (going_at players.old.items asking.index) ≡ Some (asking.number, asking.op) }
    requires agent { IsAgent state.old (asking.index + 1) }
    requires live { (agent_of state.old (asking.index + 1)).live ≡ true }
    requires fitting { may_enter state.old (asking.index + 1) asking.op ≡ true }
    requires moves { is_wait asking.op ≡ false }
    requires front { asking.front ≤ length text.now }
    requires few { asking.index < 64 }
    ensures entered { IfOk result (λ used. IfSome used (IsGroup state.old state.new players.old.items players.new.items (call_asked asking) asking.index text.now)) }
    ensures told { IfOk result (λ used. (told : IsToldGroup state.old (call_asked asking) asking.evictions asking.front text.now) → IsTrue (is_some used)) }
{
    let Asking {
        evictions,
        front,
        index,
        number,
        op,
    } = asking;
    let mut entries = Vec::new(alloc);
    if !enter_told(
        alloc,
        state,
        &mut entries,
        Caller {
            agent: index as u32 + 1,
            number,
        },
        op,
        evictions,
        &text[front..],
    )? {
        return Ok(None);
    }
    let group = text_of(alloc, entries.as_slice())?;
    let printed = group.as_slice();
    if !starts(text, printed) {
        return Ok(None);
    }
    let used = printed.len();
    match entries.last() {
        Some(entry) => move_on(alloc, players, index, entry)?,
        None => return Err(AllocError),
    }
    Ok(Some(used))
}

/// Reads one group of a text, and gives how many bytes it has; None where no group stands there.
pub fn turn(
    alloc: Global,
    state: &mut Board,
    players: &mut Vec<Player<'_>>,
    fronts: &[Bytes],
    text: &[u8],
) -> Result<Option<usize>, AllocError>
    requires few { length players.old.items ≤ 64 }
    requires fronts { AreFronts (length players.old.items) fronts.now }
    ensures turned { IfOk result (λ used. IfSome used (IsTurn state.old state.new players.old.items players.new.items text.now)) }
    ensures none { IfOk result (λ used. used ≡ None → HasTurn state.old (goings_of players.old.items) text.now → ⊥) }
{
    let Some(asking) = find_asking(alloc, state, players.as_slice(), fronts, text)? else {
        return Ok(None);
    };
    let used = enter_group(alloc, state, players, asking, text)?;
    Ok(used)
}
