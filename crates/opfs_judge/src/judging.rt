//! The judge of finished transcripts.

ghost use Rattle.std.specs.Prelude.{◌≡◌, ◌≤◌, All, length, map, IfOk, IsTrue, OnOk};
ghost use Rattle.opfs_machine.specs.Openings.{begun};
ghost use Rattle.opfs_script.specs.Limits.{is_origin_key};
ghost use Rattle.opfs_script_run.specs.Stage.Openings.{trial_opening};
ghost use Rattle.opfs_judge.specs.Agents.{AreFronts};
ghost use Rattle.opfs_judge.specs.Judging.{IsRead};
ghost use Rattle.opfs_judge.specs.Players.{starting};
ghost use Rattle.opfs_judge.specs.Verdicts.{IsJudged, verdict_of};

use crate::agents::{all_gone, fronts, players_of};
use crate::player::Player;
use crate::settling::is_unsettled;
use crate::trial::opening::begin;
use crate::turn::turn;
use crate::verdict::Verdict;
use opfs_base::Bytes;
use opfs_plain::Plain;
use opfs_rulings::Board;
use opfs_script::Script;
use std::alloc::{AllocError, Global};

/// Reads a text group after group, and tells whether it has an end at which all agents have ended.
fn read_groups(
    alloc: Global,
    state: &mut Board,
    players: &mut Vec<Player<'_>>,
    fronts: &[Bytes],
    text: &[u8],
) -> Result<bool, AllocError>
    requires few { length players.old.items ≤ 64 }
    requires fronts { AreFronts (length players.old.items) fronts.now }
    ensures { IfOk result (λ found. IsRead state.old players.old.items text.now found) }
{
    let mut at = 0;
    while at < text.len() {
        let Some(used) = turn(alloc, state, players, fronts, &text[at..])? else {
            return Ok(false);
        };
        at += used;
    }
    Ok(all_gone(players.as_slice()))
}

/// The machine over an empty store, with the agents of a script.
pub(crate) fn state_of(alloc: Global, script: &Script) -> Result<Board, AllocError>
    ensures state { IfOk result (λ state. state ≡ begun (trial_opening script.now)) }
    ensures keys { OnOk result (All (λ a. IsTrue (is_origin_key a.key)) script.now) }
{
    let Plain { state, entries } = begin(alloc, script)?;
    drop(entries);
    Ok(state)
}

/// Whether a transcript is the text of entries in which nobody begins to wait, from a state and these agents on.
pub(crate) fn is_told_by(
    alloc: Global,
    state: &mut Board,
    players: &mut Vec<Player<'_>>,
    transcript: &[u8],
) -> Result<bool, AllocError>
    requires few { length players.old.items ≤ 64 }
    ensures { IfOk result (λ found. IsRead state.old players.old.items transcript.now found) }
{
    let fronts = fronts(alloc, players.len())?;
    let found = read_groups(alloc, state, players, fronts.as_slice(), transcript)?;
    Ok(found)
}

/// Whether a transcript is the text of entries in which nobody begins to wait.
fn is_told(alloc: Global, script: &Script, transcript: &[u8]) -> Result<bool, AllocError>
    ensures read { IfOk result (λ found. IsRead (begun (trial_opening script.now)) (map starting script.now) transcript.now found) }
    ensures keys { OnOk result (All (λ a. IsTrue (is_origin_key a.key)) script.now) }
    ensures few { length script.now ≤ 64 }
{
    let agents = script.agents();
    let mut state = state_of(alloc, script)?;
    let mut players = players_of(alloc, agents)?;
    let found = is_told_by(alloc, &mut state, &mut players, transcript)?;
    Ok(found)
}

/// What is said of a transcript where nothing is left open.
pub(crate) fn verdict_of(found: bool) -> Verdict
    ensures { result ≡ verdict_of found }
{
    if found { Verdict::Yes } else { Verdict::No }
}

/// Judges a transcript: whether it is the text of a legal history over an empty store, in which the entries of each agent
/// are its script's run. It is unsettled exactly where the script has an await, and the transcript a line of an eviction or
/// of an agent that was stuck. A disk may have failed any call that needs it.
pub fn judge(alloc: Global, script: &Script, transcript: &[u8]) -> Result<Verdict, AllocError>
    ensures { IfOk result (λ verdict. IsJudged script.now transcript.now verdict) }
{
    if is_unsettled(script, transcript) {
        return Ok(Verdict::Unsettled);
    }
    let found = is_told(alloc, script, transcript)?;
    Ok(verdict_of(found))
}
