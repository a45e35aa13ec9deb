//! The judge of finished transcripts of scripts whose steps are kept as texts.

ghost use Rattle.std.specs.Prelude.{◌≡◌, ◌≤◌, All, length, map, IfOk, IsTrue, OnOk};
ghost use Rattle.opfs_machine.specs.Openings.{begun};
ghost use Rattle.opfs_script.specs.Limits.{is_origin_key};
ghost use Rattle.opfs_script_run.specs.Stage.Openings.{trial_opening};
ghost use Rattle.opfs_judge.specs.Judging.{IsRead};
ghost use Rattle.opfs_judge.specs.Players.{starting};
ghost use Rattle.opfs_judge.specs.Verdicts.{IsJudged};

use crate::agents::packed_players_of;
use crate::judging::{is_told_by, state_of, verdict_of};
use crate::settling::packed_is_unsettled;
use crate::verdict::Verdict;
use opfs_base::SharedBytes;
use opfs_rulings::Board;
use opfs_script_kept::PackedScript;
use std::alloc::{AllocError, Global};

/// The machine over an empty store, with the agents of a script. No step is read for it.
fn packed_state_of(alloc: Global, script: &PackedScript) -> Result<Board, AllocError>
    ensures state { IfOk result (λ state. state ≡ begun (trial_opening script.now)) }
    ensures keys { OnOk result (All (λ a. IsTrue (is_origin_key a.key)) script.now) }
{
    let heads = script.heads(alloc)?;
    let state = state_of(alloc, &heads)?;
    Ok(state)
}

/// Whether a transcript is the text of entries in which nobody begins to wait.
fn packed_is_told(
    alloc: Global,
    script: &PackedScript,
    transcript: &[u8],
) -> Result<bool, AllocError>
    ensures read { IfOk result (λ found. IsRead (begun (trial_opening script.now)) (map starting script.now) transcript.now found) }
    ensures keys { OnOk result (All (λ a. IsTrue (is_origin_key a.key)) script.now) }
    ensures few { length script.now ≤ 64 }
{
    let agents = script.agents();
    let mut state = packed_state_of(alloc, script)?;
    let mut players = packed_players_of(alloc, agents)?;
    let found = is_told_by(alloc, &mut state, &mut players, transcript)?;
    Ok(found)
}

/// Judges a transcript as `judge` does. Each step is read from its text when its turn comes; before that they are read only
/// where the transcript has a line of an eviction or of an agent that was stuck.
pub fn judge_packed(
    alloc: Global,
    script: &PackedScript,
    transcript: &[u8],
) -> Result<Verdict, AllocError>
    ensures { IfOk result (λ verdict. IsJudged script.now transcript.now verdict) }
{
    let unsettled = packed_is_unsettled(alloc, script, transcript)?;
    if unsettled {
        return Ok(Verdict::Unsettled);
    }
    let found = packed_is_told(alloc, script, transcript)?;
    Ok(verdict_of(found))
}
