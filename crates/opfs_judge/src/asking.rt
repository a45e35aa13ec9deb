//! Which call stands at the front of a transcript.

ghost use Rattle.std.specs.Prelude.{◌≡◌, ◌≤◌, length, None, IfOk, IfSome};
ghost use Rattle.opfs_transcripts.specs.Told.Turns.{HasTurn};
ghost use Rattle.opfs_judge.specs.Agents.{AreFronts};
ghost use Rattle.opfs_judge.specs.Asking.{IsAsking, IsAskedBy};
ghost use Rattle.opfs_judge.specs.Players.{goings_of};

use crate::agents::caller;
use crate::front::evictions;
use crate::player::Player;
use crate::standing::stands;
use opfs_base::Bytes;
use opfs_hist::Op;
use opfs_rulings::Board;
use std::alloc::{AllocError, Global};

/// A call that a transcript's front is of: how many evictions stand before it, with how many bytes, the place of its
/// agent, its number and what it asks.
#[derive(Drop)]
pub struct Asking {
    pub evictions: usize,
    pub front: usize,
    pub index: usize,
    pub number: u32,
    pub op: Op,
}

/// The call that a text's front can only be of: that of the agent whose number stands behind the evictions.
pub fn find_asking(
    alloc: Global,
    state: &Board,
    players: &[Player<'_>],
    fronts: &[Bytes],
    text: &[u8],
) -> Result<Option<Asking>, AllocError>
    requires few { length players.now ≤ 64 }
    requires fronts { AreFronts (length players.now) fronts.now }
    ensures found { IfOk result (λ found. IfSome found (IsAsking state.now players.now text.now)) }
    ensures told { IfOk result (λ found. (h : HasTurn state.now (goings_of players.now) text.now) → IsAskedBy text.now h found) }
{
    let (evictions, front) = evictions(text);
    let Some(index) = caller(fronts, &text[front..]) else {
        return Ok(None);
    };
    let Some((number, op)) = players[index].asked(alloc)? else {
        return Ok(None);
    };
    if !stands(state, index as u32 + 1, &op) {
        drop(op);
        return Ok(None);
    }
    Ok(Some(Asking {
        evictions,
        front,
        index,
        number,
        op,
    }))
}
