//! The agents of a script, as a judge follows their runs.

ghost use Rattle.std.specs.Prelude.{◌≡◌, ℕ, ◌+◌, ◌≤◌, ◌<◌, ◌^◌, true, false, [], map, length, None, IfOk, IfSome};
ghost use Rattle.std.specs.List.{list_all};
ghost use Rattle.std.proofs.Common.{get_or};
ghost use Rattle.opfs_transcripts.specs.Told.Reading.{begins};
ghost use Rattle.opfs_judge.specs.Agents.{AreFronts, front_of};
ghost use Rattle.opfs_judge.specs.Players.{is_gone, starting};

use crate::player::Player;
use opfs_base::Bytes;
use opfs_script::AgentScript;
use opfs_script_kept::PackedAgent;
use std::alloc::{AllocError, Global};

/// The agents of a script, before their first steps.
pub fn players_of<'a>(
    alloc: Global,
    scripts: &'a [AgentScript],
) -> Result<Vec<Player<'a>>, AllocError>
    ensures { IfOk result (λ players. players.items ≡ map starting scripts.now) }
{
    let mut players = Vec::new(alloc);
    for script in scripts {
        players.push(Player::make(alloc, script)?)?;
    }
    Ok(players)
}

/// The agents of a script whose steps are texts, before their first steps.
pub fn packed_players_of<'a>(
    alloc: Global,
    scripts: &'a [PackedAgent],
) -> Result<Vec<Player<'a>>, AllocError>
    ensures { IfOk result (λ players. players.items ≡ map starting scripts.now) }
{
    let mut players = Vec::new(alloc);
    for script in scripts {
        players.push(Player::make_packed(alloc, script)?)?;
    }
    Ok(players)
}

/// Whether all agents have ended.
pub fn all_gone(players: &[Player<'_>]) -> bool
    ensures { result ≡ list_all is_gone players.now }
{
    players.iter().all(|player| player.is_gone())
}

/// What the lines of the agent of a number begin with: that number, and a point.
fn front(alloc: Global, number: usize) -> Result<Bytes, AllocError>
    ensures { IfOk result (λ front. front ≡ front_of number) }
{
    let text = format!(in alloc; "{number}.")?;
    Bytes::copy_of(alloc, text.as_bytes())
}

/// What the lines of each of so many agents begin with.
pub fn fronts(alloc: Global, count: usize) -> Result<Vec<Bytes>, AllocError>
    ensures { IfOk result (λ fronts. AreFronts count fronts.items) }
{
    let mut fronts = Vec::new(alloc);
    for index in 0..count {
        fronts.push(front(alloc, index + 1)?)?;
    }
    Ok(fronts)
}

/// Whether a text begins with a front.
fn begins_with(front: &Bytes, text: &[u8]) -> bool
    ensures { result ≡ begins front.now text.now }
{
    text.starts_with(front.as_slice())
}

/// The first of these fronts that a text begins with.
pub fn caller(fronts: &[Bytes], text: &[u8]) -> Option<usize>
    ensures within { IfSome result (λ index. index < length fronts.now) }
    ensures begun { IfSome result (λ index. begins (get_or fronts.now index []) text.now ≡ true) }
    ensures none { result ≡ None → (index : ℕ) → index < length fronts.now → begins (get_or fronts.now index []) text.now ≡ false }
{
    for index in 0..fronts.len() {
        if begins_with(&fronts[index], text) {
            return Some(index);
        }
    }
    None
}
