//! A large run from a number.

ghost use Rattle.std.specs.Prelude.{◌≡◌, IfOk};
ghost use Rattle.opfs_gen.specs.Making.{IsGenRange};
ghost use Rattle.opfs_gen.specs.Summing.{gen_text};

use crate::trial::try_script;
use opfs_base::Bytes;
use opfs_gen::{are_own, make_script, summaries_are_of_own_runs, summary};
use opfs_outside::Gate;
use std::alloc::AllocError;
use std::sync::Wait;
use std::thread::Threads;

/// Runs the script of so many agents and rounds that a number makes, each agent on a thread of its own, and gives a line an agent with
/// the digest of its transcript. It is a function of the three numbers. A run that met what all agents share (a full pool or area, an
/// eviction) is answered as want of memory is.
pub fn generate<R: AllocGlobal + Threads + Wait + Sync, G: Gate>(
    rt: &R,
    seed: u64,
    agents: u32,
    rounds: u32,
    gate: &G,
) -> Result<Bytes, AllocError>
    requires { IsGenRange seed agents rounds }
    ensures { IfOk result (λ text. text ≡ gen_text seed agents rounds) }
{
    summaries_are_of_own_runs();
    let alloc = rt.alloc();
    let script = make_script(alloc, seed, agents, rounds)?;
    let history = try_script(rt, &script, gate)?;
    if !are_own(&history) {
        return Err(AllocError);
    }
    let mut text = Vec::new(alloc);
    summary(alloc, &history, agents, &mut text)?;
    Ok(Bytes::from_vec(text))
}
