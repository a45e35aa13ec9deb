//! What the calls on streams refuse, or ask for.
#![tactic(auto, unfolding(opfs_machine::specs::Machine::machine))]

ghost use Rattle.std.specs.Prelude.{◌≡◌, IfOk, if◌then◌else◌, is_some};
ghost use Rattle.opfs_base.specs.Places.{place_of};
ghost use Rattle.opfs_locks.specs.Taking.{taken};
ghost use Rattle.opfs_laws.specs.Lengths.Kept.{Kept};
ghost use Rattle.opfs_machine.specs.Contents.{in_lengths};
ghost use Rattle.opfs_machine.specs.Rows.{file_at};
ghost use Rattle.opfs_machine.specs.Rulings.{create_writable_ruling, grow_stream_ruling, stream_ruling, lock_in, first_reserve};
ghost use Rattle.opfs_machine.specs.Sums.{keeps_blocks};
ghost use Rattle.opfs_state.specs.Verdicts.Callers.{IsAgent};

use crate::verdicts::agents::open_stream;
use crate::verdicts::locks::{is_given, lock_at};
use crate::verdicts::rulings::{NO_NEED, is_located};
use opfs_base::{Kind, Locator, blocks, times};
use opfs_hist::Refusal;
use opfs_locks::Want;
use opfs_machine::{Need, Ruled};
use opfs_state_rows::Standing;
use std::alloc::AllocError;

/// The need of keeping so many blocks more.
fn keeps_blocks(more: u64) -> Result<Need, AllocError>
    ensures { IfOk result (λ need. need ≡ keeps_blocks more) }
{
    let charge = times(8, more)?;
    Ok(Need {
        quota: more,
        pool: more,
        charge,
    })
}

/// The blocks that a new stream keeps.
fn first_reserve(standing: &Standing, at: &Locator, keep: bool) -> u64
    ensures { result ≡ first_reserve in_lengths standing.now.machine at.now keep }
{
    match standing.size(&at.key, &at.path) {
        Some(size) if keep => blocks(size),
        _ => 0,
    }
}

/// createWritable.
pub fn create_writable_ruling(standing: &Standing, at: &Locator, keep: bool) -> Ruled<Need>
    requires { Kept standing.now.machine }
    ensures { IfOk result (λ ruled. ruled ≡ create_writable_ruling in_lengths standing.now.machine at.now keep) }
{
    if !is_located(standing, Kind::File, at) {
        return Ok(Err(Refusal::NotFoundError));
    }
    let lock = lock_at(standing, &at.key, &at.path);
    if !is_given(Want::Shared, lock) {
        return Ok(Err(Refusal::NoModificationAllowedError(lock.0, lock.1)));
    }
    Ok(Ok(keeps_blocks(first_reserve(standing, at, keep))?))
}

/// write and truncate of a stream, to a length.
pub fn grow_stream_ruling(standing: &Standing, agent: u32, row: u32, size: u64) -> Ruled<Need>
    requires { IsAgent standing.now.machine agent }
    ensures { IfOk result (λ ruled. ruled ≡ grow_stream_ruling in_lengths standing.now.machine agent row size) }
{
    let Some(stream) = open_stream(standing, agent, row) else {
        return Ok(Err(Refusal::TypeError));
    };
    Ok(Ok(keeps_blocks(stream.reserve.max(blocks(size)) - stream.reserve)?))
}

/// A call on an open stream that asks for nothing.
pub fn stream_ruling(standing: &Standing, agent: u32, row: u32) -> Result<Need, Refusal>
    requires { IsAgent standing.now.machine agent }
    ensures { result ≡ stream_ruling in_lengths standing.now.machine agent row }
{
    if open_stream(standing, agent, row).is_none() {
        return Err(Refusal::TypeError);
    }
    Ok(NO_NEED)
}
