//! What a call refuses, or asks for, and what is cleared for it.
#![tactic(auto, unfolding(opfs_machine::specs::Machine::machine))]

ghost use Rattle.std.specs.Prelude.{◌≡◌, None, IfOk};
ghost use Rattle.opfs_laws.specs.Lengths.Kept.{Kept};
ghost use Rattle.opfs_machine.specs.Contents.{in_lengths};
ghost use Rattle.opfs_machine.specs.Rulings.{ruling};
ghost use Rattle.opfs_laws.specs.Lengths.Bridge.{judged_in};
ghost use Rattle.opfs_state.specs.Verdicts.Callers.{IsAgent, IsCaller};
ghost use Rattle.opfs_state.specs.Verdicts.Judged.{KeylessAskNothing};

use crate::verdicts::agents::key;
use crate::verdicts::bucket_rulings::{
    await_ruling, estimate_ruling, persist_ruling, persisted_ruling,
};
use crate::verdicts::handle_rulings::{create_sync_ruling, grow_handle_ruling, handle_ruling};
use crate::verdicts::removals::remove_entry_ruling;
use crate::verdicts::room::room_for;
use crate::verdicts::rulings::{NO_NEED, get_directory_ruling, get_handle_ruling, located_ruling};
use crate::verdicts::stream_rulings::{create_writable_ruling, grow_stream_ruling, stream_ruling};
use opfs_base::Kind;
use opfs_hist::{Op, Refusal};
use opfs_machine::{Need, Ruled, Sizes, size_written};
use opfs_pool::Keys;
use opfs_state_rows::Standing;
use std::alloc::Global;

/// What a call of an agent refuses, or asks for.
pub fn ruling(alloc: Global, standing: &Standing, sizes: Sizes, agent: u32, op: &Op) -> Ruled<Need>
    requires agent { IsAgent standing.now.machine agent }
    requires kept { Kept standing.now.machine }
    requires ready { standing.now.prepared.place ≡ None }
    ensures { IfOk result (λ ruled. ruled ≡ ruling in_lengths standing.now.machine sizes agent op.now) }
{
    match op {
        Op::GetDirectory { bucket } => get_directory_ruling(alloc, standing, agent, bucket),
        Op::GetDirectoryHandle { dir, name, create } => get_handle_ruling(
            alloc,
            standing,
            Kind::Directory,
            dir,
            name,
            *create,
        ),
        Op::GetFileHandle { dir, name, create } => get_handle_ruling(
            alloc,
            standing,
            Kind::File,
            dir,
            name,
            *create,
        ),
        Op::RemoveEntry {
            dir,
            name,
            recursive,
        } => remove_entry_ruling(alloc, standing, dir, name, *recursive),
        Op::Next { dir, .. } => Ok(located_ruling(standing, Kind::Directory, dir)),
        Op::GetFile { file } => Ok(located_ruling(standing, Kind::File, file)),
        Op::CreateWritable { file, keep } => create_writable_ruling(standing, file, *keep),
        Op::Write {
            row,
            bytes,
            position,
        } => grow_stream_ruling(
            standing,
            agent,
            *row,
            size_written(sizes, *position, bytes)?,
        ),
        Op::Truncate { row, size } => grow_stream_ruling(standing, agent, *row, *size),
        Op::Seek { row, .. } | Op::Close { row } | Op::Abort { row } => Ok(stream_ruling(
            standing, agent, *row,
        )),
        Op::CreateSyncAccessHandle { file, mode } => Ok(create_sync_ruling(standing, file, *mode)),
        Op::SyncWrite { row, bytes, at } => grow_handle_ruling(
            standing,
            sizes,
            agent,
            *row,
            size_written(sizes, *at, bytes)?,
        ),
        Op::SyncTruncate { row, size } => grow_handle_ruling(standing, sizes, agent, *row, *size),
        Op::SyncRead { row, .. } | Op::SyncGetSize { row } | Op::SyncFlush { row } => Ok(
            handle_ruling(standing, agent, *row),
        ),
        Op::Persist { bucket } => persist_ruling(alloc, standing, agent, bucket),
        Op::Persisted { bucket } => Ok(persisted_ruling(standing, agent, bucket)),
        Op::Estimate => Ok(estimate_ruling(standing, agent)),
        Op::Await { tag } => Ok(await_ruling(standing, agent, tag)),
        Op::Unbound { .. } => Ok(Err(Refusal::Unbound)),
        _ => Ok(Ok(NO_NEED)),
    }
}

/// The refusal of a call, or the units that are cleared for it, where no place stands ready for a row.
#[tactic(auto, unfolding(opfs_machine::specs::Ruled::binding, opfs_laws::specs::Lengths::Bridge::judged_in))]
pub fn judge(alloc: Global, standing: &Standing, agent: u32, op: &Op, sizes: Sizes) -> Ruled<Keys>
    requires caller { IsCaller standing.now.machine agent }
    requires keyless { KeylessAskNothing standing.now.machine sizes agent op.now }
    requires kept { Kept standing.now.machine }
    requires ready { standing.now.prepared.place ≡ None }
    ensures { IfOk result (λ judged. judged ≡ judged_in in_lengths standing.now.machine sizes agent op.now) }
{
    match ruling(alloc, standing, sizes, agent, op)? {
        Err(refusal) => Ok(Err(refusal)),
        Ok(need) => room_for(alloc, standing, key(standing, agent), need),
    }
}
