//! What a call refuses, or asks for.
#![tactic(auto, unfolding(opfs_machine::specs::Machine::machine))]

ghost use Rattle.std.specs.Prelude.{◌≡◌, IfOk};
ghost use Rattle.opfs_machine.specs.Agents.{party_of, same_party, is_posted};
ghost use Rattle.opfs_machine.specs.Contents.{in_bytes};
ghost use Rattle.opfs_machine.specs.Rulings.{ruling, await_ruling};
ghost use Rattle.opfs_machine.specs.Steps.{judged};
ghost use Rattle.opfs_rulings.specs.Known.{IsAgent};

use crate::agents::{agent, party_of};
use crate::board::Board;
use crate::bucket_rulings::{estimate_ruling, persist_ruling, persisted_ruling};
use crate::handle_rulings::{create_sync_ruling, grow_handle_ruling, handle_ruling};
use crate::removals::remove_entry_ruling;
use crate::replies::sizes_of;
use crate::room::room_for;
use crate::rulings::{
    NO_NEED, create_writable_ruling, get_directory_ruling, get_handle_ruling, grow_stream_ruling,
    located_ruling, stream_ruling,
};
use opfs_base::{Key, Kind, Text};
use opfs_hist::{Op, Refusal};
use opfs_machine::{Many, Need, Party, Ruled, Sizes, row_named, size_written};
use std::alloc::Global;

/// Whether a tag was posted among a party's.
fn is_posted(state: &Board, party: &Party, tag: &Text) -> bool
    ensures { result ≡ is_posted state.now party.now tag.now }
{
    state.held().posted.items.iter().any(|posted| is_same_party(party, &posted.party)
        && tag.as_bytes() == posted.tag.as_slice())
}

/// Whether two parties are the same.
fn is_same_party(a: &Party, b: &Party) -> bool
    ensures { result ≡ same_party a.now b.now }
{
    match (a, b) {
        (Party::Origin(a), Party::Origin(b)) => *a == *b,
        (Party::Alone(a), Party::Alone(b)) => *a == *b,
        _ => false,
    }
}

/// await answers Stuck where its tag is not posted.
fn await_ruling(alloc: Global, state: &Board, number: u32, tag: &Text) -> Ruled<Need>
    requires { IsAgent state.now number }
    ensures { IfOk result (λ ruled. ruled ≡ await_ruling state.now number tag.now) }
{
    let party = party_of(alloc, state, number)?;
    if !is_posted(state, &party, tag) {
        return Ok(Err(Refusal::Stuck));
    }
    Ok(Ok(NO_NEED))
}

/// What a call of an agent refuses, or asks for.
pub fn ruling(alloc: Global, state: &Board, sizes: Sizes, number: u32, op: &Op) -> Ruled<Need>
    requires { IsAgent state.now number }
    ensures { IfOk result (λ ruled. ruled ≡ ruling in_bytes state.now sizes number op.now) }
{
    match op {
        Op::GetDirectory { bucket } => get_directory_ruling(alloc, state, number, bucket),
        Op::GetDirectoryHandle { dir, name, create } => get_handle_ruling(
            alloc,
            state,
            Kind::Directory,
            dir,
            name,
            *create,
        ),
        Op::GetFileHandle { dir, name, create } => get_handle_ruling(
            alloc,
            state,
            Kind::File,
            dir,
            name,
            *create,
        ),
        Op::RemoveEntry {
            dir,
            name,
            recursive,
        } => remove_entry_ruling(alloc, state, dir, name, *recursive),
        Op::Next { dir, .. } => Ok(located_ruling(state, Kind::Directory, dir)),
        Op::GetFile { file } => Ok(located_ruling(state, Kind::File, file)),
        Op::CreateWritable { file, keep } => create_writable_ruling(state, file, *keep),
        Op::Write {
            row,
            bytes,
            position,
        } => grow_stream_ruling(state, number, *row, size_written(sizes, *position, bytes)?),
        Op::Truncate { row, size } => grow_stream_ruling(state, number, *row, *size),
        Op::Seek { row, .. } | Op::Close { row } | Op::Abort { row } => Ok(stream_ruling(
            state, number, *row,
        )),
        Op::CreateSyncAccessHandle { file, mode } => create_sync_ruling(state, file, *mode),
        Op::SyncWrite { row, bytes, at } => grow_handle_ruling(
            state,
            sizes,
            number,
            *row,
            size_written(sizes, *at, bytes)?,
        ),
        Op::SyncTruncate { row, size } => grow_handle_ruling(state, sizes, number, *row, *size),
        Op::SyncRead { row, .. } | Op::SyncGetSize { row } | Op::SyncFlush { row } => Ok(
            handle_ruling(state, number, *row),
        ),
        Op::Persist { bucket } => persist_ruling(alloc, state, number, bucket),
        Op::Persisted { bucket } => Ok(persisted_ruling(state, number, bucket)),
        Op::Estimate => Ok(estimate_ruling(state, number)),
        Op::Await { tag } => await_ruling(alloc, state, number, tag),
        Op::Unbound { .. } => Ok(Err(Refusal::Unbound)),
        _ => Ok(Ok(NO_NEED)),
    }
}

/// The refusal of a call, or the units that are cleared for it.
#[tactic(auto, unfolding(opfs_machine::specs::Ruled::binding, opfs_machine::specs::Steps::judged))]
pub fn judge(alloc: Global, state: &Board, number: u32, op: &Op) -> Ruled<Many<Key>>
    requires { IsAgent state.now number }
    ensures { IfOk result (λ ruled. ruled ≡ judged state.now number op.now) }
{
    let sizes = sizes_of(state, number, row_named(op));
    let need = match ruling(alloc, state, sizes, number, op)? {
        Ok(need) => need,
        Err(refusal) => return Ok(Err(refusal)),
    };
    room_for(alloc, state, agent(state, number).key.as_ref(), need)
}
