//! Entries of calls.

ghost use Rattle.std.specs.Prelude.{◌≡◌, ◌++◌, ◌∷◌, ◌<◌, ◌^◌, [], length};
ghost use Rattle.opfs_books.specs.Laws.Laws.{failed};

use opfs_base::Extents;
use opfs_hist::{Entry, History, Pending, Refusal, Reply, Room};
use opfs_machine::Sizes;
use std::alloc::Global;

/// A call's entry, and the memory for it.
#[derive(Drop)]
pub struct EntryWithRoom {
    pub room: Room,
    pub entry: Entry,
}

/// A call's entry with what the shared state is told of the call: the sizes of the row that it names, and the blocks in
/// which it stores a content, where they are not those that the file has.
#[derive(Drop)]
pub struct Entering {
    pub last: EntryWithRoom,
    pub sizes: Sizes,
    pub extents: Option<Extents>,
}

/// Enters a call.
pub(crate) fn enter(alloc: Global, history: &mut History, last: EntryWithRoom)
    requires { length history.old < 2 ^ 34 }
    ensures { history.new ≡ history.old ++ last.entry ∷ [] }
{
    let mut pending = Pending::make(alloc);
    pending.add(last.room, last.entry);
    history.take_in(&mut pending);
}

/// The entry of a call in which the disk failed.
pub(crate) fn with_fault(last: EntryWithRoom) -> EntryWithRoom
    ensures { result.entry ≡ failed last.entry }
{
    let EntryWithRoom { room, entry } = last;
    let Entry {
        agent,
        number,
        op,
        reply,
        turn,
    } = entry;
    drop(reply);
    let reply = Reply::No(Refusal::DiskFault);
    EntryWithRoom {
        room,
        entry: Entry {
            agent,
            number,
            op,
            reply,
            turn,
        },
    }
}
