//! A call with its answer, taken apart.

ghost use Rattle.std.specs.Prelude.{◌≡◌};
ghost use Rattle.opfs_store.specs.Acts.Acting.{told_entry};
ghost use Rattle.opfs_desk_steps.specs.Parts.Seen.{call_in};

use crate::parts::{Eviction, ReadyCall};
use opfs_books::EntryWithRoom;
use opfs_hist::{Entry, Reply};
use opfs_machine::Sizes;

/// A call's entry with the memory for it, the sizes of the row that it names, and the units that are cleared for it.
#[derive(Drop)]
pub struct CallParts {
    pub last: EntryWithRoom,
    pub sizes: Sizes,
    pub clearing: Vec<Eviction>,
}

/// Takes a call apart that is answered so.
pub fn call_parts(call: ReadyCall, reply: Reply) -> CallParts
    ensures entry { result.last.entry ≡ told_entry (call_in call) reply }
    ensures sizes { result.sizes ≡ call.sizes }
    ensures clearing { result.clearing.items ≡ call.clearing.items }
{
    let ReadyCall {
        room,
        agent,
        number,
        op,
        sizes,
        clearing,
    } = call;
    let turn = true;
    let entry = Entry {
        agent,
        number,
        op,
        reply,
        turn,
    };
    CallParts {
        last: EntryWithRoom { room, entry },
        sizes,
        clearing,
    }
}
