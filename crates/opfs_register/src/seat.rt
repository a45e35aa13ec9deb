//! An agent and its own rows.

ghost use Rattle.std.specs.Prelude.{◌≡◌};
ghost use Rattle.opfs_register.specs.Seating.{agent_seen, agent_begun};

use crate::rows::OwnRows;
use opfs_base::{Bytes, Key};
use std::alloc::Global;

/// An agent's origin's key, None for an opaque origin, and whether it has the grant `persistent-storage`.
#[derive(Drop)]
pub struct Who {
    pub key: Option<Key>,
    pub grant: bool,
}

/// An agent, seen as the machine has it, with what the shared store knows of each of its rows.
pub struct Seat {
    pub(crate) key: Option<Key>,
    pub(crate) grant: bool,
    pub(crate) live: bool,
    pub(crate) moment: u64,
    pub(crate) waits: Option<Bytes>,
    pub(crate) rows: OwnRows,
}

// An agent as it begins.
pub(crate) fn begin(alloc: Global, who: Who) -> Seat
    ensures { agent_seen result ≡ agent_begun who }
{
    let Who { key, grant } = who;
    Seat {
        key,
        grant,
        live: true,
        moment: 0,
        waits: None,
        rows: OwnRows::make(alloc),
    }
}

// Ends an agent with its rows, without giving any lock back.
pub(crate) fn end(seat: Seat) {
    let Seat {
        key: _key,
        grant: _grant,
        live: _live,
        moment: _moment,
        waits: _waits,
        rows,
    } = seat;
    rows.end();
}
