//! The memory for the units that are cleared for a call.

ghost use Rattle.std.specs.Prelude.{◌≡◌, IfOk};
ghost use Rattle.opfs_desk_steps.specs.Parts.Asked.{AreEvictions};
ghost use Rattle.opfs_desk_steps.specs.Parts.Seen.{units_in};
ghost use Rattle.opfs_machine.specs.Runs.{eviction};

use crate::parts::Eviction;
use opfs_base::Key;
use opfs_books::EntryWithRoom;
use opfs_hist::{Entry, Op, Reply, Room};
use std::alloc::{AllocError, Global};

// The entry of a unit's eviction.
fn eviction_of(alloc: Global, unit: &Key) -> Result<Entry, AllocError>
    ensures { IfOk result (λ entry. entry ≡ eviction unit.now) }
{
    let key = unit.copy(alloc)?;
    let gone = unit.copy(alloc)?;
    Ok(Entry {
        agent: 0,
        number: 0,
        op: Op::Evict { key },
        reply: Reply::Gone(gone),
        turn: true,
    })
}

// A unit that is cleared, with the memory for its entry.
fn clearing_of(alloc: Global, unit: &Key) -> Result<Eviction, AllocError>
    ensures unit { IfOk result (λ clearing. clearing.unit ≡ unit.now) }
    ensures entry { IfOk result (λ clearing. clearing.gone.entry ≡ eviction unit.now) }
{
    let room = Room::make(alloc)?;
    let entry = eviction_of(alloc, unit)?;
    Ok(Eviction {
        unit: unit.copy(alloc)?,
        gone: EntryWithRoom { room, entry },
    })
}

/// Units that are cleared, with the memory for their entries.
pub(crate) fn clearings_for(alloc: Global, units: &[Key]) -> Result<Vec<Eviction>, AllocError>
    ensures units { IfOk result (λ clearing. units_in clearing.items ≡ units.now) }
    ensures entries { IfOk result (λ clearing. AreEvictions clearing.items) }
{
    let mut clearing = Vec::new(alloc);
    for unit in units {
        clearing.push(clearing_of(alloc, unit)?)?;
    }
    Ok(clearing)
}
