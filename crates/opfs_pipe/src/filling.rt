//! The reader's side of a pipe: it slices pieces out of a snapshot and pushes them.

ghost use Rattle.std.specs.Prelude.{◌≡◌, ◌+◌, ◌<◌, ◌≤◌, ◌∷◌, ◌++◌, [], length, IfErr, OnErr, OnOk};
ghost use Rattle.rtrb.specs.Ring.{sent, known_free, SameProducer};
ghost use Rattle.opfs_turns.specs.Asking.Rows.{HasSnapshot};
ghost use Rattle.opfs_turns.specs.declared.asking.stop.Stop.TheVariants as stop;
ghost use Rattle.opfs_splice.specs.Splicing.{window};
ghost use Rattle.opfs_turns.specs.Calls.{HasRoom};
ghost use Rattle.opfs_pipe.specs.Pieces.{IsCut};
ghost use Rattle.opfs_pipe.specs.Sides.{HasFilled, Sliced};

use crate::pieces::{PIECE, Source};
use opfs_agent::{Agent, Snapshot};
use opfs_store::Store;
use opfs_turns::Stop;

// Slices one piece, and pushes it into the ring, where a slot is free.
fn push_piece<S: Store>(
    from: &Snapshot,
    at: u64,
    size: u64,
    reader: &mut Agent<S>,
    source: &mut Source,
) -> Result<(), Stop>
    requires room { HasRoom reader.old }
    requires snapshot { HasSnapshot S.tells reader.old from.now }
    requires size { size ≤ 4096 }
    requires reach { at + size ≤ length from.now.bytes }
    requires free { 0 < known_free source.old }
    ensures ring { SameProducer source.old source.new }
    ensures pushed { OnOk result (sent source.new ≡ sent source.old ++ window from.now.bytes at size ∷ []) }
    ensures sliced { OnOk result (Sliced S.tells reader.old reader.new from.now at (window from.now.bytes at size ∷ [])) }
    ensures left { OnErr result ((sent source.new ≡ sent source.old) × Sliced S.tells reader.old reader.new from.now at []) }
    ensures why { IfErr result (λ why. why ≡ stop.NoMemory) }
{
    reader.know_kept();
    let sliced = reader.slice(from, at, size);
    reader.know_kept();
    match sliced {
        Ok(piece) => {
            source.push_reserved(piece);
            Ok(())
        }
        Err(stop) => {
            // A slice is never refused.
            let _ = stop;
            Err(Stop::NoMemory)
        }
    }
}

/// Slices pieces from a place on, and pushes them, until the ring is full or the end is reached. It gives the place behind them.
pub(crate) fn fill<S: Store>(
    from: &Snapshot,
    at: u64,
    next: u64,
    end: u64,
    reader: &mut Agent<S>,
    source: &mut Source,
) -> Result<u64, Stop>
    requires few { (reader.old.rows ≤ 60000000) × (reader.old.entries ≤ 59000000 + length (sent source.old)) }
    requires snapshot { HasSnapshot S.tells reader.old from.now }
    requires end { (end ≤ length from.now.bytes) × (end ≤ at + 268435456) }
    requires more { next < end }
    requires free { 0 < known_free source.old }
    requires cut { IsCut from.now.bytes at next end (sent source.old) }
    ensures ring { SameProducer source.old source.new }
    ensures filled { HasFilled S.tells reader.old reader.new from.now at next end (sent source.old) (sent source.new) result }
{
    let mut place = next;
    while place < end {
        let size = PIECE.min(end - place);
        match push_piece(from, place, size, reader, source) {
            Ok(()) => place += size,
            Err(stop) => return Err(stop),
        }
        let free = source.slots();
        if free == 0 {
            return Ok(place);
        }
    }
    let _ = at;
    Ok(place)
}
