//! Open writable streams.

ghost use Rattle.std.specs.Prelude.{None, length, ◌≡◌, ◌+◌, ◌^◌, ◌≤◌, Some, ◌<◌, IsSome, suc};
ghost use Rattle.opfs_base.specs.Units.{origin_of};
ghost use Rattle.opfs_machine.specs.Agents.{agent_of, adds_own, with_own};
ghost use Rattle.opfs_machine.specs.Contents.{in_lengths};
ghost use Rattle.opfs_machine.specs.Rows.{row_at};
ghost use Rattle.opfs_register.specs.Slots.{most_rows};
ghost use Rattle.opfs_machine.specs.Sums.{usage, pool};
ghost use Rattle.opfs_machine.specs.declared.own.Outline.TheVariants as outline;
ghost use Rattle.opfs_machine.specs.declared.own.StreamOutline.{StreamOutline};
ghost use Rattle.opfs_register.specs.Slots.{stream_at};
ghost use Rattle.opfs_state_rows.specs.Standing.Open.{IsStreamAt};

use crate::standing::standing::Standing;
use opfs_register::OpenStream;

impl Standing {
    /// Gives an agent that has room an open stream, whose file is there, and keeps its blocks. Takes no memory.
    pub fn open_stream(&mut self, at: usize, stream: OpenStream)
        requires inside { at < length self.old.machine.agents }
        requires room { self.old.prepared.room ≡ Some at }
        requires few { length (agent_of self.old.machine (suc at)).own < most_rows }
        requires there { IsSome (row_at self.old.machine stream.file) }
        requires quota { usage in_lengths self.old.machine (origin_of stream.file.0) + stream.reserve < 2 ^ 64 }
        requires blocks { pool in_lengths self.old.machine + stream.reserve ≤ self.old.machine.limits.blocks }
        ensures machine { self.new.machine ≡ adds_own self.old.machine (suc at) (outline.Stream stream) }
        ensures tree { self.new.tree ≡ self.old.tree }
        ensures prepared { self.new.prepared ≡ record self.old.prepared { room = None } }
    {
        let reserve = stream.outline().reserve;
        self.shed.add(&stream.outline().file.0, reserve);
        self.pool.raise(&stream.outline().file.0, reserve);
        self.register.add_stream(at, stream);
    }

    /// Keeps so many blocks more for an open stream, whose file is there.
    pub fn grow_stream(&mut self, at: usize, n: usize, more: u64)
        requires stream { IsStreamAt self.old.machine at n }
        requires quota { (w : StreamOutline) → stream_at self.old.machine.agents at n ≡ Some w → usage in_lengths self.old.machine (origin_of w.file.0) + more < 2 ^ 64 }
        requires room { pool in_lengths self.old.machine + more ≤ self.old.machine.limits.blocks }
        ensures machine { (w : StreamOutline) → stream_at self.old.machine.agents at n ≡ Some w → self.new.machine ≡ with_own self.old.machine (suc at) (suc n) (outline.Stream (record w { reserve = w.reserve + more })) }
        ensures tree { self.new.tree ≡ self.old.tree }
        ensures prepared { self.new.prepared ≡ self.old.prepared }
    {
        let Some(stream) = self.register.stream(at, n) else {
            unreachable!();
        };
        let reserve = stream.reserve + more;
        self.shed.add(&stream.file.0, more);
        self.pool.raise(&stream.file.0, more);
        self.register.set_reserve(at, n, reserve);
    }

    /// Closes an open stream, whose file is there, and gives it.
    pub fn close_stream(&mut self, at: usize, n: usize) -> OpenStream
        requires stream { IsStreamAt self.old.machine at n }
        ensures machine { self.new.machine ≡ with_own self.old.machine (suc at) (suc n) outline.ClosedStream }
        ensures tree { self.new.tree ≡ self.old.tree }
        ensures prepared { self.new.prepared ≡ self.old.prepared }
        ensures stream { stream_at self.old.machine.agents at n ≡ Some result }
    {
        let stream = self.register.close_stream(at, n);
        let reserve = stream.outline().reserve;
        self.shed.free(&stream.outline().file.0, reserve);
        self.pool.lower(&stream.outline().file.0, reserve);
        stream
    }
}
