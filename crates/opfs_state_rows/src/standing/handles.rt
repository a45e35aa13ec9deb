//! Open access handles.

ghost use Rattle.std.specs.Prelude.{None, length, ◌≡◌, ◌+◌, ◌≤◌, Some, ◌<◌, suc};
ghost use Rattle.opfs_machine.specs.Agents.{agent_of, adds_own, with_own};
ghost use Rattle.opfs_machine.specs.Contents.{in_lengths};
ghost use Rattle.opfs_register.specs.Slots.{most_rows};
ghost use Rattle.opfs_machine.specs.Sums.{pool};
ghost use Rattle.opfs_machine.specs.declared.own.Outline.TheVariants as outline;
ghost use Rattle.opfs_machine.specs.declared.own.HandleOutline.{HandleOutline};
ghost use Rattle.opfs_register.specs.Slots.{handle_at};
ghost use Rattle.opfs_state_rows.specs.Standing.Open.{IsHandleAt};

use crate::standing::standing::Standing;
use opfs_register::OpenHandle;

impl Standing {
    /// Gives an agent that has room an open access handle that keeps no block. Takes no memory.
    pub fn open_handle(&mut self, at: usize, handle: OpenHandle)
        requires inside { at < length self.old.machine.agents }
        requires room { self.old.prepared.room ≡ Some at }
        requires few { length (agent_of self.old.machine (suc at)).own < most_rows }
        requires reserve { handle.reserve ≡ 0 }
        ensures { self.new ≡ record self.old { machine = adds_own self.old.machine (suc at) (outline.Handle handle); prepared = record self.old.prepared { room = None } } }
    {
        self.register.add_handle(at, handle);
    }

    /// Keeps so many blocks more for an open access handle, whose file is there.
    pub fn grow_handle(&mut self, at: usize, n: usize, more: u64)
        requires handle { IsHandleAt self.old.machine at n }
        requires room { pool in_lengths self.old.machine + more ≤ self.old.machine.limits.blocks }
        ensures machine { (h : HandleOutline) → handle_at self.old.machine.agents at n ≡ Some h → self.new.machine ≡ with_own self.old.machine (suc at) (suc n) (outline.Handle (record h { reserve = h.reserve + more })) }
        ensures tree { self.new.tree ≡ self.old.tree }
        ensures prepared { self.new.prepared ≡ self.old.prepared }
    {
        let Some(handle) = self.register.handle(at, n) else {
            unreachable!();
        };
        self.pool.raise(&handle.file.0, more);
        // What is kept is a count of 64 bits, and the handle's is a part of it.
        let _kept = self.pool.count();
        let reserve = handle.reserve + more;
        self.register.set_reserve(at, n, reserve);
    }

    /// Keeps no block for an open access handle, whose file is there.
    pub fn free_handle(&mut self, at: usize, n: usize)
        requires handle { IsHandleAt self.old.machine at n }
        ensures machine { (h : HandleOutline) → handle_at self.old.machine.agents at n ≡ Some h → self.new.machine ≡ with_own self.old.machine (suc at) (suc n) (outline.Handle (record h { reserve = 0 })) }
        ensures tree { self.new.tree ≡ self.old.tree }
        ensures prepared { self.new.prepared ≡ self.old.prepared }
    {
        let Some(handle) = self.register.handle(at, n) else {
            unreachable!();
        };
        self.pool.lower(&handle.file.0, handle.reserve);
        self.register.set_reserve(at, n, 0);
    }

    /// Closes an open access handle, whose file is there, and gives it.
    pub fn close_handle(&mut self, at: usize, n: usize) -> OpenHandle
        requires handle { IsHandleAt self.old.machine at n }
        ensures machine { self.new.machine ≡ with_own self.old.machine (suc at) (suc n) outline.ClosedHandle }
        ensures tree { self.new.tree ≡ self.old.tree }
        ensures prepared { self.new.prepared ≡ self.old.prepared }
        ensures handle { handle_at self.old.machine.agents at n ≡ Some result }
    {
        let handle = self.register.close_handle(at, n);
        let reserve = handle.outline().reserve;
        self.pool.lower(&handle.outline().file.0, reserve);
        handle
    }
}
