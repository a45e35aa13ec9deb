//! What the shared store keeps beside its rows and buckets.

ghost use Rattle.std.specs.Prelude.{◌≡◌, ◌+◌, ◌<◌, ◌≤◌, ◌^◌, ◌++◌, suc, false, [], ◌∷◌, Some, None, IsSome, IfOk, OnOk, OnErr, length, map, option_map, slice_set};
ghost use Rattle.std.specs.Option.{option_copied};
ghost use Rattle.opfs_machine.specs.Agents.{agent_in, agent_of, has_open_row, last_use, used_now};
ghost use Rattle.opfs_machine.specs.Contents.{in_lengths};
ghost use Rattle.opfs_machine.specs.declared.own.Outline.{Outline};
ghost use Rattle.opfs_machine.specs.declared.own.Outline.TheVariants as outline;
ghost use Rattle.opfs_register.specs.Registers.{bare, used_after};
ghost use Rattle.opfs_register.specs.Seating.{agent_begun, noted, most_agents};
ghost use Rattle.opfs_register.specs.Slots.{slot_in, stream_at, handle_at, with_slot, keeping, most_rows};

use crate::open::{HeldRow, OpenHandle, OpenStream};
use crate::posts::Posts;
use crate::seat::Who;
use crate::seats::Seats;
use opfs_base::Key;
use opfs_hist::PendingSum;
use opfs_machine::{HandleOutline, Limits, StreamOutline};
use std::alloc::{AllocError, Global};
use std::marker::Model;

/// The agents with their own rows, the posted tags, the number of entries and the last use of each origin, and the limits;
/// besides what is ready: room for one row more of an agent, and a tag. Agents and their rows are counted from 0.
pub struct Register {
    pub(crate) seats: Seats,
    pub(crate) posts: Posts,
    entries: u64,
    limits: Limits,
}

impl Model for Register {
    ghost use Rattle.opfs_register.specs.Registers.{Registered};

    ghost Value = { Registered };

    ghost view = { λ r. record { posted = r.posts.posted; agents = r.seats.agents; entries = r.entries; used = r.seats.used; limits = r.limits; room = r.seats.room; ready = r.posts.ready } };
}

impl Register {
    /// Agents as an opening has them: live, with their clocks at 0 and without rows. No tag is posted, and there is no
    /// entry.
    pub fn make(alloc: Global, agents: Vec<Who>, limits: Limits) -> Result<Register, AllocError>
        requires { length agents.items ≤ most_agents }
        ensures { IfOk result (λ register. register ≡ record { posted = []; agents = map agent_begun agents.items; entries = 0; used = []; limits = limits; room = None; ready = None }) }
    {
        let seats = Seats::make(alloc, agents)?;
        Ok(Register {
            seats,
            posts: Posts::make(alloc),
            entries: 0,
            limits,
        })
    }

    /// Ends all agents with their rows, without giving any lock back.
    pub fn end(self) {
        let Register {
            seats,
            posts: _posts,
            entries: _entries,
            limits: _limits,
        } = self;
        seats.end();
    }

    /// How many agents there are.
    pub fn agents(&self) -> usize
        ensures count { result ≡ length self.now.agents }
        ensures few { result ≤ most_agents }
    {
        self.seats.count()
    }

    /// The limits.
    pub fn limits(&self) -> Limits
        ensures { result ≡ self.now.limits }
    {
        self.limits
    }

    /// The number of entries.
    pub fn entries(&self) -> u64
        ensures { result ≡ self.now.entries }
    {
        self.entries
    }

    /// The key of an agent's origin; None for an opaque origin.
    pub fn key(&self, at: usize) -> Option<&Key>
        requires { at < length self.now.agents }
        ensures { option_copied result ≡ (agent_in self.now.agents (suc at)).key }
    {
        self.seats.seat(at).key.as_ref()
    }

    /// Whether an agent has the grant `persistent-storage`.
    pub fn has_grant(&self, at: usize) -> bool
        requires { at < length self.now.agents }
        ensures { result ≡ (agent_in self.now.agents (suc at)).grant }
    {
        self.seats.seat(at).grant
    }

    /// An agent's clock.
    pub fn moment(&self, at: usize) -> u64
        requires { at < length self.now.agents }
        ensures { result ≡ (agent_in self.now.agents (suc at)).moment }
    {
        self.seats.seat(at).moment
    }

    /// How many rows an agent has.
    pub fn rows(&self, at: usize) -> usize
        requires { at < length self.now.agents }
        ensures count { result ≡ length (agent_in self.now.agents (suc at)).own }
        ensures few { result ≤ most_rows }
    {
        self.seats.seat(at).rows.count()
    }

    /// Whether an agent has an open stream or access handle.
    pub fn has_open_row(&self, at: usize) -> bool
        requires { at < length self.now.agents }
        ensures { result ≡ has_open_row in_lengths (bare self.now) (suc at) }
    {
        self.seats.seat(at).rows.has_open()
    }

    /// The number of the last entry of an origin; 0 where there is none.
    pub fn last_use(&self, origin: &Key) -> u64
        ensures { result ≡ last_use (bare self.now) origin.now }
    {
        self.seats.last_use(origin)
    }

    /// The origins that were used, with the number of their last entry.
    pub fn uses(&self, alloc: Global) -> Result<Vec<(Key, u64)>, AllocError>
        ensures { IfOk result (λ uses. uses.items ≡ self.now.used) }
    {
        self.seats.uses(alloc)
    }

    /// The open stream at a place of an agent at a place.
    pub fn stream(&self, at: usize, n: usize) -> Option<&StreamOutline>
        ensures { option_copied result ≡ stream_at self.now.agents at n }
    {
        self.seats.stream(at, n)
    }

    /// The open access handle at a place of an agent at a place.
    pub fn handle(&self, at: usize, n: usize) -> Option<&HandleOutline>
        ensures { option_copied result ≡ handle_at self.now.agents at n }
    {
        self.seats.handle(at, n)
    }

    /// Keeps so many blocks for an open row.
    pub fn set_reserve(&mut self, at: usize, n: usize, reserve: u64)
        requires { IsSome (slot_in self.old.agents at n) }
        ensures { (r : Outline) → slot_in self.old.agents at n ≡ Some r → self.new ≡ record self.old { agents = with_slot self.old.agents at n (keeping reserve r) } }
    {
        self.seats.set_reserve(at, n, reserve);
    }

    /// Closes an open stream, and gives it.
    pub fn close_stream(&mut self, at: usize, n: usize) -> OpenStream
        requires { IsSome (stream_at self.old.agents at n) }
        ensures rest { self.new ≡ record self.old { agents = with_slot self.old.agents at n outline.ClosedStream } }
        ensures stream { stream_at self.old.agents at n ≡ Some result }
    {
        self.seats.close_stream(at, n)
    }

    /// Closes an open access handle, and gives it.
    pub fn close_handle(&mut self, at: usize, n: usize) -> OpenHandle
        requires { IsSome (handle_at self.old.agents at n) }
        ensures rest { self.new ≡ record self.old { agents = with_slot self.old.agents at n outline.ClosedHandle } }
        ensures handle { handle_at self.old.agents at n ≡ Some result }
    {
        self.seats.close_handle(at, n)
    }

    /// Makes room for one row more of an agent.
    pub fn prepare_row(&mut self, at: usize) -> Result<(), AllocError>
        requires { at < length self.old.agents }
        ensures ok { OnOk result (self.new ≡ record self.old { room = Some at }) }
        ensures err { OnErr result (self.new ≡ self.old) }
    {
        self.seats.prepare_row(at)
    }

    /// Gives an agent that has room an open stream. Takes no memory.
    pub fn add_stream(&mut self, at: usize, stream: OpenStream)
        requires inside { at < length self.old.agents }
        requires room { self.old.room ≡ Some at }
        requires few { length (agent_in self.old.agents (suc at)).own < most_rows }
        ensures { self.new ≡ record self.old { agents = slice_set self.old.agents at (record (agent_in self.old.agents (suc at)) { own = (agent_in self.old.agents (suc at)).own ++ outline.Stream stream ∷ [] }); room = None } }
    {
        self.seats.add_row(at, HeldRow::Stream(stream));
    }

    /// Gives an agent that has room an open access handle. Takes no memory.
    pub fn add_handle(&mut self, at: usize, handle: OpenHandle)
        requires inside { at < length self.old.agents }
        requires room { self.old.room ≡ Some at }
        requires few { length (agent_in self.old.agents (suc at)).own < most_rows }
        ensures { self.new ≡ record self.old { agents = slice_set self.old.agents at (record (agent_in self.old.agents (suc at)) { own = (agent_in self.old.agents (suc at)).own ++ outline.Handle handle ∷ [] }); room = None } }
    {
        self.seats.add_row(at, HeldRow::Handle(handle));
    }

    /// Gives an agent that has room a snapshot. Takes no memory.
    pub fn add_snapshot(&mut self, at: usize)
        requires inside { at < length self.old.agents }
        requires room { self.old.room ≡ Some at }
        requires few { length (agent_in self.old.agents (suc at)).own < most_rows }
        ensures { self.new ≡ record self.old { agents = slice_set self.old.agents at (record (agent_in self.old.agents (suc at)) { own = (agent_in self.old.agents (suc at)).own ++ outline.Snapshot ∷ [] }); room = None } }
    {
        self.seats.add_row(at, HeldRow::Snapshot);
    }

    /// Gives an agent one iterator more. Takes no memory.
    pub fn add_iterator(&mut self, at: usize)
        requires inside { at < length self.old.agents }
        requires few { length (agent_in self.old.agents (suc at)).own < most_rows }
        ensures { self.new ≡ record self.old { agents = slice_set self.old.agents at (noted (agent_in self.old.agents (suc at)) 1 None) } }
    {
        self.seats.note(at, 1, None);
    }

    /// Takes the sum of an agent's local calls in: so many iterators more, its clock, and so many entries more, the last
    /// of which is the last use of its origin. Takes no memory.
    pub fn note(&mut self, at: usize, sum: PendingSum)
        requires inside { at < length self.old.agents }
        requires few { length (agent_in self.old.agents (suc at)).own + sum.rows ≤ most_rows }
        requires entries { self.old.entries + sum.entries < 2 ^ 64 }
        ensures { self.new ≡ record self.old { agents = slice_set self.old.agents at (noted (agent_in self.old.agents (suc at)) sum.rows sum.moment); entries = self.old.entries + sum.entries; used = used_after self.old (agent_in self.old.agents (suc at)).key sum.entries } }
    {
        self.count_many(at, sum.entries);
        self.seats.note(at, sum.rows as usize, sum.moment);
    }

    // Counts so many entries of an agent, the last of which is the last use of its origin.
    fn count_many(&mut self, at: usize, more: u64)
        requires inside { at < length self.old.agents }
        requires entries { self.old.entries + more < 2 ^ 64 }
        ensures { self.new ≡ record self.old { entries = self.old.entries + more; used = used_after self.old (agent_in self.old.agents (suc at)).key more } }
    {
        if more == 0 {
            return;
        }
        self.entries += more;
        self.seats.set_used(at, self.entries);
    }

    /// Counts one entry of an agent, which is the last use of its origin. Takes no memory.
    pub fn count(&mut self, at: usize)
        requires inside { at < length self.old.agents }
        requires entries { self.old.entries + 1 < 2 ^ 64 }
        ensures { self.new ≡ record self.old { entries = self.old.entries + 1; used = used_now (bare self.old) (agent_of (bare self.old) (suc at)).key } }
    {
        self.count_many(at, 1);
    }

    /// Counts the entry of an eviction, which is no use. Takes no memory.
    pub fn count_eviction(&mut self)
        requires { self.old.entries + 1 < 2 ^ 64 }
        ensures { self.new ≡ record self.old { entries = self.old.entries + 1 } }
    {
        self.entries += 1;
    }

    /// Ends an agent's script.
    pub fn end_agent(&mut self, at: usize)
        requires { at < length self.old.agents }
        ensures { self.new ≡ record self.old { agents = slice_set self.old.agents at (record (agent_in self.old.agents (suc at)) { live = false; waits = None }) } }
    {
        self.seats.end_agent(at);
    }
}
