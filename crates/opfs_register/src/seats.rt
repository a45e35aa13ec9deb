//! All agents.

ghost use Rattle.std.specs.Prelude.{◌≡◌, ℕ, ◌+◌, ◌<◌, ◌≤◌, ◌++◌, suc, false, [], ◌∷◌, Some, None, IsSome, IsTrue, IfOk, OnOk, OnErr, length, map, option_map, replicate, unwrap_or, slice_get, slice_set};
ghost use Rattle.std.specs.Option.{option_copied};
ghost use Rattle.opfs_machine.specs.Agents.{agent_in, of_row};
ghost use Rattle.opfs_machine.specs.declared.own.Outline.{Outline};
ghost use Rattle.opfs_machine.specs.declared.own.Outline.TheVariants as outline;
ghost use Rattle.opfs_register.specs.Seating.{agent_seen, agents_seen, agent_begun, key_of, noted, used_by, most_agents};
ghost use Rattle.opfs_base.specs.Texts.{Text};
ghost use Rattle.std.specs.FinMap.Entries.{find};
ghost use Rattle.opfs_register.specs.LastUses.{text_cmp, used_in, is_known};
ghost use Rattle.opfs_register.specs.Slots.{outline_in, slot_row, slot_in, with_slot, stream_at, handle_at, keeping, most_rows};

use crate::open::{HeldRow, OpenHandle, OpenStream};
use crate::seat::{Seat, Who, begin, end};
use crate::uses::Uses;
use opfs_base::{Bytes, Key};
use opfs_machine::{HandleOutline, StreamOutline};
use std::alloc::{AllocError, Global};
use std::marker::Model;

/// The agents by their place, the first at place 0, seen as the machine has them, with the last use of each origin. One of
/// them may have room for a row more.
pub struct Seats {
    items: Vec<Seat>,
    room: Option<usize>,
    uses: Uses,
}

impl Model for Seats {
    ghost use Rattle.opfs_register.specs.LastUses.{used_in};
    ghost use Rattle.opfs_register.specs.Seating.{Seating, agents_seen, IsSeated};

    ghost Value = { Seating };

    ghost view = { λ seats. record { agents = agents_seen seats.items.items; room = seats.room; used = used_in seats.uses } };

    ghost invariant = { λ seats. IsSeated seats.items.items seats.room seats.uses };
}

// Takes the origin of an agent in.
fn know_agent(alloc: Global, uses: &mut Uses, who: &Who) -> Result<(), AllocError>
    ensures known { (origin : Text) → who.now.key ≡ Some origin → OnOk result (IsTrue (is_known uses.new origin)) }
    ensures kept { (origin : Text) → IsTrue (is_known uses.old origin) → IsTrue (is_known uses.new origin) }
    ensures used { used_in uses.new ≡ used_in uses.old }
{
    match &who.key {
        Some(origin) => uses.know(alloc, origin),
        None => Ok(()),
    }
}

// The origins of agents, without a use.
fn known_uses(alloc: Global, agents: &[Who]) -> Result<Uses, AllocError>
    ensures known { IfOk result (λ uses. (at : ℕ) (origin : Text) → key_of (slice_get agents.now at) ≡ Some origin → IsTrue (is_known uses origin)) }
    ensures used { IfOk result (λ uses. used_in uses ≡ []) }
{
    let mut uses = Uses::make(alloc);
    for who in agents {
        know_agent(alloc, &mut uses, who)?;
    }
    Ok(uses)
}

// Agents as they begin.
fn seated(alloc: Global, agents: Vec<Who>) -> Result<Vec<Seat>, AllocError>
    ensures { IfOk result (λ seats. agents_seen seats.items ≡ map agent_begun agents.items) }
{
    let mut agents = agents;
    let mut seats = Vec::with_capacity(alloc, agents.len())?;
    while !agents.is_empty() {
        let who = agents.remove(0);
        seats.push_reserved(begin(alloc, who));
    }
    Ok(seats)
}

// Ends all agents.
fn end_all(seats: Vec<Seat>) {
    let mut seats = seats;
    while !seats.is_empty() {
        let seat = seats.take_last();
        end(seat);
    }
    seats.destroy_empty();
}

impl Seats {
    /// Agents as they begin.
    pub(crate) fn make(alloc: Global, agents: Vec<Who>) -> Result<Seats, AllocError>
        requires { length agents.items ≤ most_agents }
        ensures { IfOk result (λ seats. seats ≡ record { agents = map agent_begun agents.items; room = None; used = [] }) }
    {
        let uses = known_uses(alloc, agents.as_slice())?;
        let items = seated(alloc, agents)?;
        Ok(Seats {
            items,
            room: None,
            uses,
        })
    }

    /// Ends all agents with their rows, without giving any lock back.
    pub(crate) fn end(self) {
        let Seats {
            items,
            room: _room,
            uses: _uses,
        } = self;
        end_all(items);
    }

    /// How many agents there are.
    pub(crate) fn count(&self) -> usize
        ensures count { result ≡ length self.now.agents }
        ensures few { result ≤ most_agents }
    {
        self.items.len()
    }

    /// The agent at a place.
    pub(crate) fn seat(&self, at: usize) -> &Seat
        requires { at < length self.now.agents }
        ensures { agent_seen result.now ≡ agent_in self.now.agents (suc at) }
    {
        &self.items[at]
    }

    /// The open stream at a place of an agent at a place.
    pub(crate) fn stream(&self, at: usize, n: usize) -> Option<&StreamOutline>
        ensures { option_copied result ≡ stream_at self.now.agents at n }
    {
        self.items.get(at)?.rows.stream(n)
    }

    /// The open access handle at a place of an agent at a place.
    pub(crate) fn handle(&self, at: usize, n: usize) -> Option<&HandleOutline>
        ensures { option_copied result ≡ handle_at self.now.agents at n }
    {
        self.items.get(at)?.rows.handle(n)
    }

    // Puts another row in the place of one that is no iterator, and gives that.
    fn replace(&mut self, at: usize, n: usize, slot: HeldRow) -> HeldRow
        requires { IsSome (of_row slot_row (slot_in self.old.agents at n)) }
        ensures seats { self.new ≡ record self.old { agents = with_slot self.old.agents at n (outline_in slot) } }
        ensures old { slot_in self.old.agents at n ≡ Some (outline_in result) }
    {
        self.items[at].rows.replace(n, slot)
    }

    /// Keeps so many blocks for an open row; any other row stays as it is.
    pub(crate) fn set_reserve(&mut self, at: usize, n: usize, reserve: u64)
        requires { IsSome (slot_in self.old.agents at n) }
        ensures { (r : Outline) → slot_in self.old.agents at n ≡ Some r → self.new ≡ record self.old { agents = with_slot self.old.agents at n (keeping reserve r) } }
    {
        self.items[at].rows.set_reserve(n, reserve);
    }

    /// Closes an open stream, and gives it.
    pub(crate) fn close_stream(&mut self, at: usize, n: usize) -> OpenStream
        requires { IsSome (stream_at self.old.agents at n) }
        ensures seats { self.new ≡ record self.old { agents = with_slot self.old.agents at n outline.ClosedStream } }
        ensures stream { stream_at self.old.agents at n ≡ Some result }
    {
        self.replace(at, n, HeldRow::ClosedStream).into_stream()
    }

    /// Closes an open access handle, and gives it.
    pub(crate) fn close_handle(&mut self, at: usize, n: usize) -> OpenHandle
        requires { IsSome (handle_at self.old.agents at n) }
        ensures seats { self.new ≡ record self.old { agents = with_slot self.old.agents at n outline.ClosedHandle } }
        ensures handle { handle_at self.old.agents at n ≡ Some result }
    {
        self.replace(at, n, HeldRow::ClosedHandle).into_handle()
    }

    /// Makes room for one row more of an agent.
    pub(crate) fn prepare_row(&mut self, at: usize) -> Result<(), AllocError>
        requires { at < length self.old.agents }
        ensures ok { OnOk result (self.new ≡ record self.old { room = Some at }) }
        ensures err { OnErr result (self.new ≡ self.old) }
    {
        self.items[at].rows.reserve()?;
        self.room = Some(at);
        Ok(())
    }

    /// Gives an agent that has room one row more. Takes no memory.
    pub(crate) fn add_row(&mut self, at: usize, slot: HeldRow)
        requires inside { at < length self.old.agents }
        requires room { self.old.room ≡ Some at }
        requires few { length (agent_in self.old.agents (suc at)).own < most_rows }
        ensures { self.new ≡ record self.old { agents = slice_set self.old.agents at (record (agent_in self.old.agents (suc at)) { own = (agent_in self.old.agents (suc at)).own ++ outline_in slot ∷ [] }); room = None } }
    {
        self.items[at].rows.add(slot);
        self.room = None;
    }

    /// Gives an agent so many iterators more, and a clock where one is told. Takes no memory.
    pub(crate) fn note(&mut self, at: usize, more: usize, moment: Option<u64>)
        requires inside { at < length self.old.agents }
        requires few { length (agent_in self.old.agents (suc at)).own + more ≤ most_rows }
        ensures { self.new ≡ record self.old { agents = slice_set self.old.agents at (noted (agent_in self.old.agents (suc at)) more moment) } }
    {
        let seat = &mut self.items[at];
        seat.moment = moment.unwrap_or(seat.moment);
        seat.rows.add_iterators(more);
    }

    /// Says which entry is the last of an agent. Takes no memory.
    pub(crate) fn set_used(&mut self, at: usize, number: u64)
        requires inside { at < length self.old.agents }
        requires some { 0 < number }
        ensures { self.new ≡ record self.old { used = used_by self.old.used (agent_in self.old.agents (suc at)).key number } }
    {
        if let Some(origin) = &self.items[at].key {
            self.uses.set(origin, number);
        }
    }

    /// Says for which tag an agent waits.
    pub(crate) fn set_waits(&mut self, at: usize, waits: Option<Bytes>)
        requires { at < length self.old.agents }
        ensures { self.new ≡ record self.old { agents = slice_set self.old.agents at (record (agent_in self.old.agents (suc at)) { waits = waits }) } }
    {
        self.items[at].waits = waits;
    }

    /// Ends an agent's script.
    pub(crate) fn end_agent(&mut self, at: usize)
        requires { at < length self.old.agents }
        ensures { self.new ≡ record self.old { agents = slice_set self.old.agents at (record (agent_in self.old.agents (suc at)) { live = false; waits = None }) } }
    {
        let seat = &mut self.items[at];
        seat.live = false;
        seat.waits = None;
    }

    /// The number of the last entry of an origin; 0 where there is none.
    pub(crate) fn last_use(&self, origin: &Key) -> u64
        ensures { result ≡ unwrap_or (find text_cmp origin.now self.now.used) 0 }
    {
        self.uses.last(origin)
    }

    /// The origins that were used, with the number of their last entry.
    pub(crate) fn uses(&self, alloc: Global) -> Result<Vec<(Key, u64)>, AllocError>
        ensures { IfOk result (λ listed. listed.items ≡ self.now.used) }
    {
        self.uses.list(alloc)
    }
}
