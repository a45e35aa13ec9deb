//! An agent's turns, and what it keeps between them.

ghost use Rattle.std.specs.Prelude.{◌≡◌, ◌≤◌, false, true, IfOk, IfErr, OnErr, is_ok, IsTrue};
ghost use Rattle.std.specs.Option.{option_copied};
ghost use Rattle.opfs_hall.specs.History.{IsPrefix};
ghost use Rattle.opfs_hist.specs.declared.op.Op.TheVariants as op;
ghost use Rattle.opfs_machine.specs.Histories.{may_enter};
ghost use Rattle.opfs_laws.specs.Leaving.{is_end};
ghost use Rattle.opfs_store.specs.Acts.Acting.{IsLeft, IsSameCopy, always_acts};
ghost use Rattle.opfs_turns.specs.Agents.{state_of, IsAgent};
ghost use Rattle.opfs_turns.specs.Waiting.{HasWaitRoom, HasWaited, HasAwaited, IsAwaitTurn, await_reply};
ghost use Rattle.opfs_turns.specs.Calls.{HasRoom, MayAsk, call_of, IsEntered, HasLooked, IsLocal, IsKept, new_agent, MayBegin, HasEnded};
ghost use Rattle.opfs_turns.specs.Entering.{HasEnteredPending};

use crate::entering::{enter_pending, look_behind};
use crate::notes::{Caller, Notes};
use crate::turn::in_turn;
use crate::waiting::{AwaitTurn, await_turn, await_turns};
use opfs_base::{Key, Name, Text};
use opfs_hall::{Hall, Pass, Watch};
use opfs_hist::{Entry, Op, Pending, Reply, Room};
use opfs_store::{Acted, Store};
use opfs_work::Work;
use std::alloc::{AllocError, Global};
use std::marker::Model;
use std::sync::Wait;

/// An agent that makes calls of a store, one turn after another. What it asks and is answered is said of the state after the
/// entries that it knows: those that it has seen, and its own local calls that are not entered yet. A store whose agent is
/// dropped before it has ended can't be taken out of its hall.
pub struct Turns<S: Store> {
    caller: Caller<S>,
    // The place of its end's entry.
    room: Room,
    alloc: Global,
}

impl<S: Store> Model for Turns<S> {
    ghost use Rattle.opfs_turns.specs.Agents.{AgentSeen, IsAgent, seen};

    ghost Value = { AgentSeen S.Opening };

    ghost view = { λ a. seen S.opened a.caller.pass a.caller.notes };

    ghost invariant = { λ a. IsAgent S.tells (seen S.opened a.caller.pass a.caller.notes) };
}

impl<S: Store> Drop for Turns<S> {
    fn drop(self) {
        let Self {
            caller: _,
            room: _,
            alloc: _,
        } = self;
    }
}

impl<S: Store> Turns<S> {
    /// The turns of an agent of this key, with a pass of the store's hall. It gives the pass back where memory is short.
    pub fn make(alloc: Global, pass: Pass<S>, key: Option<Key>) -> Result<Turns<S>, Pass<S>>
        requires { MayBegin S.opened pass key }
        ensures made { IfOk result (λ turns. turns ≡ new_agent S.opened pass key) }
        ensures err { IfErr result (λ back. back ≡ pass) }
    {
        let Ok(room) = Room::make(alloc) else {
            return Err(pass);
        };
        Ok(Turns::begin(alloc, pass, key, room))
    }

    /// The same, with room for the entry of its end. Takes no memory.
    pub fn begin(alloc: Global, pass: Pass<S>, key: Option<Key>, room: Room) -> Turns<S>
        requires { MayBegin S.opened pass key }
        ensures { result ≡ new_agent S.opened pass key }
    {
        let notes = Notes {
            pending: Pending::make(alloc),
            key,
            number: 1,
            entries: 0,
            rows: 0,
            waiting: None,
        };
        Turns {
            caller: Caller { pass, notes },
            room,
            alloc,
        }
    }

    /// What the type keeps.
    pub fn know_kept(&self)
        ensures { IsAgent S.tells self.now }
    {
        let _ = &self.caller;
    }

    /// The number of the agent.
    pub fn agent(&self) -> u32
        ensures { result ≡ self.now.pass.agent }
    {
        self.caller.pass.agent()
    }

    /// How many streams, access handles, snapshots and iterators the agent has made.
    pub fn rows(&self) -> u32
        ensures { result ≡ self.now.rows }
    {
        self.caller.notes.rows
    }

    /// How many entries the agent has, waits among them.
    pub fn entries(&self) -> u32
        ensures { result ≡ self.now.entries }
    {
        self.caller.notes.entries
    }

    /// The number of its next call; waits have none of their own.
    pub fn next_number(&self) -> u32
        ensures { result ≡ self.now.number }
    {
        self.caller.notes.number
    }

    /// The key of the agent.
    pub fn key(&self) -> Option<&Key>
        ensures { option_copied result ≡ self.now.key }
    {
        self.caller.notes.key.as_ref()
    }

    /// Makes a shared call: takes the turn, has the call entered, and hands the turn on. Where there is no memory nothing is
    /// entered.
    pub fn call<R: Wait>(
        &mut self,
        rt: &R,
        court: &Hall<S>,
        room: Room,
        op: Op,
        work: &mut Work,
        past: &[Name],
    ) -> Result<Acted, AllocError>
        requires own { self.old.pass.hall ≡ court.now }
        requires room { HasRoom self.old }
        requires may { MayAsk S.tells self.old op work.old past.now }
        requires stays { is_end op ≡ false }
        ensures entered { IfOk result (λ acted. IsEntered S.tells self.old self.new op acted.reply acted.gift) }
        ensures left { IfOk result (λ acted. IsLeft S.tells self.old.opening self.new.pass.base (call_of self.old op) acted.reply work.old work.new) }
        ensures looked { OnErr result (HasLooked self.old self.new) }
        ensures same { OnErr result (IsSameCopy work.old work.new) }
        ensures ends { always_acts op ≡ true → IsTrue (is_ok result) }
    {
        in_turn(rt, court, &mut self.caller, room, op, work, past)
    }

    /// Makes an await: true where the tag was posted, false where nobody is left who could post it. It takes one turn after
    /// another, and sleeps in between. Where there is no memory the agent may have begun to wait; its next await of the tag goes
    /// on with that.
    pub fn await_tag<R: Wait>(
        &mut self,
        rt: &R,
        court: &Hall<S>,
        tag: &Text,
    ) -> Result<bool, AllocError>
        requires own { self.old.pass.hall ≡ court.now }
        requires room { HasRoom self.old }
        ensures awaited { IfOk result (λ posted. HasAwaited S.tells self.old self.new tag.now (await_reply posted)) }
        ensures waited { OnErr result (HasWaited S.tells self.old self.new tag.now) }
    {
        await_turns(rt, self.alloc, court, &mut self.caller, tag)
    }

    /// Makes one turn of an await, without sleep: it is answered, begins to wait, or goes on waiting. It waits only where, in
    /// this turn, the tag was not posted and somebody was left who could post it. Its next await of the tag goes on with that.
    /// Where there is no memory nothing is entered.
    pub fn await_once<R: Wait>(
        &mut self,
        rt: &R,
        court: &Hall<S>,
        tag: &Text,
    ) -> Result<AwaitTurn, AllocError>
        requires own { self.old.pass.hall ≡ court.now }
        requires room { HasWaitRoom self.old }
        ensures { IsAwaitTurn S.tells self.old self.new tag.now result }
    {
        await_turn(rt, self.alloc, court, &mut self.caller, tag)
    }

    /// Takes the turn without a call: enters the local calls that it kept, and hands the turn on. Takes no memory.
    pub fn enter_pending<R: Wait>(&mut self, rt: &R, court: &Hall<S>)
        requires own { self.old.pass.hall ≡ court.now }
        requires room { HasRoom self.old }
        ensures { HasEnteredPending S.tells self.old self.new }
    {
        enter_pending(rt, court, &mut self.caller);
    }

    /// Takes the turn behind a watch without a call, and hands it on: the agent has then seen all that the watch has. Takes no memory.
    pub fn look_behind<R: Wait>(&mut self, rt: &R, court: &Hall<S>, watch: &mut Watch<S>)
        requires own { self.old.pass.hall ≡ court.now }
        requires watch { watch.old.pass.hall ≡ court.now }
        ensures looked { HasLooked self.old self.new }
        ensures behind { IsPrefix (S.entries watch.old.last) self.new.pass.base }
        ensures same { watch.new ≡ watch.old }
    {
        look_behind(rt, court, &mut self.caller, watch);
    }

    /// Lets a watch of the store's hall know what the agent has seen.
    pub fn show(&mut self, court: &Hall<S>, watch: &mut Watch<S>)
        requires own { self.old.pass.hall ≡ court.now }
        requires watch { watch.old.pass.hall ≡ court.now }
        ensures same { self.new ≡ self.old }
        ensures base { watch.new.pass ≡ record watch.old.pass { base = self.old.pass.base } }
        ensures last { watch.new.last ≡ watch.old.last }
    {
        watch.learn(court, &mut self.caller.pass);
    }

    /// Keeps a local call with its answer until the next turn. Takes no memory.
    pub fn keep(&mut self, room: Room, op: Op, reply: Reply, made: u32)
        requires room { HasRoom self.old }
        requires local { IsLocal S.tells self.old op reply made }
        requires few { made ≤ 1 }
        ensures { IsKept self.old self.new op reply made }
    {
        let entry = Entry {
            agent: self.caller.pass.agent(),
            number: self.caller.notes.number,
            op,
            reply,
            turn: false,
        };
        self.caller.notes.pending.add(room, entry);
        self.caller.notes.number += 1;
        self.caller.notes.entries += 1;
        self.caller.notes.rows += made;
    }

    /// Ends an agent that has nothing open, and gives its pass. Takes no memory.
    pub fn end<R: Wait>(self, rt: &R, court: &Hall<S>) -> Pass<S>
        requires own { self.pass.hall ≡ court.now }
        requires room { HasRoom self }
        requires none { IsTrue (may_enter (state_of self) self.pass.agent op.End) }
        ensures { HasEnded S.tells self result }
    {
        let Turns {
            mut caller,
            room,
            alloc,
        } = self;
        let mut work = Work::fresh(alloc);
        let Ok(_) = in_turn(rt, court, &mut caller, room, Op::End, &mut work, &[]) else {
            unreachable!();
        };
        let Caller { pass, notes: _ } = caller;
        pass
    }
}
