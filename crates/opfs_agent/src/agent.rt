//! An agent, and how it makes its calls.

ghost use Rattle.std.specs.Prelude.{◌≡◌, ◌≤◌, false, true, [], IfOk, IfErr, OnOk, OnErr, IsTrue};
ghost use Rattle.std.specs.Option.{option_copied};
ghost use Rattle.opfs_hall.specs.History.{IsPrefix};
ghost use Rattle.opfs_hist.specs.declared.op.Op.TheVariants as op;
ghost use Rattle.opfs_hist.specs.declared.reply.Reply.TheVariants as reply;
ghost use Rattle.opfs_machine.specs.Histories.{may_enter};
ghost use Rattle.opfs_machine.specs.Steps.{is_refusal};
ghost use Rattle.opfs_laws.specs.Leaving.{is_end};
ghost use Rattle.opfs_store.specs.Acts.Acting.{IsSameCopy, StandsForLeft, row_left, always_acts};
ghost use Rattle.opfs_turns.specs.Agents.{state_of, known, IsAgent};
ghost use Rattle.opfs_turns.specs.Calls.{HasRoom, MayAsk, new_agent, MayBegin, HasEnded, HasLooked, IsEntered, IsKept, IsLocal};
ghost use Rattle.opfs_turns.specs.Asking.Answers.{Shared, MayAskPlainly, IsAnsweredBy, IsFlag, IsLength, IsRead};
ghost use Rattle.opfs_turns.specs.Asking.Locals.{Local, Stopped, IsWhy};
ghost use Rattle.opfs_turns.specs.Entering.{HasEnteredPending};

use opfs_base::{Bytes, Key};
use opfs_hall::{Hall, Pass, Watch};
use opfs_hist::{Op, Refusal, Reply, Room};
use opfs_store::{Acted, Store};
use opfs_turns::{
    Stop, Turns, ask, ask_bytes, ask_done, ask_flag, ask_length, ask_row, keep_call, keep_refusal,
};
use opfs_work::Work;
use std::alloc::Global;
use std::marker::Model;
use std::sync::Wait;

/// An agent of a store: a page, a worker or a script (HTML: agent), with its calls by the names of the Standards. A store whose
/// agent is dropped before it has ended can't be taken out of its hall.
pub struct Agent<S: Store> {
    pub(crate) turns: Turns<S>,
    pub(crate) alloc: Global,
}

impl<S: Store> Model for Agent<S> {
    ghost use Rattle.opfs_turns.specs.Agents.{AgentSeen};

    ghost Value = { AgentSeen S.Opening };

    ghost view = { λ a. a.turns };
}

impl<S: Store> Drop for Agent<S> {
    fn drop(self) {
        let Self { turns: _, alloc: _ } = self;
    }
}

impl<S: Store> Agent<S> {
    /// An agent of this key, with a pass of the store's hall. It gives the pass back where memory is short.
    pub fn make(alloc: Global, pass: Pass<S>, key: Option<Key>) -> Result<Agent<S>, Pass<S>>
        requires { MayBegin S.opened pass key }
        ensures made { IfOk result (λ agent. agent ≡ new_agent S.opened pass key) }
        ensures err { IfErr result (λ back. back ≡ pass) }
    {
        let turns = Turns::make(alloc, pass, key)?;
        Ok(Agent { turns, alloc })
    }

    /// The same, with room for the entry of its end. Takes no memory.
    pub fn begin(alloc: Global, pass: Pass<S>, key: Option<Key>, room: Room) -> Agent<S>
        requires { MayBegin S.opened pass key }
        ensures { result ≡ new_agent S.opened pass key }
    {
        let turns = Turns::begin(alloc, pass, key, room);
        Agent { turns, alloc }
    }

    /// Ends an agent that has nothing open, and gives its pass. Takes no memory.
    pub fn end<R: Wait>(self, rt: &R, court: &Hall<S>) -> Pass<S>
        requires own { self.pass.hall ≡ court.now }
        requires room { HasRoom self }
        requires none { IsTrue (may_enter (state_of self) self.pass.agent op.End) }
        ensures { HasEnded S.tells self result }
    {
        let Agent { turns, alloc: _ } = self;
        turns.end(rt, court)
    }

    /// Takes the turn without a call: enters the local calls that it kept, and hands the turn on. Takes no memory.
    pub fn enter_pending<R: Wait>(&mut self, rt: &R, court: &Hall<S>)
        requires own { self.old.pass.hall ≡ court.now }
        requires room { HasRoom self.old }
        ensures { HasEnteredPending S.tells self.old self.new }
    {
        self.turns.enter_pending(rt, court);
    }

    /// Takes the turn behind a watch without a call, and hands it on: the agent has then seen all that the watch has. Takes no memory.
    pub fn look_behind<R: Wait>(&mut self, rt: &R, court: &Hall<S>, watch: &mut Watch<S>)
        requires own { self.old.pass.hall ≡ court.now }
        requires watch { watch.old.pass.hall ≡ court.now }
        ensures looked { HasLooked self.old self.new }
        ensures behind { IsPrefix (S.entries watch.old.last) self.new.pass.base }
        ensures same { watch.new ≡ watch.old }
    {
        self.turns.look_behind(rt, court, watch);
    }

    /// Lets a watch of the store's hall know what the agent has seen.
    pub fn show(&mut self, court: &Hall<S>, watch: &mut Watch<S>)
        requires own { self.old.pass.hall ≡ court.now }
        requires watch { watch.old.pass.hall ≡ court.now }
        ensures same { self.new ≡ self.old }
        ensures base { watch.new.pass ≡ record watch.old.pass { base = self.old.pass.base } }
        ensures last { watch.new.last ≡ watch.old.last }
    {
        self.turns.show(court, watch);
    }

    /// Its number.
    pub fn number(&self) -> u32
        ensures { result ≡ self.now.pass.agent }
    {
        self.turns.agent()
    }

    /// The memory that it takes.
    pub fn alloc(&self) -> Global {
        self.alloc
    }

    /// How many streams, access handles, snapshots and iterators it has made.
    pub fn rows(&self) -> u32
        ensures { result ≡ self.now.rows }
    {
        self.turns.rows()
    }

    /// How many entries it has, waits among them.
    pub fn entries(&self) -> u32
        ensures { result ≡ self.now.entries }
    {
        self.turns.entries()
    }

    /// The number of its next call; waits have none of their own.
    pub fn next_number(&self) -> u32
        ensures { result ≡ self.now.number }
    {
        self.turns.next_number()
    }

    /// The key of its origin; None where that is opaque.
    pub fn key(&self) -> Option<&Key>
        ensures { option_copied result ≡ self.now.key }
    {
        self.turns.key()
    }

    /// What the type keeps.
    pub fn know_kept(&self)
        ensures { IsAgent S.tells self.now }
    {
        self.turns.know_kept();
    }

    // Makes a shared call that names no open row.
    pub(crate) fn ask<R: Wait>(&mut self, rt: &R, court: &Hall<S>, op: Op) -> Result<Acted, Stop>
        requires own { self.old.pass.hall ≡ court.now }
        requires room { HasRoom self.old }
        requires may { MayAskPlainly self.old op }
        ensures { Shared S.tells self.old self.new op (λ acted answered given. (acted.reply ≡ answered) × (acted.gift ≡ given)) result }
    {
        ask(rt, self.alloc, &mut self.turns, court, op)
    }

    // Makes a shared call that names no open row, and that is answered by Done alone.
    pub(crate) fn ask_done<R: Wait>(&mut self, rt: &R, court: &Hall<S>, op: Op) -> Result<(), Stop>
        requires own { self.old.pass.hall ≡ court.now }
        requires room { HasRoom self.old }
        requires may { MayAskPlainly self.old op }
        requires answer { IsAnsweredBy op (λ answered. answered ≡ reply.Done) }
        ensures { Shared S.tells self.old self.new op (λ _ answered _. answered ≡ reply.Done) result }
    {
        ask_done(rt, self.alloc, &mut self.turns, court, op)
    }

    // Makes a shared call that names no open row, and that is answered by yes or no alone.
    pub(crate) fn ask_flag<R: Wait>(
        &mut self,
        rt: &R,
        court: &Hall<S>,
        op: Op,
    ) -> Result<bool, Stop>
        requires own { self.old.pass.hall ≡ court.now }
        requires room { HasRoom self.old }
        requires may { MayAskPlainly self.old op }
        requires answer { IsAnsweredBy op IsFlag }
        ensures { Shared S.tells self.old self.new op (λ flag answered _. answered ≡ reply.Flag flag) result }
    {
        ask_flag(rt, self.alloc, &mut self.turns, court, op)
    }

    // Makes a shared call on an open row, with its working copy, or one that makes an open row, with a fresh one, and that is
    // answered by Done alone.
    pub(crate) fn ask_row<R: Wait>(
        &mut self,
        rt: &R,
        court: &Hall<S>,
        op: Op,
        work: &mut Work,
    ) -> Result<(), Stop>
        requires own { self.old.pass.hall ≡ court.now }
        requires room { HasRoom self.old }
        requires may { MayAsk S.tells self.old op work.old [] }
        requires stays { is_end op ≡ false }
        requires answer { IsAnsweredBy op (λ answered. answered ≡ reply.Done) }
        ensures shared { Shared S.tells self.old self.new op (λ _ answered _. answered ≡ reply.Done) result }
        ensures left { OnOk result (StandsForLeft S.tells self.new.opening (known self.new) self.new.pass.agent (row_left self.new.rows op) work.new) }
        ensures same { OnErr result (IsSameCopy work.old work.new) }
    {
        ask_row(rt, self.alloc, &mut self.turns, court, op, work)
    }

    // The same of a call that is answered by a number of bytes alone.
    pub(crate) fn ask_length<R: Wait>(
        &mut self,
        rt: &R,
        court: &Hall<S>,
        op: Op,
        work: &mut Work,
    ) -> Result<u64, Stop>
        requires own { self.old.pass.hall ≡ court.now }
        requires room { HasRoom self.old }
        requires may { MayAsk S.tells self.old op work.old [] }
        requires stays { is_end op ≡ false }
        requires answer { IsAnsweredBy op IsLength }
        ensures shared { Shared S.tells self.old self.new op (λ count answered _. answered ≡ reply.Length count) result }
        ensures left { OnOk result (StandsForLeft S.tells self.new.opening (known self.new) self.new.pass.agent (row_left self.new.rows op) work.new) }
        ensures same { OnErr result (IsSameCopy work.old work.new) }
    {
        ask_length(rt, self.alloc, &mut self.turns, court, op, work)
    }

    // The same of a call that is answered by bytes alone.
    pub(crate) fn ask_bytes<R: Wait>(
        &mut self,
        rt: &R,
        court: &Hall<S>,
        op: Op,
        work: &mut Work,
    ) -> Result<Bytes, Stop>
        requires own { self.old.pass.hall ≡ court.now }
        requires room { HasRoom self.old }
        requires may { MayAsk S.tells self.old op work.old [] }
        requires stays { is_end op ≡ false }
        requires answer { IsAnsweredBy op IsRead }
        ensures shared { Shared S.tells self.old self.new op (λ bytes answered _. answered ≡ reply.Read bytes) result }
        ensures left { OnOk result (StandsForLeft S.tells self.new.opening (known self.new) self.new.pass.agent (row_left self.new.rows op) work.new) }
        ensures same { OnErr result (IsSameCopy work.old work.new) }
    {
        ask_bytes(rt, self.alloc, &mut self.turns, court, op, work)
    }

    // Keeps a local call with its answer. Takes no memory.
    pub(crate) fn keep(&mut self, room: Room, op: Op, reply: Reply, made: u32)
        requires room { HasRoom self.old }
        requires local { IsLocal S.tells self.old op reply made }
        requires few { made ≤ 1 }
        ensures { IsKept self.old self.new op reply made }
    {
        self.turns.keep(room, op, reply, made);
    }

    // Makes a shared call that is never refused, and that spends its row, with the place of its entry. Takes no memory.
    pub(crate) fn end_row<R: Wait>(
        &mut self,
        rt: &R,
        court: &Hall<S>,
        room: Room,
        op: Op,
        work: &mut Work,
    ) -> Acted
        requires own { self.old.pass.hall ≡ court.now }
        requires room { HasRoom self.old }
        requires may { MayAsk S.tells self.old op work.old [] }
        requires stays { is_end op ≡ false }
        requires always { always_acts op ≡ true }
        ensures { IsEntered S.tells self.old self.new op result.reply result.gift }
    {
        let Ok(acted) = self.turns.call(rt, court, room, op, work, &[]) else {
            unreachable!();
        };
        acted
    }

    // Keeps a local call that is not refused, with its answer.
    pub(crate) fn keep_call(&mut self, op: Op, reply: Reply, made: u32) -> Result<(), Stop>
        requires room { HasRoom self.old }
        requires local { IsLocal S.tells self.old op reply made }
        requires few { made ≤ 1 }
        requires accepted { is_refusal reply ≡ false }
        ensures { Local S.tells self.old self.new op made (λ _ answered. answered ≡ reply) result }
    {
        keep_call(self.alloc, &mut self.turns, op, reply, made)
    }

    // Keeps a local call that is refused, and tells why it gives nothing.
    pub(crate) fn keep_refusal(&mut self, op: Op, refusal: Refusal) -> Stop
        requires room { HasRoom self.old }
        requires local { IsLocal S.tells self.old op (reply.No refusal) 0 }
        ensures stopped { Stopped S.tells self.old self.new op result }
        ensures why { IsWhy result refusal }
    {
        keep_refusal(self.alloc, &mut self.turns, op, refusal)
    }
}
