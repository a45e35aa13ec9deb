//! Buckets, and how a party's agents tell one another (Storage: persist, persisted; tags are this project's own).

ghost use Rattle.std.specs.Prelude.{◌≡◌, Some, IfOk};
ghost use Rattle.opfs_hist.specs.declared.op.Op.TheVariants as op;
ghost use Rattle.opfs_hist.specs.declared.reply.Reply.TheVariants as reply;
ghost use Rattle.opfs_turns.specs.Calls.{HasRoom};
ghost use Rattle.opfs_turns.specs.Asking.Answers.{Shared};
ghost use Rattle.opfs_turns.specs.Waiting.{HasWaitRoom, IsAwaitTurn};
ghost use Rattle.opfs_agent.specs.Awaiting.{Awaits};
ghost use Rattle.opfs_agent.specs.Entries.{root_of};

use crate::agent::Agent;
use opfs_base::{Kind, Locator, Path, Text, unit_of};
use opfs_hall::Hall;
use opfs_hist::{Op, Refusal};
use opfs_store::Store;
use opfs_turns::{AwaitTurn, Stop, ask_estimate};
use std::alloc::AllocError;
use std::sync::Wait;

impl<S: Store> Agent<S> {
    /// Makes a bucket of the agent's origin persistent where it has the grant, and tells whether it is (Storage: persist).
    #[tactic(auto, using(opfs_turns::proofs::asking::Shares::looked_none), unfolding(opfs_machine::specs::Histories::may_enter, opfs_store::specs::Acts::Asking::HasSmallNumbers, opfs_machine::specs::Replies::answer))]
    pub fn persist<R: Wait>(&mut self, rt: &R, court: &Hall<S>, bucket: &Text) -> Result<bool, Stop>
        requires own { self.old.pass.hall ≡ court.now }
        requires room { HasRoom self.old }
        ensures { Shared S.tells self.old self.new (op.Persist bucket.now) (λ flag answered _. answered ≡ reply.Flag flag) result }
    {
        let Ok(bucket) = bucket.copy(self.alloc) else {
            return Err(Stop::NoMemory);
        };
        self.ask_flag(rt, court, Op::Persist { bucket })
    }

    /// Tells whether a bucket of the agent's origin is persistent (Storage: persisted).
    #[tactic(auto, using(opfs_turns::proofs::asking::Shares::looked_none), unfolding(opfs_machine::specs::Histories::may_enter, opfs_store::specs::Acts::Asking::HasSmallNumbers, opfs_machine::specs::Replies::answer))]
    pub fn persisted<R: Wait>(
        &mut self,
        rt: &R,
        court: &Hall<S>,
        bucket: &Text,
    ) -> Result<bool, Stop>
        requires own { self.old.pass.hall ≡ court.now }
        requires room { HasRoom self.old }
        ensures { Shared S.tells self.old self.new (op.Persisted bucket.now) (λ flag answered _. answered ≡ reply.Flag flag) result }
    {
        let Ok(bucket) = bucket.copy(self.alloc) else {
            return Err(Stop::NoMemory);
        };
        self.ask_flag(rt, court, Op::Persisted { bucket })
    }

    /// Gives the locator of a bucket's root, and makes the root where it is missing (Storage: obtain a local storage bottle
    /// map; File System: getDirectory).
    #[tactic(auto, using(opfs_turns::proofs::asking::Shares::looked_none), unfolding(opfs_machine::specs::Histories::may_enter, opfs_store::specs::Acts::Asking::HasSmallNumbers, opfs_machine::specs::Replies::answer))]
    pub fn get_directory<R: Wait>(
        &mut self,
        rt: &R,
        court: &Hall<S>,
        bucket: &Text,
    ) -> Result<Locator, Stop>
        requires own { self.old.pass.hall ≡ court.now }
        requires room { HasRoom self.old }
        ensures { Shared S.tells self.old self.new (op.GetDirectory bucket.now) (λ at answered _. (Some at ≡ root_of self.old.key bucket.now) × (answered ≡ reply.Done)) result }
    {
        self.know_kept();
        let Ok(root) = self.root(bucket) else {
            return Err(Stop::NoMemory);
        };
        let Ok(bucket) = bucket.copy(self.alloc) else {
            return Err(Stop::NoMemory);
        };
        self.ask_done(rt, court, Op::GetDirectory { bucket })?;
        let Some(root) = root else {
            // An agent without a key was refused.
            unreachable!();
        };
        Ok(root)
    }

    // The locator of a bucket's root; None without a key.
    fn root(&self, bucket: &Text) -> Result<Option<Locator>, AllocError>
        ensures { IfOk result (λ root. root ≡ root_of self.now.key bucket.now) }
    {
        let Some(origin) = self.key() else {
            return Ok(None);
        };
        let key = unit_of(self.alloc, origin, bucket.as_str())?;
        let path = Path::root(self.alloc);
        Ok(Some(Locator {
            key,
            path,
            kind: Kind::Directory,
        }))
    }

    /// Gives the usage and the quota of the agent's origin, in bytes (Storage: estimate).
    #[tactic(auto, using(opfs_turns::proofs::asking::Shares::looked_none), unfolding(opfs_machine::specs::Histories::may_enter, opfs_store::specs::Acts::Asking::HasSmallNumbers, opfs_machine::specs::Replies::answer))]
    pub fn estimate<R: Wait>(&mut self, rt: &R, court: &Hall<S>) -> Result<(u64, u64), Stop>
        requires own { self.old.pass.hall ≡ court.now }
        requires room { HasRoom self.old }
        ensures { Shared S.tells self.old self.new op.Estimate (λ told answered _. answered ≡ reply.Estimate told.0 told.1) result }
    {
        ask_estimate(rt, self.alloc, &mut self.turns, court, Op::Estimate)
    }

    /// Posts a tag for the agents of this one's party (this project's own).
    #[tactic(auto, using(opfs_turns::proofs::asking::Shares::looked_none), unfolding(opfs_machine::specs::Histories::may_enter, opfs_store::specs::Acts::Asking::HasSmallNumbers, opfs_machine::specs::Replies::answer))]
    pub fn post<R: Wait>(&mut self, rt: &R, court: &Hall<S>, tag: &Text) -> Result<(), Stop>
        requires own { self.old.pass.hall ≡ court.now }
        requires room { HasRoom self.old }
        ensures { Shared S.tells self.old self.new (op.Post tag.now) (λ _ answered _. answered ≡ reply.Done) result }
    {
        let Ok(tag) = tag.copy(self.alloc) else {
            return Err(Stop::NoMemory);
        };
        self.ask_done(rt, court, Op::Post { tag })
    }

    /// Waits until a tag is posted for its party, or nobody is left who could post it (this project's own). It takes a turn for
    /// each look, and sleeps in between. Of memory too little it may have begun to wait: its next await of the tag goes on.
    pub fn await_tag<R: Wait>(&mut self, rt: &R, court: &Hall<S>, tag: &Text) -> Result<(), Stop>
        requires own { self.old.pass.hall ≡ court.now }
        requires room { HasRoom self.old }
        ensures { Awaits S.tells self.old self.new tag.now result }
    {
        match self.turns.await_tag(rt, court, tag) {
            Ok(true) => Ok(()),
            Ok(false) => Err(Stop::No(Refusal::Stuck)),
            Err(_) => Err(Stop::NoMemory),
        }
    }

    /// Makes one turn of an await, and does not sleep (this project's own): it is answered, begins to wait, or goes on waiting.
    /// It waits only where, in this turn, the tag was not posted and somebody was left who could post it. The next await of the
    /// tag goes on with that. Where there is no memory nothing is entered.
    pub fn await_once<R: Wait>(
        &mut self,
        rt: &R,
        court: &Hall<S>,
        tag: &Text,
    ) -> Result<AwaitTurn, AllocError>
        requires own { self.old.pass.hall ≡ court.now }
        requires room { HasWaitRoom self.old }
        ensures { IsAwaitTurn S.tells self.old self.new tag.now result }
    {
        self.turns.await_once(rt, court, tag)
    }
}
