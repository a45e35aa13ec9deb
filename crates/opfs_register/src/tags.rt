//! Tags: posted, waited for, and who is stuck.

ghost use Rattle.std.specs.Prelude.{◌≡◌, ◌<◌, ◌++◌, suc, true, [], ◌∷◌, Some, None, IsSome, IfOk, OnOk, OnErr, length, slice_set};
ghost use Rattle.std.specs.List.{list_all, enumerate_from};
ghost use Rattle.std.specs.Option.{option_copied};
ghost use Rattle.opfs_machine.specs.Agents.{agent_in, party_of, party_with, same_party, is_posted, is_unposted, is_no_help, others_stuck, waits_for};
ghost use Rattle.opfs_machine.specs.declared.state.Posted.{Posted};
ghost use Rattle.opfs_register.specs.Registers.{bare};

use crate::register::Register;
use opfs_base::Bytes;
use opfs_machine::Party;
use std::alloc::{AllocError, Global};

impl Register {
    // The party of an agent.
    fn party(&self, alloc: Global, at: usize) -> Result<Party, AllocError>
        requires { at < length self.now.agents }
        ensures { IfOk result (λ party. party ≡ party_of (bare self.now) (suc at)) }
    {
        match self.key(at) {
            Some(key) => Ok(Party::Origin(key.copy(alloc)?)),
            None => Ok(Party::Alone(self.number(at))),
        }
    }

    // The number of an agent, counted from 1.
    fn number(&self, at: usize) -> u32
        requires { at < length self.now.agents }
        ensures { result ≡ suc at }
    {
        let _agents = self.agents();
        at as u32 + 1
    }

    /// Makes a tag of an agent's party ready to be posted or waited for.
    pub fn prepare_tag(&mut self, alloc: Global, at: usize, tag: &[u8]) -> Result<(), AllocError>
        requires { at < length self.old.agents }
        ensures ok { OnOk result (self.new ≡ record self.old { ready = Some (record { party = party_of (bare self.old) (suc at); tag = tag.now }) }) }
        ensures err { OnErr result (self.new ≡ self.old) }
    {
        let party = self.party(alloc, at)?;
        self.posts.prepare(alloc, party, tag)
    }

    /// Posts the tag that is ready. Takes no memory.
    pub fn post(&mut self)
        requires { IsSome self.old.ready }
        ensures { (ready : Posted) → self.old.ready ≡ Some ready → self.new ≡ record self.old { posted = self.old.posted ++ ready ∷ []; ready = None } }
    {
        self.posts.post();
    }

    /// Lets an agent wait for the tag that is ready. Takes no memory.
    pub fn wait(&mut self, at: usize)
        requires inside { at < length self.old.agents }
        requires ready { IsSome self.old.ready }
        ensures { (ready : Posted) → self.old.ready ≡ Some ready → self.new ≡ record self.old { agents = slice_set self.old.agents at (record (agent_in self.old.agents (suc at)) { waits = Some ready.tag }); ready = None } }
    {
        let tag = self.posts.take();
        self.seats.set_waits(at, Some(tag));
    }

    /// Lets an agent wait no more. Takes no memory.
    pub fn stop_waiting(&mut self, at: usize)
        requires { at < length self.old.agents }
        ensures { self.new ≡ record self.old { agents = slice_set self.old.agents at (record (agent_in self.old.agents (suc at)) { waits = None }) } }
    {
        self.seats.set_waits(at, None);
    }

    /// Whether an agent waits for a tag.
    pub fn waits_for(&self, at: usize, tag: &[u8]) -> bool
        requires { at < length self.now.agents }
        ensures { result ≡ waits_for (agent_in self.now.agents (suc at)).waits tag.now }
    {
        match &self.seats.seat(at).waits {
            Some(other) => other.as_slice() == tag,
            None => false,
        }
    }

    /// Whether a tag was posted among those of an agent's party.
    pub fn is_posted(&self, at: usize, tag: &[u8]) -> bool
        requires { at < length self.now.agents }
        ensures { result ≡ is_posted (bare self.now) (party_of (bare self.now) (suc at)) tag.now }
    {
        match self.key(at) {
            Some(key) => self.posts.is_posted_of_origin(key, tag),
            None => self.posts.is_posted_of_agent(self.number(at), tag),
        }
    }

    // Whether a tag that is waited for was not posted among those of an agent's party.
    fn is_unposted(&self, at: usize, waits: Option<&Bytes>) -> bool
        requires { at < length self.now.agents }
        ensures { result ≡ is_unposted (bare self.now) (party_of (bare self.now) (suc at)) (option_copied waits.entry) }
    {
        match waits {
            Some(tag) => !self.is_posted(at, tag.as_slice()),
            None => false,
        }
    }

    // Whether two agents are of one party.
    fn is_same_party(&self, at: usize, other: usize) -> bool
        requires at { at < length self.now.agents }
        requires other { other < length self.now.agents }
        ensures { result ≡ same_party (party_of (bare self.now) (suc at)) (party_of (bare self.now) (suc other)) }
    {
        match (self.key(at), self.key(other)) {
            (Some(key), Some(other)) => *key == *other,
            (None, None) => at == other,
            _ => false,
        }
    }

    // Whether another agent does not help an agent that waits.
    fn is_no_help(&self, at: usize, other: usize) -> bool
        requires at { at < length self.now.agents }
        requires other { other < length self.now.agents }
        ensures { result ≡ is_no_help (bare self.now) (suc at) (party_of (bare self.now) (suc at)) (suc other, agent_in self.now.agents (suc other)) }
    {
        let seat = self.seats.seat(other);
        other == at
            || !seat.live
            || !self.is_same_party(at, other)
            || self.is_unposted(at, seat.waits.as_ref())
    }

    /// Whether every other live agent of an agent's party is stuck. Looks at each agent once.
    pub fn others_stuck(&self, at: usize) -> bool
        requires { at < length self.now.agents }
        ensures { result ≡ others_stuck (bare self.now) (suc at) }
    {
        for other in 0..self.agents() {
            if !self.is_no_help(at, other) {
                return false;
            }
        }
        true
    }
}
