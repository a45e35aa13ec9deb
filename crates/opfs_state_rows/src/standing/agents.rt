//! What agents do without files: they use the store, wait, post and end.

ghost use Rattle.std.specs.Prelude.{◌≡◌, ◌+◌, ◌<◌, ◌≤◌, ◌^◌, ◌++◌, ◌∷◌, [], suc, false, Some, None, IsSome, OnOk, OnErr, length};
ghost use Rattle.opfs_machine.specs.Agents.{agent_of, with_agent, adds_own, counted, party_of};
ghost use Rattle.opfs_machine.specs.Effects.{with_waiting};
ghost use Rattle.opfs_machine.specs.declared.own.Outline.TheVariants as outline;
ghost use Rattle.opfs_machine.specs.declared.state.Posted.{Posted};
ghost use Rattle.opfs_register.specs.Slots.{most_rows};
ghost use Rattle.opfs_state_rows.specs.Standing.Noted.{with_sum};

use crate::standing::standing::Standing;
use opfs_hist::PendingSum;
use std::alloc::{AllocError, Global};

impl Standing {
    /// Makes room for one row more of an agent, or leaves all as it was.
    pub fn prepare_own(&mut self, at: usize) -> Result<(), AllocError>
        requires { at < length self.old.machine.agents }
        ensures ok { OnOk result (self.new ≡ record self.old { prepared = record self.old.prepared { room = Some at } }) }
        ensures err { OnErr result (self.new ≡ self.old) }
    {
        self.register.prepare_row(at)?;
        Ok(())
    }

    /// Makes a tag of an agent's party ready to be posted or waited for, or leaves all as it was.
    pub fn prepare_tag(&mut self, alloc: Global, at: usize, tag: &[u8]) -> Result<(), AllocError>
        requires { at < length self.old.machine.agents }
        ensures ok { OnOk result (self.new ≡ record self.old { prepared = record self.old.prepared { tag = Some (record { party = party_of self.old.machine (suc at); tag = tag.now }) } }) }
        ensures err { OnErr result (self.new ≡ self.old) }
    {
        self.register.prepare_tag(alloc, at, tag)?;
        Ok(())
    }

    /// Takes in the sum of an agent's local calls. Takes no memory.
    pub fn note(&mut self, at: usize, sum: PendingSum)
        requires inside { at < length self.old.machine.agents }
        requires few { length (agent_of self.old.machine (suc at)).own + sum.rows ≤ most_rows }
        requires entries { self.old.machine.entries + sum.entries < 2 ^ 64 }
        ensures { self.new ≡ record self.old { machine = with_sum self.old.machine at sum } }
    {
        self.register.note(at, sum);
    }

    /// Counts one entry of an agent, which is the last use of its origin. Takes no memory.
    pub fn count(&mut self, at: usize)
        requires inside { at < length self.old.machine.agents }
        requires entries { self.old.machine.entries + 1 < 2 ^ 64 }
        ensures { self.new ≡ record self.old { machine = counted self.old.machine (suc at) } }
    {
        self.register.count(at);
    }

    /// Gives an agent that has room a snapshot. Takes no memory.
    pub fn add_snapshot(&mut self, at: usize)
        requires inside { at < length self.old.machine.agents }
        requires room { self.old.prepared.room ≡ Some at }
        requires few { length (agent_of self.old.machine (suc at)).own < most_rows }
        ensures { self.new ≡ record self.old { machine = adds_own self.old.machine (suc at) outline.Snapshot; prepared = record self.old.prepared { room = None } } }
    {
        self.register.add_snapshot(at);
    }

    /// Gives an agent one iterator more. Takes no memory.
    pub fn add_iterator(&mut self, at: usize)
        requires inside { at < length self.old.machine.agents }
        requires few { length (agent_of self.old.machine (suc at)).own < most_rows }
        ensures { self.new ≡ record self.old { machine = adds_own self.old.machine (suc at) outline.Iterator } }
    {
        self.register.add_iterator(at);
    }

    /// Posts the tag that is ready. Takes no memory.
    pub fn post(&mut self)
        requires { IsSome self.old.prepared.tag }
        ensures { (ready : Posted) → self.old.prepared.tag ≡ Some ready → self.new ≡ record self.old { machine = record self.old.machine { posted = self.old.machine.posted ++ ready ∷ [] }; prepared = record self.old.prepared { tag = None } } }
    {
        self.register.post();
    }

    /// Lets an agent wait for the tag that is ready. Takes no memory.
    pub fn wait(&mut self, at: usize)
        requires inside { at < length self.old.machine.agents }
        requires ready { IsSome self.old.prepared.tag }
        ensures { (ready : Posted) → self.old.prepared.tag ≡ Some ready → self.new ≡ record self.old { machine = with_waiting self.old.machine (suc at) (Some ready.tag); prepared = record self.old.prepared { tag = None } } }
    {
        self.register.wait(at);
    }

    /// Lets an agent wait no more. Takes no memory.
    pub fn stop_waiting(&mut self, at: usize)
        requires { at < length self.old.machine.agents }
        ensures { self.new ≡ record self.old { machine = with_waiting self.old.machine (suc at) None } }
    {
        self.register.stop_waiting(at);
    }

    /// Ends an agent's script. Takes no memory.
    pub fn end_agent(&mut self, at: usize)
        requires { at < length self.old.machine.agents }
        ensures { self.new ≡ record self.old { machine = with_agent self.old.machine (suc at) (record (agent_of self.old.machine (suc at)) { live = false; waits = None }) } }
    {
        self.register.end_agent(at);
    }
}
