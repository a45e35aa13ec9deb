//! The store under the agents.

use crate::acts::acted::{Acted, AwaitState};
use opfs_base::Name;
use opfs_hall::Chronicle;
use opfs_hist::{Entry, Given, Op, Pending, Room};
use opfs_work::Work;
use std::alloc::AllocError;

/// A store that many agents share, one call at a time. Its history is legal from its opening.
pub trait Store: Chronicle<Entry = Entry> {
    ghost use Rattle.std.specs.Prelude.{◌≡◌, [], ◌++◌, ◌+◌, ◌^◌, ◌<◌, ◌≤◌, ℕ, drop, length, IfOk, OnErr, is_ok, IsTrue, true};
    ghost use Rattle.opfs_hist.specs.Faults.{disk_faults};
    ghost use Rattle.opfs_hist.specs.declared.entry.Entry.{Entry};
    ghost use Rattle.opfs_machine.specs.Agents.{agent_of, waits_for};
    ghost use Rattle.opfs_machine.specs.Histories.{state_after};
    ghost use Rattle.opfs_machine.specs.Openings.{Opening};
    ghost use Rattle.opfs_laws.specs.Histories.Unread.{IsTold};
    ghost use Rattle.opfs_outside.specs.Faults.{RoseBy};
    ghost use Rattle.opfs_store.specs.Acts.Asking.{MayAct, MayTakePending, IsThere};
    ghost use Rattle.opfs_store.specs.Acts.Acting.{in_hand, IsServed, IsUnserved, always_acts, awaited};

    /// Whether the bytes that it gives are told. It is no function of the value.
    ghost tells: { Type 0 };

    /// The machine's opening.
    ghost opened: { Self.Opening → Opening };

    /// How often its disk has failed.
    ghost faults: { Self → ℕ };

    /// How often its disk had failed when it was opened.
    ghost faults_before: { Self.Opening → ℕ };

    /// What the store's type keeps at each moment, besides its history: for a desk, that each image which a stop may leave from now on has
    /// what was stored.
    ghost keeps: { Self → Type 0 };

    /// Makes one shared call: takes in the agent's pending calls, clears units where the call needs room, and enters the
    /// call with its reply. A disk fault is answered only where the count of the disk's faults rose in this call; it never falls.
    /// Where there is no memory nothing is entered, and the working copy has another room at most; abort, discard and end
    /// take none.
    fn act(
        &mut self,
        agent: u32,
        number: u32,
        pending: &mut Pending,
        room: Room,
        op: Op,
        work: &mut Work,
        past: &[Name],
    ) -> Result<Acted, AllocError>
        requires may { MayAct tells (opened (Self.opening self.old)) (Self.entries self.old) pending.old (record { agent = agent; number = number; op = op }) work.old past.now }
        ensures opening { Self.opening self.new ≡ Self.opening self.old }
        ensures risen { faults self.old ≤ faults self.new }
        ensures goes { Self.goes_on self.old self.new }
        ensures served { IfOk result (λ acted. IsServed tells (opened (Self.opening self.old)) (in_hand (Self.entries self.old) (faults self.old) pending.old work.old) (in_hand (Self.entries self.new) (faults self.new) pending.new work.new) (record { agent = agent; number = number; op = op }) acted) }
        ensures unserved { OnErr result (IsUnserved (in_hand (Self.entries self.old) (faults self.old) pending.old work.old) (in_hand (Self.entries self.new) (faults self.new) pending.new work.new)) }
        ensures ends { always_acts op ≡ true → IsTrue (is_ok result) };

    /// Takes in an agent's pending calls, without a call. Takes no memory, and calls no disk.
    fn take_in(&mut self, agent: u32, pending: &mut Pending)
        requires may { MayTakePending tells (opened (Self.opening self.old)) (Self.entries self.old) pending.old agent }
        ensures opening { Self.opening self.new ≡ Self.opening self.old }
        ensures faults { faults self.new ≡ faults self.old }
        ensures goes { Self.goes_on self.old self.new }
        ensures entries { Self.entries self.new ≡ Self.entries self.old ++ pending.old }
        ensures taken { pending.new ≡ [] };

    /// How a tag stands for an agent (this project's own). Takes no memory.
    fn await_state(&self, agent: u32, tag: &str) -> AwaitState
        requires { IsThere (state_after (opened (Self.opening self.now)) (Self.entries self.now)) agent }
        ensures { result ≡ awaited (state_after (opened (Self.opening self.now)) (Self.entries self.now)) agent tag.now };

    /// Whether an agent waits for a tag (this project's own). Takes no memory.
    fn waits_for(&self, agent: u32, tag: &str) -> bool
        requires { IsThere (state_after (opened (Self.opening self.now)) (Self.entries self.now)) agent }
        ensures { result ≡ waits_for (agent_of (state_after (opened (Self.opening self.now)) (Self.entries self.now)) agent).waits tag.now };

    /// Gives out the entries that were not given out before. It stands for the same history, and no longer holds them. Takes no
    /// memory.
    fn give_out(&mut self) -> Given
        ensures kept { self.new ≡ self.old }
        ensures entries { result.entries ≡ drop result.place (Self.entries self.old) }
        ensures place { result.place + length result.entries ≡ length (Self.entries self.old) }
        ensures fits { result.place + length result.entries < 2 ^ 63 };

    /// What the store's type keeps: its history is legal, but for the bytes of reads where it does not tell.
    fn know_legal(&self)
        ensures { IsTold tells (opened (Self.opening self.now)) (Self.entries self.now) };

    /// What the store's type keeps of faults: each entry that tells of a disk fault has its own rise of the count since the
    /// store was opened.
    fn know_counts(&self)
        ensures { RoseBy (disk_faults (Self.entries self.now)) (faults_before (Self.opening self.now)) (faults self.now) };

    /// What its type keeps at this moment.
    fn know_kept(&self)
        ensures { keeps self.now };

    /// An entry is its agent's.
    ghost owned: { (e : Entry) → Self.owner e ≡ e.agent };
}
