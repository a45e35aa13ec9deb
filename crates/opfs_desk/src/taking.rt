//! An agent's pending calls are taken in without a call.

ghost use Rattle.std.specs.Prelude.{◌≡◌, ◌++◌, []};
ghost use Rattle.opfs_store.specs.Acts.Asking.{MayTakePending};
ghost use Rattle.opfs_desk.specs.Keeping.{StaysKept};
ghost use Rattle.opfs_desk.specs.Seen.{entries_of};

use crate::desk::Desk;
use crate::dispatch::cancel;
use opfs_desk_steps::take_in;
use opfs_hist::Pending;
use opfs_laws::histories::unread::reads_leave_the_state;
use opfs_laws::lengths::bridge::{lengths_follow_each_call, local_calls_are_known_by_their_word};
use opfs_outside::Disk;
use opfs_pages::handles_stay_whole;

impl<D: Disk> Desk<D> {
    /// Takes in an agent's pending calls, without a call: the history has them then, and nothing is stored. Takes no memory, and calls
    /// no disk.
    pub fn take_in(&mut self, agent: u32, pending: &mut Pending)
        requires may { MayTakePending D.tells self.old.fixed.opening (entries_of self.old) pending.old agent }
        ensures fixed { self.new.fixed ≡ self.old.fixed }
        ensures journal { self.new.parts.ledger.journal ≡ self.old.parts.ledger.journal }
        ensures entries { entries_of self.new ≡ entries_of self.old ++ pending.old }
        ensures stays { StaysKept D.Disk self.old self.new }
        ensures taken { pending.new ≡ [] }
    {
        reads_leave_the_state();
        lengths_follow_each_call();
        local_calls_are_known_by_their_word();
        handles_stay_whole();
        take_in(&mut self.parts.ledger, agent, pending);
        cancel(&mut self.parts.ledger);
    }
}
