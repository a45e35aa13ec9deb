//! One shared call.

ghost use Rattle.std.specs.Prelude.{◌≡◌, ◌≤◌, true, IfOk, OnErr, IsTrue, is_ok};
ghost use Rattle.opfs_store.specs.Acts.Acting.{always_acts};
ghost use Rattle.opfs_store.specs.Acts.Asking.{MayAct};
ghost use Rattle.opfs_desk.specs.Keeping.{StaysKept};
ghost use Rattle.opfs_desk.specs.Passing.{HasNotServed, HasServed};
ghost use Rattle.opfs_desk.specs.Seen.{disk_of, entries_of};

use crate::desk::Desk;
use crate::dispatch::{AskedCall, act_call};
use opfs_base::Name;
use opfs_books::{a_last_content_stands, the_books_show_their_images};
use opfs_desk_bytes::handles_go_on;
use opfs_desk_steps::iterating::going_on::iterators_go_on;
use opfs_desk_steps::{Followed, asked_row, may_make};
use opfs_hist::{Op, Pending, Room};
use opfs_outside::Disk;
use opfs_store::Acted;
use opfs_work::Work;
use std::alloc::AllocError;

impl<D: Disk> Desk<D> {
    /// Makes one shared call of an agent: takes in its pending calls, clears units where it needs room, and enters it with its reply.
    /// Where the disk fails, the entry tells so. Where there is no memory nothing is entered, the disk was only read, and the working
    /// copy has another room at most; abort, discard and end take none.
    pub fn act(
        &mut self,
        agent: u32,
        number: u32,
        pending: &mut Pending,
        room: Room,
        op: Op,
        work: &mut Work,
        past: &[Name],
    ) -> Result<Acted, AllocError>
        requires may { MayAct D.tells self.old.fixed.opening (entries_of self.old) pending.old (record { agent = agent; number = number; op = op }) work.old past.now }
        ensures fixed { self.new.fixed ≡ self.old.fixed }
        ensures later { D.faults (disk_of self.old) ≤ D.faults (disk_of self.new) }
        ensures served { IfOk result (λ acted. HasServed D.Disk self.old self.new pending.old pending.new work.old work.new (record { agent = agent; number = number; op = op }) acted) }
        ensures stays { StaysKept D.Disk self.old self.new }
        ensures unserved { OnErr result (HasNotServed D.Disk self.old self.new pending.old pending.new work.old work.new) }
        ensures ends { always_acts op ≡ true → IsTrue (is_ok result) }
    {
        a_last_content_stands::<D>();
        the_books_show_their_images::<D>();
        handles_go_on::<D>();
        iterators_go_on::<D>();
        let row = asked_row(&op);
        let makes = may_make(&op);
        let last = self.iterators.take(agent, row);
        let call = AskedCall {
            agent,
            number,
            op,
            room,
        };
        let acted = act_call(&mut self.parts, call, pending, work, past, last.as_ref())?;
        let followed = Followed { agent, row, makes };
        let alloc = self.parts.ledger.alloc;
        self.iterators.follow(alloc, followed, last, &acted, past);
        Ok(acted)
    }
}
