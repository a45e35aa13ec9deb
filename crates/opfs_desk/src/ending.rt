//! The end of a run.

ghost use Rattle.std.specs.Prelude.{◌≡◌, ◌≤◌, [], OnOk, OnErr};
ghost use Rattle.opfs_desk.specs.Apart.{IsToldApart};
ghost use Rattle.opfs_desk.specs.Seen.{entries_of, disk_of};
ghost use Rattle.opfs_desk.specs.Ending.{EndsFronts, EndsKept, EndsTime, EndsWhole, KeepsSizes, LeavesFront, ShowsEnding, StandsWhole};
ghost use Rattle.opfs_desk.specs.Keeping.{EndsKeeping};
ghost use Rattle.opfs_hist.specs.Faults.{disk_faults};
ghost use Rattle.opfs_outside.specs.Faults.{Rose, RoseBy};

use crate::desk::Desk;
use opfs_books::{calls_are_spelled, commit_laws, the_books_show_their_images};
use opfs_desk_steps::{DeskParts, Ledger, OpenPages};
use opfs_hist::History;
use opfs_journal::DiskFault;
use opfs_laws::separation::apart::each_party_runs_alone;
use opfs_outside::Disk;

impl<D: Disk> Desk<D> {
    /// Ends the run: ends the doubt, commits what is kept back, and gives the disk and the history, in which each party's replies are
    /// those of its own calls. At Ok the image stands for all that the history stored, and so does each that a crash may leave. Takes no
    /// memory.
    pub fn finish(self) -> (D, History, Result<(), DiskFault>)
        ensures history { result.1 ≡ entries_of self }
        ensures apart { IsToldApart D.tells self.fixed.opening result.1 }
        ensures stands { OnOk result.2 (StandsWhole D.Disk self result.0) }
        ensures whole { OnOk result.2 (EndsWhole D.Disk self result.0) }
        ensures shown { ShowsEnding D.Disk self result.0 }
        ensures fronts { EndsFronts D.Disk self result.0 }
        ensures keeps { EndsKept D.Disk self result.0 }
        ensures stays { EndsKeeping D.Disk self result.0 }
        ensures left { D.tells → LeavesFront D.Disk self.fixed.opening result.1 result.0 }
        ensures sizes { KeepsSizes D.Disk self result.0 }
        ensures time { EndsTime D.Disk self result.0 }
        ensures later { D.faults (disk_of self) ≤ D.faults result.0 }
        ensures counts { RoseBy (disk_faults (entries_of self)) (D.faults self.fixed.begun) (D.faults result.0) }
        ensures cause { OnErr result.2 (Rose (D.faults (disk_of self)) (D.faults result.0)) }
    {
        commit_laws::<D>();
        the_books_show_their_images::<D>();
        each_party_runs_alone();
        let Desk {
            parts,
            from: _,
            agents: _,
            iterators: _,
        } = self;
        let DeskParts { ledger, pages } = parts;
        let OpenPages {
            swap: _,
            space: _,
            base: _,
        } = pages;
        let Ledger {
            mut journal,
            mut books,
            freed: _,
            alloc: _,
        } = ledger;
        let done = match books.finish(&mut journal) {
            Ok(_) => Ok(()),
            Err(fault) => Err(fault),
        };
        let (history, state) = books.end();
        state.end();
        (journal.give_back(), history, done)
    }

    /// Gives the disk back as it is, where no agent has begun. Takes no memory.
    pub fn leave(self) -> D
        requires none { entries_of self ≡ [] }
        ensures { result ≡ disk_of self }
    {
        let Desk {
            parts,
            from: _,
            agents: _,
            iterators: _,
        } = self;
        let DeskParts { ledger, pages } = parts;
        let OpenPages {
            swap: _,
            space: _,
            base: _,
        } = pages;
        let Ledger {
            journal,
            books,
            freed: _,
            alloc: _,
        } = ledger;
        let (_history, state) = books.end();
        state.end();
        journal.give_back()
    }
}
