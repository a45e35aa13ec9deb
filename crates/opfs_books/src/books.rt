//! The books.

ghost use Rattle.std.specs.Prelude.{◌≡◌, ◌≤◌, true, Option, vec_capacity};
ghost use Rattle.opfs_books.specs.Calls.{MayTellIn, HasTold, HasRefused};
ghost use Rattle.opfs_books.specs.Laws.Books.{IsPlaced};
ghost use Rattle.opfs_books.specs.Seen.{book_of, AreKnown};
ghost use Rattle.opfs_machine.specs.Effects.{refused};
ghost use Rattle.opfs_machine.specs.Steps.{is_refusal};

use crate::entering::{Entering, EntryWithRoom, enter};
use crate::laws::{telling_keeps_the_books, the_state_is_kept};
use crate::sharing::Shared;
use crate::stored::calls_are_spelled;
use opfs_base::Extent;
use opfs_commit::Commits;
use opfs_hist::History;
use opfs_journal::Journal;
use opfs_laws::lengths::bridge::lengths_follow_each_call;
use opfs_outside::Disk;
use std::alloc::Global;

/// The history, the shared state, what is kept back of the changes, and the place of the entry whose change is in doubt.
pub struct Books<S> {
    pub history: History,
    pub state: S,
    pub commits: Commits,
    pub place: Option<u64>,
}

impl<S: Shared> Books<S> {
    /// Enters a call that is answered and stores nothing.
    pub fn tell<D: Disk>(
        &mut self,
        alloc: Global,
        journal: &Journal<D>,
        entering: Entering,
        freed: &mut Vec<Extent>,
    )
        requires { MayTellIn S.Shared D.Disk self.old journal.now entering.last.entry entering.sizes entering.extents freed.old }
        ensures told { HasTold S.Shared D.Disk entering.last.entry entering.sizes entering.extents self.old self.new journal.now freed.old.items freed.new.items }
        ensures capacity { vec_capacity freed.old ≤ vec_capacity freed.new }
    {
        telling_keeps_the_books::<D>();
        calls_are_spelled();
        lengths_follow_each_call();
        the_state_is_kept::<D>();
        self.state.rows();
        let Entering {
            last,
            sizes,
            extents,
        } = entering;
        self.state
            .apply(last.entry.agent, &last.entry.op, sizes, extents, freed);
        enter(alloc, &mut self.history, last);
    }

    /// Enters a call that is refused, or in which the disk failed and left no doubt of the call's own.
    pub fn refuse<D: Disk>(&mut self, alloc: Global, journal: &Journal<D>, last: EntryWithRoom)
        requires known { AreKnown D.Disk (book_of S.Shared self.old) journal.now }
        requires placed { IsPlaced self.old.history last.entry.agent }
        requires refuses { is_refusal last.entry.reply ≡ true }
        requires may { S.may_refuse self.old.state last.entry.agent last.entry.op }
        ensures { HasRefused S.Shared D.Disk last.entry self.old self.new journal.now }
    {
        telling_keeps_the_books::<D>();
        calls_are_spelled();
        lengths_follow_each_call();
        the_state_is_kept::<D>();
        self.state.refuse(last.entry.agent, &last.entry.op);
        enter(alloc, &mut self.history, last);
    }
}
