//! Changes that are kept back.

ghost use Rattle.std.specs.Prelude.{◌≤◌, ◌<◌, None, vec_capacity};
ghost use Rattle.opfs_books.specs.Calls.{MayKeepIn, HasKept};
ghost use Rattle.opfs_codec.specs.Fields.{plain};

use crate::books::Books;
use crate::entering::{Entering, enter};
use crate::laws::{keeping_back_keeps_the_books, the_state_is_kept};
use crate::sharing::Shared;
use crate::stored::calls_are_spelled;
use opfs_base::Extent;
use opfs_codec::ChangeRef;
use opfs_journal::Journal;
use opfs_laws::lengths::bridge::lengths_follow_each_call;
use opfs_outside::Disk;
use std::alloc::Global;

impl<S: Shared> Books<S> {
    /// Enters a call that makes a root, a directory or a file, removes an entry or makes a unit persistent, and keeps its
    /// change back, where fewer than 63 are. Calls no disk.
    pub fn keep<D: Disk>(
        &mut self,
        alloc: Global,
        journal: &Journal<D>,
        own: &ChangeRef<'_>,
        entering: Entering,
        freed: &mut Vec<Extent>,
    )
        requires { MayKeepIn S.Shared D.Disk self.old journal.now entering.last.entry entering.sizes entering.extents (plain own.now) freed.old }
        ensures kept { HasKept S.Shared D.Disk entering.last.entry entering.sizes entering.extents (plain own.now) self.old self.new journal.now freed.old.items freed.new.items }
        ensures capacity { vec_capacity freed.old ≤ vec_capacity freed.new }
    {
        keeping_back_keeps_the_books::<D>();
        calls_are_spelled();
        lengths_follow_each_call();
        the_state_is_kept::<D>();
        self.state.rows().know_order();
        self.place = None;
        self.commits.keep(own);
        let Entering {
            last,
            sizes,
            extents,
        } = entering;
        self.state
            .apply(last.entry.agent, &last.entry.op, sizes, extents, freed);
        enter(alloc, &mut self.history, last);
    }
}
