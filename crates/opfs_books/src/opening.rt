//! How the books begin, let go what was told, and end.

ghost use Rattle.std.specs.Prelude.{◌≡◌, ◌+◌, ◌≤◌, ◌<◌, ◌^◌, [], false, None, drop, length, IfOk, IfErr};
ghost use Rattle.opfs_books.specs.Laws.Books.{Fixed, AreBooks};
ghost use Rattle.opfs_books.specs.Opened.{IsOpened};
ghost use Rattle.opfs_books.specs.Seen.{book_of};
ghost use Rattle.opfs_records.specs.Replay.Built.{Built};

use crate::books::Books;
use crate::laws::commit_laws;
use crate::sharing::Shared;
use opfs_commit::Commits;
use opfs_hist::{Given, History};
use opfs_journal::Journal;
use opfs_outside::Disk;
use std::alloc::Global;

impl<S: Shared> Books<S> {
    /// The books of a run that begins over a recovered image, with areas of so many bytes. Gives the state back where there is
    /// no memory.
    pub fn make<D: Disk>(
        alloc: Global,
        journal: &mut Journal<D>,
        area: u64,
        state: S,
    ) -> Result<Books<S>, S>
        ensures journal { journal.new ≡ record journal.old { spare = journal.new.spare } }
        ensures no_less { journal.old.spare ≤ journal.new.spare }
        ensures history { IfOk result (λ books. books.history ≡ []) }
        ensures state { IfOk result (λ books. books.state ≡ state) }
        ensures commits { IfOk result (λ books. books.commits ≡ record { bytes = []; count = 0; long = false; room = area }) }
        ensures place { IfOk result (λ books. books.place ≡ None) }
        ensures books { IfOk result (λ books. (f : Fixed D) (recorded : Built) → IsOpened D.Disk f recorded (S.machine state) (S.tree state) area journal.old → AreBooks D.Disk f recorded (book_of S.Shared books) journal.new) }
        ensures err { IfErr result (λ back. back ≡ state) }
    {
        commit_laws::<D>();
        match Commits::make(alloc, journal, area) {
            Ok(commits) => Ok(Books {
                history: History::make(alloc),
                state,
                commits,
                place: None,
            }),
            Err(_) => Err(state),
        }
    }

    /// Gives out the entries that were not given out before: the books stand for the same history, and no longer hold them. Takes
    /// no memory, and as long for many as for one.
    pub fn give_out(&mut self, alloc: Global) -> Given
        ensures kept { self.new ≡ self.old }
        ensures entries { result.entries ≡ drop result.place self.old.history }
        ensures place { result.place + length result.entries ≡ length self.old.history }
        ensures fits { result.place + length result.entries < 2 ^ 63 }
    {
        self.history.give_out(alloc)
    }

    /// Gives the history and the state.
    pub fn end(self) -> (History, S)
        ensures history { result.0 ≡ self.history }
        ensures state { result.1 ≡ self.state }
    {
        let Books {
            history,
            state,
            commits: _,
            place: _,
        } = self;
        (history, state)
    }
}
