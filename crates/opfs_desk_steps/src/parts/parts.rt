//! The parts of the shared store.

use opfs_base::Extent;
use opfs_books::Books;
use opfs_data::Swap;
use opfs_journal::Journal;
use opfs_outside::Disk;
use opfs_space::Space;
use opfs_state::State;
use std::alloc::Global;

/// The journal, and the books of a run: its history, the shared state, and what is kept back.
pub struct Ledger<D: Disk> {
    pub journal: Journal<D>,
    pub books: Books<State>,
    /// Room for the extents that a call lets go: as many as there are data blocks.
    pub freed: Vec<Extent>,
    pub alloc: Global,
}

/// The pages of open rows, and the data blocks, which begin at a byte of the disk.
pub struct OpenPages {
    pub swap: Swap,
    pub space: Space,
    pub base: u64,
}

/// All parts. They have no invariant of their own: each call asks for what it keeps, and gives it again.
pub struct DeskParts<D: Disk> {
    pub ledger: Ledger<D>,
    pub pages: OpenPages,
}
