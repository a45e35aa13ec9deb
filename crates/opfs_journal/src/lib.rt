//! A journal on a disk that may stop at any moment: a list of records that is added to or replaced as a whole.
//!
//! It stands on `opfs_outside`; on it stands `opfs_data`.
#![tactic(auto)]

mod areas;
mod frame;
mod journal;
mod reader;
mod refusal;
mod synced;

pub use areas::Areas;
pub use journal::Journal;
pub use reader::{Ruling, find_ruling, read_gate};
pub use refusal::{DiskFault, JournalRefusal, OpenRefusal};
