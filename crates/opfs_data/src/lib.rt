//! Bytes over runs of data blocks, and the pages of working copies in blocks.
//!
//! It stands on `opfs_base` and `opfs_journal`; on it stand `opfs_space` and `opfs_image`.
#![tactic(auto)]

mod page;
mod page_run;
mod paged_row;
mod pages;
mod places;
mod placing;
mod refusal;
mod row;
mod runs;
mod swap;
mod writes;

pub use page::{Page, PageBytes, SavedPage};
pub use page_run::{PageRun, Source};
pub use paged_row::PagedRow;
pub use refusal::DataRefusal;
pub use runs::{load, store};
pub use swap::Swap;
pub use writes::PageWrites;
