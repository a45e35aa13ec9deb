//! How a row's content is stored with the call that ends in it: the close of a stream, or the flush or the close of an access handle
//! that may write. The row's pages are planned before anything is written, then they are put into blocks of its own, and the content
//! is committed with what is kept back as the call is entered. Where the disk fails, the call is entered as failed.
//!
//! It stands on `opfs_desk_bytes` and `opfs_desk_entries`; on it stands `opfs_desk`.
#![tactic(auto)]

mod commits;
mod laws;
mod pages;
mod planning;
mod putting;
mod storing;
mod unchanged;
mod words;

pub use commits::act_content;
pub use laws::stored_contents_keep_blocks_right;
pub use pages::store_pages;
pub use planning::{Plan, plan_content};
pub use storing::enter_content;
pub use unchanged::{act_idle_flush, act_store_same_blocks};
pub use words::{is_last, row_of};
