//! Shared calls that move no bytes. Some only tell: refused ones, persisted, estimate, an iterator's next, and posted tags. Some end a row
//! that stores nothing: abort, discard, and the close of a read-only access handle; the row leaves its pages and its lock. And some
//! change entries or buckets: their change is kept back in memory, and is committed with the next content, eviction or end, or with the
//! 64th that is kept back.
//!
//! It stands on `opfs_desk_steps`; on it stands `opfs_desk_contents`.
#![tactic(auto)]

pub mod answers;
mod buckets;
pub mod kept_back;
mod releases;

pub use answers::{act_done, act_next, act_persisted, act_refused, tell, telling_laws};
pub use buckets::{act_estimate, act_persist};
pub use kept_back::{act_keep_back, enter_change, keep_call};
pub use releases::act_close_without_store;
