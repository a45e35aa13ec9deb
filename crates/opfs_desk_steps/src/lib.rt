//! Steps of a call under the turn. Laws: it is ready once its agent's pending calls are taken in, its entry may come once its units
//! are cleared, and what the entry leaves of the history, the images and the counts. And what several kinds of calls do: a call is
//! taken apart, its units are cleared, and it is entered where it stores nothing.
//!
//! It stands on `opfs_books` and `opfs_pages`; on it stand `opfs_desk_bytes` and `opfs_desk_entries`.
#![tactic(auto)]

mod apart;
pub mod book_steps;
mod clearing;
pub mod iterating;
pub mod judging;
mod parts;
pub mod row_laws;
mod steps;
mod telling;

pub use apart::{CallParts, call_parts};
pub use book_steps::{
    commit_kept, evict_all, fail_call, refuse_call, settle_doubt, store_call, take_in,
};
pub use clearing::{clear_call, evict_for};
pub use iterating::{Followed, Iterators, asked_row, may_make};
pub use judging::{Judged, Readiness, ask_call};
pub use parts::{DeskParts, Eviction, Ledger, OpenPages, ReadyCall};
pub use row_laws::{
    calls_open_rows, copies_are_stored, files_are_stored, opened_rows_are_laid, parts_lie_inside,
    puts_have_room, rows_in_hand_are_laid,
};
pub use steps::{asked_calls_are_ready, calls_are_acted, ready_calls_are_answered};
pub use telling::{tell_last, tell_ready};
