//! What each call refuses, asks for and answers, judged over a list of rows in order, with what they come to kept from call to call.
//!
//! It stands on `opfs_laws`; on it stands `opfs_plain`.
#![tactic(auto)]

pub mod agents;
pub mod board;
mod bucket_rulings;
mod course;
pub mod disk;
pub mod handle_rulings;
pub mod judging;
pub mod ordered;
mod parts;
mod removals;
pub mod replies;
mod room;
pub mod rows;
pub mod rulings;
mod sets;
mod spots;
pub mod standing;
pub mod sums;
mod tally;
mod weights;

pub use agents::{agent, is_agent, own_row, party_of};
pub use board::Board;
pub use disk::is_disk_op;
pub use handle_rulings::open_handle;
pub use judging::judge;
pub use replies::{answer, next_given, sizes_of};
pub use rows::{PlacedRow, place_of};
pub use rulings::{file_at, first_reserve, taken};
pub use standing::may_enter;
pub use sums::reserve_at;
