//! The agents of the shared store by their place, with the open rows of each and the locks that these hold, the posted
//! tags, and the last use of each origin.
//!
//! It stands on `opfs_machine`; on it stands `opfs_state_rows`.
#![tactic(auto)]

mod circles;
mod open;
mod posts;
mod register;
mod rows;
mod seat;
mod seats;
mod tag_set;
mod tags;
mod uses;

pub use open::{HeldRow, OpenHandle, OpenStream};
pub use register::Register;
pub use seat::Who;
