//! A call that is asked for: whether it is refused, or which units are cleared for it; and, before anything is entered, the memory for
//! these and all that the call needs of the shared state.
mod asking;
mod clearings;
mod ending;
mod judged;
mod sizes;

pub use asking::ask_call;
pub use judged::{Judged, Readiness};
