//! What each shared call refuses, or which units are cleared for it, judged over the shared store. No ruling looks at all
//! rows, agents' rows, tags or units.
mod agents;
mod bucket_rulings;
mod handle_rulings;
mod judging;
mod locks;
mod removals;
mod room;
mod rulings;
mod stream_rulings;

pub use judging::{judge, ruling};
pub use room::room_for;
