//! Calls on the journal and the books that touch no pages: an agent's pending calls are taken in, a call is refused, units are
//! cleared for it, and what is kept back is committed. Each keeps the facts of the parts, whatever the pages are.
mod clearing;
mod committing;
mod entering;
mod evicting;
mod refusing;
mod taking;
mod units;

pub use clearing::settle_doubt;
pub use committing::commit_kept;
pub use entering::store_call;
pub use refusing::{fail_call, refuse_call};
pub use taking::take_in;
pub use units::evict_all;
