//! Shared calls whose change is no content: a root, a directory or a file is made, or an entry is removed. The change is kept back
//! in memory, and is committed with the next content, eviction or end, or with the 64th that is kept back.
mod acting;
mod changing;
mod entering;
mod spelling;

pub use acting::act_keep_back;
pub use entering::{enter_change, keep_call};
