//! The desk: the shared store of many agents over a disk. Its history is legal, and at each moment an image that a crash leaves
//! stands for a front of what its calls changed.
//!
//! It stands on `opfs_desk_contents`; on it stand `opfs_desk_runs` and `opfs_notebook_run`.
#![tactic(auto)]

mod acting;
mod desk;
mod dispatch;
mod ending;
mod giving;
mod making;
mod serving;
mod showing;
mod standing;
mod taking;
mod waiting;

pub use desk::Desk;
pub use dispatch::{AskedCall, act_call};
pub use standing::Opened;
