//! The call that answers each line as it hears it, over the image at a path of a host.
//!
//! It stands on `opfs_serve_runs` and `opfs_top`; on it stands `opfs_serve`.
#![tactic(auto)]

mod first;
mod host;
mod top;

pub use host::{Ending, serve_at};
pub use top::{Reply, opfs_serve};
