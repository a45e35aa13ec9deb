//! A conversation over an image which was recovered: what was said, the history, and what each image has since an answer went out.
//!
//! It stands on `opfs_desk_runs` and `opfs_serving`; on it stands `opfs_serve_top`.
#![tactic(auto)]

mod disk;
mod first;

pub use disk::{ServedRun, serve_disk, serve_image};
pub use first::first_agents;
