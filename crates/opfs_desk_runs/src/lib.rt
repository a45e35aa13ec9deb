//! A script that is run over an image which was recovered: the agents on threads of their own, over one desk, and what they leave.
//!
//! It stands on `opfs_memory`, `opfs_desk`, `opfs_telling`, `opfs_runner`, `opfs_gen` and `opfs_judge`; on it stand
//! `opfs_serve_runs` and `opfs_commands`.
#![tactic(auto)]

mod agents;
mod generated;
mod running;
mod told;
mod trial;

pub use agents::agents_of;
pub use generated::generate;
pub use running::{Completion, end_run, run_disk, run_image};
pub use told::{ToldRun, tell_disk, tell_image};
pub use trial::try_script;
