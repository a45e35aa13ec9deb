//! Large runs from a number: the script that is made of it, and the summary of what its agents print.
//!
//! It stands on `opfs_transcripts`; on it stands `opfs_desk_runs`.
#![tactic(auto)]

mod drawing;
mod making;
mod own;
mod steps;
mod summing;

pub use making::make_script;
pub use own::{are_own, summaries_are_of_own_runs};
pub use summing::summary;
