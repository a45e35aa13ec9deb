//! The judge of finished transcripts: whether a store could have printed one. It reads group after group, each its evictions
//! and a call, as the machine has them.
//!
//! It stands on `opfs_script_kept`, `opfs_transcripts` and `opfs_plain`; on it stands `opfs_desk_runs`.
#![tactic(auto)]

pub mod agents;
mod ahead;
pub mod asking;
mod front;
pub mod judging;
mod packed;
mod player;
pub mod settling;
mod standing;
pub mod trial;
pub mod turn;
pub mod verdict;

pub use judging::judge;
pub use packed::judge_packed;
pub use verdict::Verdict;
