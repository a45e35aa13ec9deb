//! Scripts whose steps are kept as the JSON texts that tell them, each read when its turn comes; and their reader, which goes over the
//! tokens of a JSON text once and holds no tree of it.
//!
//! It stands on `opfs_script`; on it stands `opfs_judge`.
#![tactic(auto)]

mod packed;
mod reading;

pub use packed::{PackedAgent, PackedScript, StepsAhead, Texts, TextsAhead, bytes_told, step_told};
pub use reading::{KeptScript, read_kept};
