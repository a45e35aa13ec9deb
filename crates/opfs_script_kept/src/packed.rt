//! Scripts whose steps are kept as the JSON texts that tell them, each read when its turn comes.
mod script;
mod steps;
mod telling;
mod texts;

pub use script::{PackedAgent, PackedScript};
pub use steps::StepsAhead;
pub use telling::{bytes_told, step_told};
pub use texts::{Texts, TextsAhead};
