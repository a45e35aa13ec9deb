//! Transcripts and status lines.
//!
//! It stands on `opfs_hist`; on it stand `opfs_script_run`, `opfs_telling` and `opfs_tools`.
#![tactic(auto)]

pub mod end;
pub mod lines;
pub mod reply;
pub mod status;

pub use end::{BadImage, BadScript, End};
pub use lines::{line, transcript, word_text};
pub use reply::{names_text, reply_text};
pub use status::status_line;
