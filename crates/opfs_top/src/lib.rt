//! The program's one call: the words of a command, its input and its output.
//!
//! It stands on `opfs_commands`; on it stand `opfs` and `opfs_serve_top`.
#![tactic(auto)]

mod answer;
pub mod command;
mod gate;
mod input;
mod parts;
mod run;
pub mod status;
mod tool;

pub use command::{opfs, opfs_tool};
pub use gate::OpenGate;
pub use status::Status;
