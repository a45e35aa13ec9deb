//! The commands on an image: they make one, tell what it holds, check it, bring it into the format of now, put its text out,
//! make one from such a text, and run the agents of a script over one; and which command words ask for.
//!
//! It stands on `opfs_migrate`, `opfs_dump` and `opfs_desk_runs`; on it stands `opfs_top`.
#![tactic(auto)]

mod answers;
mod disks;
mod dump_laws;
mod dumps;
mod hosts;
mod loads;
mod makers;
mod running;
mod runs;
mod words;

pub use answers::{ReadTool, ToolAnswer, ToolEnd};
pub use dump_laws::dumps_are_read_back;
pub use loads::load_at;
pub use running::run_command;
pub use runs::run_at;
pub use words::{Action, Command, Generation, read_command};
