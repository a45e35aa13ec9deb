//! Scripts: what agents are told to do.
//!
//! It stands on `opfs_hist`; on it stand `opfs_script_kept`, `opfs_script_run` and `opfs_dump`.
#![tactic(auto)]

mod agents;
mod draft;
mod fault;
mod head;
mod limits;
mod lines;
mod members;
pub mod reader;
pub mod refusal;
pub mod script;
mod shapes;
pub mod step;
mod steps;
mod telling;
mod words;

pub use head::{read_grant, read_origin};
pub use limits::bytes_asked;
pub use lines::{Asking, LinePart, named_agent, read_agents, read_asking};
pub use reader::read_script;
pub use refusal::ScriptRefusal;
pub use script::{AgentScript, Script};
pub use step::Step;
pub use steps::read_step;
