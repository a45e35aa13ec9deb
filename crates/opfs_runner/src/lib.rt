//! What runs the scripts of agents, each agent on a thread of its own, over any store that serves shared calls.
//!
//! It stands on `opfs_script_run` and `opfs_agent`; on it stand `opfs_serving` and `opfs_desk_runs`.
#![tactic(auto)]

pub mod agent_rows;
mod closing;
pub mod ended;
mod ends;
pub mod history;
mod run;
pub mod run_laws;
mod snapshots;
mod steps;
mod threads;

pub use agent_rows::{AgentRow, forget, perform};
pub use closing::close_hall;
pub use ended::{Ended, run_agent};
pub use ends::end_rows;
pub use run::{Ran, Started, begin_agents, run_scripts};
pub use steps::make_step;
pub use threads::run_all;
