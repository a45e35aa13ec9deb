//! An agent's turns: how one call under the turn goes from the agent to the store and back.
//!
//! It stands on `opfs_store`; on it stands `opfs_agent`.
#![tactic(auto)]

pub mod asking;
mod entering;
mod faulting;
mod notes;
pub mod other_rows;
mod turn;
mod turns;
mod waiting;

pub use asking::{
    Stop, answer, ask, ask_bytes, ask_done, ask_estimate, ask_flag, ask_length, ask_past, ask_row,
    ask_work, keep_call, keep_refusal,
};
pub use faulting::a_told_fault_has_its_rise;
pub use notes::Notes;
pub use turns::Turns;
pub use waiting::AwaitTurn;
