//! One line of a history.

use crate::op::Op;
use crate::reply::Reply;

/// One call of an agent, or one eviction, with what it answered.
#[derive(Drop)]
pub struct Entry {
    /// The agent's number, counted from 1; 0 for an eviction.
    pub agent: u32,
    /// The step's number in the agent's script, counted from 1; 0 for an eviction.
    pub number: u32,
    /// What was asked.
    pub op: Op,
    /// What was answered.
    pub reply: Reply,
    /// Whether the entry was made under the turn. No text and no reply reads it.
    pub turn: bool,
}
