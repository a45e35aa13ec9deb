//! The rows of an agent in the hands of what runs its script, and each call that a step may ask for.
pub mod agent_row;
mod closed;
mod dispatch;
mod entries;
mod forgets;
mod handles;
mod lends;
pub mod makes;
mod plain;
pub mod spends;
mod streams;
pub mod uses;

pub use agent_row::AgentRow;
pub use dispatch::perform;
pub use forgets::forget;
