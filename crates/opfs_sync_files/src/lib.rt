//! Access handles by the bytes of their files: what each call of an agent does to them, and what it stores for good.
//!
//! It stands on `opfs_agent`; on it stand `opfs_kv` and `opfs_pipe`.
#![tactic(auto)]

mod ending;
mod laws;
mod reading;
mod writing;

pub use ending::close;
pub use laws::a_resting_agent_may_end;
pub use reading::{read, size};
pub use writing::{flush, truncate, write};
