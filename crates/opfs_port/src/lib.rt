//! Lines that are heard and lines that are told, in one order: a port over streams of the system, a port in memory, and a session
//! of which each answer is told before the next line is heard.
//!
//! It stands on `opfs_outside` and `opfs_hall`; on it stands `opfs_serving`.
#![tactic(auto)]

mod conversing;
mod memory_port;
mod port;
mod reading;
mod stream_port;
mod writing;

pub use conversing::{Session, converse};
pub use memory_port::{MemoryPort, Spoken};
pub use port::{Heard, Port, PortFault};
pub use stream_port::StreamPort;
