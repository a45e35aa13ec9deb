//! The trait `Store`: what one shared call asks of its caller, and what it leaves. The store under the agents serves it, and the agents make
//! it. And laws of what working copies stand for; each is the contract of a function that does nothing.
//!
//! It stands on `opfs_laws`, `opfs_outside`, `opfs_work` and `opfs_hall`; on it stand `opfs_turns`, `opfs_telling` and
//! `opfs_pages`.
#![tactic(auto)]

mod acts;
pub mod copies;
mod counts;

pub use acts::{Acted, AwaitState, Gift, Store};
pub use counts::know_faults_rose;
