//! What each call of the shared state makes of what is stored: what it spells, and that this makes of the stored rows what
//! the call leaves. Laws alone; each is the contract of a function that does nothing.
mod laws;

pub use laws::{calls_are_spelled, calls_may_fail};
