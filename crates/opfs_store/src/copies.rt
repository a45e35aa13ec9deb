//! What working copies stand for. Laws alone; each is the contract of a function that does nothing.
pub mod standing;
