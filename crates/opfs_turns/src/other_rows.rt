//! What a call leaves of its agent's other rows. Laws alone; each is the contract of a function that does nothing.
pub mod rows;
