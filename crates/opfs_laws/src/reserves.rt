//! What access handles keep for bytes that wait for a flush. A law alone; it is the contract of a function that does nothing.
pub mod fitting;
