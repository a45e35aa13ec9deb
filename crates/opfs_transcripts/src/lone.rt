//! An agent that has no other beside it in its party. A law alone; it is the contract of a function that does nothing.
pub mod lone;
