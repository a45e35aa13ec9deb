//! What is stored of a file while an access handle of it is open. A law alone; the contract of a function that does nothing.
pub mod staying;
