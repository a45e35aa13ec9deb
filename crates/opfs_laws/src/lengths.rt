//! The machine in bytes and the machine in lengths: what the shared store knows of a state decides each ruling, and is
//! changed alike by each call. Laws alone; each is the contract of a function that does nothing.
pub mod bridge;
pub mod kept;
