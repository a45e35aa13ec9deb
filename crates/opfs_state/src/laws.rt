//! Laws on the shared state: what was judged may be applied once its units are cleared, and what stands ready stays so. Laws
//! alone; each is the contract of a function that does nothing.
pub mod judged;
pub mod readied;
pub mod room;
