//! Steady pages: which pages of an open row the store still tells. Laws alone; each is the contract of a function that
//! does nothing.
pub mod settling;
