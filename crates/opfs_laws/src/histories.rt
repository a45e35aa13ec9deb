//! Histories while a call is made: with groups that are not whole yet, with a change in doubt, and without the bytes that
//! reads gave. Laws alone; each is the contract of a function that does nothing.
pub mod doubts;
pub mod opened;
pub mod unread;
