//! What a script's run knows of its rows. Laws alone; each is the contract of a function that does nothing.
pub mod agreeing;
