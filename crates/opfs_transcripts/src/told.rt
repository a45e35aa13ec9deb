//! What a transcript tells of the history that it is the text of. Laws alone; each is the contract of a function that does
//! nothing.
pub mod fixed;
pub mod settled;
