//! What a transcript need not tell: laws over every legal history of a script. Waits decide nothing, where the transcript
//! tells neither of cleared units nor of stuck agents; and what is cleared has no line feed. Each law is the contract of a
//! function that does nothing.
pub mod fixed;
pub mod waits;
