//! Laws of transcripts, each the contract of a function that does nothing: what a transcript tells of its history; that waits decide
//! nothing where it tells neither of cleared units nor of stuck agents, and what is cleared has no line feed; and that an agent with no
//! other beside it in its party answers as in a run of its own.
//!
//! It stands on `opfs_laws` and `opfs_script_run`; on it stand `opfs_gen` and `opfs_judge`.
#![tactic(auto)]

pub mod lone;
pub mod told;
pub mod waiting;
