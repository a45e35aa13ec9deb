//! Tests of the shared store by scripts that are drawn: what a run or a trial tells is judged by the plain machine.
//!
//! It stands on `opfs_test_hosts`.
#![tactic(auto)]

#[cfg(test)]
mod drawn;
#[cfg(test)]
mod filling;
