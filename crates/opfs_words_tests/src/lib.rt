//! Tests of names, keys, locks, splicing, histories, texts and scripts.
//!
//! It stands on `opfs_script_kept` and `opfs_script_run`.
#![tactic(auto)]

#[cfg(test)]
mod bytes;
#[cfg(test)]
mod data;
#[cfg(test)]
mod keys;
#[cfg(test)]
mod lines;
#[cfg(test)]
mod locks;
#[cfg(test)]
mod measures;
#[cfg(test)]
mod names;
#[cfg(test)]
mod packed;
mod runs;
#[cfg(test)]
mod scripts;
