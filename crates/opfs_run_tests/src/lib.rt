//! Tests of runs whose agents are on threads: what they print, when they run, and what they leave of an image.
//!
//! It stands on `opfs_files` and `opfs_test_hosts`.
#![tactic(auto)]

#[cfg(test)]
mod altering;
#[cfg(test)]
mod crowds;
#[cfg(test)]
mod folders;
#[cfg(test)]
mod gates;
mod judge;
#[cfg(test)]
mod judging;
#[cfg(test)]
mod meetings;
#[cfg(test)]
mod refusals;
#[cfg(test)]
mod tags;
