//! Trials: a script's agents run on threads of their own, over one desk on a disk in memory that was just formatted.
mod empty;
mod trying;

pub use trying::try_script;
