//! Tests of the pipe between two agents of a store, over a disk in memory.
#[cfg(test)]
mod checks;
#[cfg(test)]
mod driving;
#[cfg(test)]
mod example;
#[cfg(test)]
pub mod running;
mod task;
#[cfg(test)]
mod tasks;
#[cfg(test)]
mod tests;

pub use task::Task;
