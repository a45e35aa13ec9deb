//! Tests of the disks and hosts in memory and of the journal over them.
mod examples;
mod silent;

pub use examples::{FORMAT_1, FORMAT_2, areas_of_both, format_1, format_2};
pub use silent::SilentDisk;

mod hosts;
mod journals;
mod memory;
mod stops;
