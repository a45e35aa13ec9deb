//! The shared store without bytes: its rows, buckets, shares and agents as one machine, with the counts that its rulings
//! ask for.
mod agents;
mod files;
mod handles;
mod locks;
mod making;
mod readers;
mod rows;
mod standing;
mod streams;

pub use standing::Standing;
