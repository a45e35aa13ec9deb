//! A tree of rows in which a place stands ready for one more row.
mod changes;
mod readers;
mod ready;

pub use ready::ReadyTree;
