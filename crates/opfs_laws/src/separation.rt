//! Separation of origins: a law over every legal history. It speaks of the definitions of `opfs_machine` alone.
pub mod apart;
