//! Tests of changes as bytes and of sets of blocks.
mod blocks;
mod changes;
