//! Tests of the tree.
mod growing;
mod locks;
mod names;
mod removal;
mod walks;
