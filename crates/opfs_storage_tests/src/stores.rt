//! Tests of the shed, the pool and working copies.
mod pools;
mod sheds;
mod works;
