//! Tests of the body of a checkpoint's record.
mod after;
mod bytes;
mod growing;
