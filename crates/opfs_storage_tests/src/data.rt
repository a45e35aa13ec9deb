//! Tests of bytes and pages in blocks.
mod disks;
mod pages;
mod runs;
mod swap;
