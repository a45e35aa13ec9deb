//! Tests of disks over real files, of the host of the folder that a test runs in, and of streams.
mod disks;
mod faulty;
mod hosts;
mod streams;
