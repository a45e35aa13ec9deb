//! Verdicts on transcripts, and lines of these.

use crate::asking::{bytes_of, ran_alone};
use std::alloc::{AllocError, Global};
use std::sync::Wait;
use std::thread::Threads;

/// What `judge` says of a script and of what a run of it told; a status that stands before the lines is left out.
pub fn judged<R: AllocGlobal + Threads + Wait + Sync>(
    rt: &R,
    script: &str,
    told: &str,
) -> Result<String, AllocError> {
    let mut input = bytes_of(rt.alloc(), script)?;
    input.push(0)?;
    let lines = told.strip_prefix("0\n").unwrap_or(told);
    input.extend_from_slice(lines.as_bytes())?;
    ran_alone(rt, "judge", &input)
}

/// The lines of a text that begin so.
pub fn lines_with(alloc: Global, text: &str, front: &str) -> Result<String, AllocError> {
    let mut some = String::new(alloc);
    for line in text.lines() {
        if line.starts_with(front) {
            some.push_str(line)?;
            some.push_str("\n")?;
        }
    }
    Ok(some)
}
