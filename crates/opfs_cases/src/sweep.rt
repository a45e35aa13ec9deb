//! A command again and again, where each time another call of the disk fails.

use crate::ends::{End, are_among};
use crate::marks::States;
use opfs_memory::{MemHost, MemSource};
use opfs_test_hosts::{calls, content, host_among, ran_within};
use std::alloc::{AllocError, Global};
use std::sync::Wait;
use std::thread::Threads;

/// A command, what it reads, and the image on which it begins, with others by their paths; whether a call fails once, or all
/// from there on.
#[derive(Drop)]
pub struct Sweep {
    pub command: String,
    pub input: Vec<u8>,
    pub image: Vec<u8>,
    pub others: Vec<(Vec<u8>, Vec<u8>)>,
    pub once: bool,
}

// More calls than a command makes.
const CALLS: u64 = 200;

// How many bytes it may write.
const ROOM: u64 = 65_536;

impl Sweep {
    // A host whose disk fails at this call.
    fn host(&self, alloc: Global, number: u64) -> Result<MemHost, AllocError> {
        let (image, others) = (&self.image, &self.others);
        if self.once {
            host_among(alloc, image, others, &[number], None)
        } else {
            host_among(alloc, image, others, &[], Some(number.saturating_sub(1)))
        }
    }

    // What is told where the call of this number fails; None where there is no such call.
    fn told<R: AllocGlobal + Threads + Wait + Sync>(
        &self,
        rt: &R,
        host: &mut MemHost,
    ) -> Result<Option<String>, AllocError> {
        let source = MemSource::make(self.input.to_vec(rt.alloc())?, Vec::new(rt.alloc()));
        let told = ran_within(rt, self.command.as_str(), host, source, ROOM)?;
        match host.given("I") {
            Some(disk) if disk.faults() == 0 => Ok(None),
            _ => Ok(Some(told)),
        }
    }

    /// What is wrong in any of these; nothing where each ends as it may, and each end is met as often as it is to be.
    pub fn wrong<R: AllocGlobal + Threads + Wait + Sync>(
        &self,
        rt: &R,
        states: &mut States,
        ends: &mut Vec<End>,
    ) -> Result<String, AllocError> {
        for number in 1..CALLS {
            let mut host = self.host(rt.alloc(), number)?;
            let Some(told) = self.told(rt, &mut host)? else {
                return unmet(rt.alloc(), ends);
            };
            let wrong = wrong_at(rt.alloc(), &host, number, told.as_str(), states, ends)?;
            if !wrong.is_empty() {
                return Ok(wrong);
            }
        }
        String::from_str(rt.alloc(), "too many calls")
    }
}

// The first end that was met too often or too seldom; nothing where there is none.
fn unmet(alloc: Global, ends: &[End]) -> Result<String, AllocError> {
    match ends.iter().find(|end| !end.is_met()) {
        Some(end) => {
            let (met, told) = (end.met, end.told.as_str());
            format!(in alloc; "met {met} times: {told}")
        }
        None => Ok(String::new(alloc)),
    }
}

// The marks that an image may have at this end, and those that a crash may leave. The end is met.
fn meet<'a>(ends: &'a mut [End], told: &str) -> (&'a str, &'a str) {
    match ends.iter_mut().find(|end| end.has(told)) {
        Some(end) => {
            end.met = end.met.saturating_add(1);
            (end.left.as_str(), end.crashed.as_str())
        }
        None => ("", ""),
    }
}

// What is wrong where the call of this number failed.
fn wrong_at(
    alloc: Global,
    host: &MemHost,
    number: u64,
    told: &str,
    states: &mut States,
    ends: &mut Vec<End>,
) -> Result<String, AllocError> {
    let (left, crashed) = meet(ends, told);
    let end = states.mark(alloc, content(host))?;
    let within = crash(alloc, host, number, states)?;
    let behind = crash(alloc, host, calls(host), states)?;
    if are_among(end, left)
        && are_among(within.as_str(), crashed)
        && are_among(behind.as_str(), crashed)
    {
        return Ok(String::new(alloc));
    }
    format!(in alloc; "call {number} left {end}, {within}, {behind}: {told}")
}

// The marks of what a crash leaves after so many calls; none where no disk was given back.
fn crash(
    alloc: Global,
    host: &MemHost,
    number: u64,
    states: &mut States,
) -> Result<String, AllocError> {
    match host.given("I") {
        Some(disk) => states.marks_left(alloc, disk, number),
        None => Ok(String::new(alloc)),
    }
}
