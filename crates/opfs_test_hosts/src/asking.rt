//! A command over a host, told as the number of its status, a line feed, and what it wrote.

use crate::images::{host, host_with};
use opfs_base::{Bytes, Words};
use opfs_memory::{MemSink, MemSource};
use opfs_outside::{Gate, Host};
use opfs_top::{OpenGate, opfs, opfs_tool};
use std::alloc::{AllocError, Global};
use std::sync::Wait;
use std::thread::Threads;

// How many bytes a command may write where no other number is said.
const ROOM: u64 = 4_194_304;

/// The bytes of a text.
pub fn bytes_of(alloc: Global, text: &str) -> Result<Vec<u8>, AllocError> {
    text.as_bytes().to_vec(alloc)
}

// The words of a command, which stand apart by blanks; two quotes stand for an empty one.
fn words_of(alloc: Global, command: &str) -> Result<Words, AllocError> {
    let mut items = Vec::new(alloc);
    for word in command.split_whitespace() {
        let word = if word == "''" { "" } else { word };
        items.push(Bytes::from_vec(bytes_of(alloc, word)?))?;
    }
    Ok(Words::from_vec(items))
}

// A status, a line feed, and what a sink took.
fn told(alloc: Global, status: u8, sink: &MemSink) -> Result<String, AllocError> {
    let mut text = format!(in alloc; "{status}\n")?;
    match str::from_utf8(sink.written()) {
        Ok(written) => text.push_str(written)?,
        Err(_) => text.push_str("no text")?,
    }
    Ok(text)
}

/// How a command ends over a host, a gate, what it reads, and room for so many bytes that it writes.
pub fn asked<R: AllocGlobal + Threads + Wait + Sync, H: Host, G: Gate>(
    rt: &R,
    command: &str,
    host: &mut H,
    gate: &G,
    mut source: MemSource,
    room: u64,
) -> Result<String, AllocError> {
    let alloc = rt.alloc();
    let words = words_of(alloc, command)?;
    let mut sink = MemSink::make(alloc, room, Vec::new(alloc))?;
    let status = opfs(rt, &words, host, &mut source, &mut sink, gate);
    told(alloc, status.number(), &sink)
}

/// How a command ends over a host, what it reads, and room for so many bytes that it writes.
pub fn ran_within<R: AllocGlobal + Threads + Wait + Sync, H: Host>(
    rt: &R,
    command: &str,
    host: &mut H,
    source: MemSource,
    room: u64,
) -> Result<String, AllocError> {
    asked(rt, command, host, &OpenGate, source, room)
}

/// How a command ends over a host and what it reads.
pub fn ran<R: AllocGlobal + Threads + Wait + Sync, H: Host>(
    rt: &R,
    command: &str,
    host: &mut H,
    input: &[u8],
) -> Result<String, AllocError> {
    let alloc = rt.alloc();
    let source = MemSource::make(input.to_vec(alloc)?, Vec::new(alloc));
    ran_within(rt, command, host, source, ROOM)
}

/// How a command ends over what it reads, with a host that has no image.
pub fn ran_alone<R: AllocGlobal + Threads + Wait + Sync>(
    rt: &R,
    command: &str,
    input: &[u8],
) -> Result<String, AllocError> {
    let mut host = host(rt.alloc())?;
    ran(rt, command, &mut host, input)
}

/// What a run of a script over the image at the path `I` tells.
pub fn run<R: AllocGlobal + Threads + Wait + Sync, H: Host>(
    rt: &R,
    host: &mut H,
    script: &str,
) -> Result<String, AllocError> {
    ran(rt, "run I", host, script.as_bytes())
}

/// What a run of a script tells over this image, where a gate holds its agents back.
pub fn run_behind<R: AllocGlobal + Threads + Wait + Sync, G: Gate>(
    rt: &R,
    image: &[u8],
    gate: &G,
    script: &str,
) -> Result<String, AllocError> {
    let mut host = host_with(rt.alloc(), image)?;
    let source = MemSource::make(bytes_of(rt.alloc(), script)?, Vec::new(rt.alloc()));
    asked(rt, "run I", &mut host, gate, source, ROOM)
}

/// What a run of a script tells over this image.
pub fn run_over<R: AllocGlobal + Threads + Wait + Sync>(
    rt: &R,
    image: &[u8],
    script: &str,
) -> Result<String, AllocError> {
    run_behind(rt, image, &OpenGate, script)
}

/// What `try` tells of a script.
pub fn tried<R: AllocGlobal + Threads + Wait + Sync>(
    rt: &R,
    script: &str,
) -> Result<String, AllocError> {
    ran_alone(rt, "try", script.as_bytes())
}

/// How a command on an image ends over a host.
pub fn done<H: Host>(alloc: Global, command: &str, host: &mut H) -> Result<String, AllocError> {
    let words = words_of(alloc, command)?;
    let mut sink = MemSink::make(alloc, ROOM, Vec::new(alloc))?;
    let status = opfs_tool(alloc, &words, host, &mut sink);
    told(alloc, status.number(), &sink)
}
