//! A conversation over a disk in memory.

ghost use Rattle.std.specs.Prelude.{◌≡◌, true};
ghost use Rattle.opfs_image.specs.Superblock.{is_in_range};

use opfs_desk::Desk;
use opfs_desk_runs::Completion;
use opfs_image::{Geometry, format};
use opfs_memory::RamDisk;
use opfs_outside::Disk;
use opfs_port::{MemoryPort, Spoken};
use opfs_script::Script;
use opfs_serve_runs::{ServedRun, first_agents, serve_disk};
use opfs_serving::State;
use std::alloc::{AllocError, Global};
use std::sync::Wait;

/// A conversation: its first line, which names the agents, and all that is heard and told behind that, where what is heard has `> ` in front.
pub struct Talk {
    pub first: &'static str,
    pub text: &'static str,
}

// The sizes of a store of four blocks.
const SIZES: Geometry = Geometry {
    areas: 16,
    blocks: 4,
    quota: 4,
};

// An image of these sizes that holds nothing, on a disk in memory.
fn image(alloc: Global, sizes: Geometry) -> Result<RamDisk, AllocError>
    requires { is_in_range sizes ≡ true }
{
    let mut disk = RamDisk::make(alloc, sizes.image_size())?;
    match format(&mut disk, sizes) {
        Ok(()) => Ok(disk),
        Err(_) => Err(AllocError),
    }
}

/// The lines of a text.
pub fn lines_of(alloc: Global, text: &str) -> Result<Vec<Vec<u8>>, AllocError> {
    let mut lines = Vec::new(alloc);
    for line in text.lines() {
        lines.push(line.as_bytes().to_vec(alloc)?)?;
    }
    Ok(lines)
}

// The lines of a conversation that are heard.
fn heard_lines(alloc: Global, text: &str) -> Result<Vec<Vec<u8>>, AllocError> {
    let mut lines = Vec::new(alloc);
    for line in text.lines() {
        if let Some(line) = line.strip_prefix("> ") {
            lines.push(line.as_bytes().to_vec(alloc)?)?;
        }
    }
    Ok(lines)
}

// What was heard and told, as a text.
fn text_of(alloc: Global, spoken: &[Spoken<Desk<RamDisk>>]) -> Result<Vec<u8>, AllocError> {
    let mut text = Vec::new(alloc);
    for word in spoken {
        if !word.is_told() {
            text.extend_from_slice(b"> ")?;
        }
        text.extend_from_slice(word.line())?;
        text.push(b'\n')?;
    }
    Ok(text)
}

/// The disk of a run.
pub fn disk_of<D: Disk>(run: Completion<D>) -> D {
    let Completion {
        disk,
        history,
        whole: _,
        done,
    } = run;
    drop(history);
    drop(done);
    disk
}

/// What is heard and told where the agents of a first line are asked for these lines over an image that holds nothing, and whether all went
/// out. The port's calls of these numbers fail.
pub fn held<R: AllocGlobal + Wait>(
    rt: &R,
    first: &[u8],
    lines: Vec<Vec<u8>>,
    fails: Vec<u64>,
) -> Result<(Vec<u8>, State), AllocError> {
    let alloc = rt.alloc();
    let disk = image(alloc, SIZES)?;
    let Ok(script) = first_agents(alloc, first) else {
        return Err(AllocError);
    };
    let mut port = MemoryPort::<Desk<RamDisk>>::make(alloc, lines, fails);
    let Ok(ServedRun { run, state }) = serve_disk(rt, disk, script.agents(), &mut port) else {
        return Err(AllocError);
    };
    drop(disk_of(run));
    let text = text_of(alloc, port.spoken())?;
    Ok((text, state))
}

/// Whether a conversation is held word by word, and all goes out.
pub fn is_held<R: AllocGlobal + Wait>(rt: &R, talk: &Talk) -> Result<bool, AllocError> {
    let lines = heard_lines(rt.alloc(), talk.text)?;
    let (text, state) = held(rt, talk.first.as_bytes(), lines, Vec::new(rt.alloc()))?;
    Ok(text.as_slice() == talk.text.as_bytes() && state == State::On)
}

// How many lines a text has.
fn count_lines(text: &[u8]) -> usize {
    let mut count = 0usize;
    for byte in text {
        if *byte == b'\n' {
            count = count.saturating_add(1);
        }
    }
    count
}

/// Whether so many lines of a conversation, and no more, are heard and told where the port's call of this number fails.
pub fn breaks_off<R: AllocGlobal + Wait>(
    rt: &R,
    talk: &Talk,
    call: u64,
    count: usize,
) -> Result<bool, AllocError> {
    let alloc = rt.alloc();
    let lines = heard_lines(alloc, talk.text)?;
    let mut fails = Vec::new(alloc);
    fails.push(call)?;
    let (text, state) = held(rt, talk.first.as_bytes(), lines, fails)?;
    let front = talk.text.as_bytes().starts_with(text.as_slice());
    Ok(front && count_lines(text.as_slice()) == count && state == State::Failed)
}

// A line of so many blanks.
fn blanks(alloc: Global, count: usize) -> Result<Vec<u8>, AllocError> {
    let mut line = Vec::new(alloc);
    line.resize(count, b' ')?;
    Ok(line)
}

/// Whether one agent's conversation of a line of so many blanks ends with this text.
pub fn answers_blanks<R: AllocGlobal + Wait>(
    rt: &R,
    count: usize,
    text: &str,
) -> Result<bool, AllocError> {
    let alloc = rt.alloc();
    let first = many(alloc, 1)?;
    let mut lines = Vec::new(alloc);
    lines.push(blanks(alloc, count)?)?;
    let (all, state) = held(rt, first.as_slice(), lines, Vec::new(alloc))?;
    Ok(all.as_slice().ends_with(text.as_bytes()) && state == State::On)
}

// A first line of so many agents.
fn many(alloc: Global, agents: usize) -> Result<Vec<u8>, AllocError> {
    let mut line = Vec::new(alloc);
    line.extend_from_slice(b"{\"agents\":[{\"origin\":\"https://a.example\"}")?;
    for _ in 1..agents {
        line.extend_from_slice(b",{\"origin\":\"https://a.example\"}")?;
    }
    line.extend_from_slice(b"]}")?;
    Ok(line)
}

/// Whether a conversation of so many agents begins with this text.
pub fn begins<R: AllocGlobal + Wait>(
    rt: &R,
    agents: usize,
    text: &str,
) -> Result<bool, AllocError> {
    let alloc = rt.alloc();
    let first = many(alloc, agents)?;
    let lines = heard_lines(alloc, text)?;
    let (all, state) = held(rt, first.as_slice(), lines, Vec::new(alloc))?;
    Ok(all.as_slice().starts_with(text.as_bytes()) && state == State::On)
}
