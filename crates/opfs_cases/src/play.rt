//! Cases as they are played, part by part.

mod looks;

use crate::ends::End;
use crate::marks::States;
use crate::names::{Names, number_of, range_of};
use crate::parts::{Part, split};
use crate::sweep::Sweep;
use opfs_memory::{MemHost, MemSource};
use opfs_test_hosts::{calls, content, host, host_with, judged, ran, ran_within};
use std::alloc::{AllocError, Global};
use std::sync::Wait;
use std::thread::Threads;

// How many bytes a command may write where no other number is said.
const ROOM: u64 = 4_194_304;

// How many calls a disk keeps, and how many bytes that were written.
const CALLS: u64 = 65_536;

const WRITTEN: u64 = 16_777_216;

/// What was read and done so far.
#[derive(Drop)]
pub struct Play {
    pub names: Names,
    /// The case, and what differs in it.
    case: String,
    differs: String,
    host: MemHost,
    images: Vec<(Vec<u8>, Vec<u8>)>,
    /// Of the next command: how many bytes it may write, and which reads fail.
    room: u64,
    fails: Vec<u64>,
    /// What the last command read and told, and what it might have told.
    input: Vec<u8>,
    told: String,
    may: Vec<Vec<u8>>,
    /// How many calls recover an image.
    first: u64,
    states: States,
    ends: Vec<End>,
    /// How many cases ended as they are to, and how many otherwise, with a line of each.
    pub right: u64,
    pub wrong: u64,
    pub report: String,
}

impl Play {
    /// Nothing was read.
    pub fn make(alloc: Global) -> Result<Play, AllocError> {
        Ok(Play {
            names: Names::make(alloc),
            case: String::new(alloc),
            differs: String::new(alloc),
            host: host(alloc)?,
            images: Vec::new(alloc),
            room: ROOM,
            fails: Vec::new(alloc),
            input: Vec::new(alloc),
            told: String::new(alloc),
            may: Vec::new(alloc),
            first: 0,
            states: States::make(alloc, String::new(alloc), Vec::new(alloc)),
            ends: Vec::new(alloc),
            right: 0,
            wrong: 0,
            report: String::new(alloc),
        })
    }

    /// Does what a part asks for.
    pub fn part<R: AllocGlobal + Threads + Wait + Sync>(
        &mut self,
        rt: &R,
        part: &Part<'_>,
    ) -> Result<(), AllocError> {
        let alloc = rt.alloc();
        let text = self.names.text_of(alloc, part)?;
        match part.word {
            "do" => self.command(rt, part.rest, text),
            "each" => self.each(rt, part.rest, text),
            "first" => self.measure(rt, part.rest, text),
            "judged" => self.judge(rt, part.rest),
            "out" | "may" | "status" | "lines" | "count" => self.told_is(alloc, part, text),
            "same" | "bytes" | "calls" | "crash" | "shown" | "left" => {
                self.image_is(alloc, part, &text)
            }
            _ => self.prepare(alloc, part, text),
        }
    }

    // Keeps what is needed later.
    fn prepare(&mut self, alloc: Global, part: &Part<'_>, text: Vec<u8>) -> Result<(), AllocError> {
        match part.word {
            "case" => self.begin_case(alloc, part.rest),
            "text" => self.names.push(String::from_str(alloc, part.rest)?, text),
            "image" => self.keep_image(alloc, part.rest, text),
            "host" => self.make_host(alloc, part.rest),
            "keep" => self.keep(alloc, part.rest),
            "states" => self.take_states(alloc, part.rest),
            "end" => self.take_end(alloc, part.rest, text, false),
            "front" => self.take_end(alloc, part.rest, text, true),
            "room" => {
                self.room = number_of(part.rest);
                Ok(())
            }
            "source" => {
                self.fails.push(number_of(part.rest))?;
                Ok(())
            }
            _ => self.differ(alloc, "what is asked for", part.word),
        }
    }

    // Tells that something differs, where it is the first in its case.
    fn differ(&mut self, alloc: Global, what: &str, told: &str) -> Result<(), AllocError> {
        if self.differs.is_empty() {
            self.differs = format!(in alloc; "{what}: {told}")?;
        }
        Ok(())
    }

    // Ends a case, and begins another with a host that has no image.
    fn begin_case(&mut self, alloc: Global, name: &str) -> Result<(), AllocError> {
        self.end_case(alloc)?;
        self.case = String::from_str(alloc, name)?;
        self.host = host(alloc)?;
        Ok(())
    }

    /// Ends a case, and tells how it went.
    pub fn end_case(&mut self, alloc: Global) -> Result<(), AllocError> {
        if self.case.is_empty() {
            return Ok(());
        }
        let case = self.case.as_str();
        let line = if self.differs.is_empty() {
            self.right = self.right.saturating_add(1);
            format!(in alloc; "{case}: ok\n")?
        } else {
            self.wrong = self.wrong.saturating_add(1);
            let differs = self.differs.as_str();
            format!(in alloc; "{case}: {differs}\n")?
        };
        self.report.push_str(line.as_str())?;
        self.clear(alloc);
        Ok(())
    }

    // Forgets what belongs to a case.
    fn clear(&mut self, alloc: Global) {
        self.case = String::new(alloc);
        self.differs = String::new(alloc);
        self.images = Vec::new(alloc);
        self.ends = Vec::new(alloc);
        self.may = Vec::new(alloc);
    }

    // Keeps an image for the next host.
    fn keep_image(&mut self, alloc: Global, path: &str, image: Vec<u8>) -> Result<(), AllocError> {
        let path = path.as_bytes().to_vec(alloc)?;
        self.images.push((path, image))?;
        Ok(())
    }

    // The number of a call of the disk; `end` is the last one.
    fn call_of(&self, text: &str) -> u64 {
        if text == "end" {
            return calls(&self.host);
        }
        match text.strip_prefix("+") {
            Some(behind) => self.first.saturating_add(number_of(behind)),
            None => number_of(text),
        }
    }

    // A host of the kept images whose calls of these numbers fail.
    fn make_host(&mut self, alloc: Global, fails: &str) -> Result<(), AllocError> {
        let mut own = Vec::new(alloc);
        let mut disk = Vec::new(alloc);
        let mut stop = None;
        let mut words = fails.split_whitespace();
        while let Some(word) = words.next() {
            let number = self.call_of(words.next().unwrap_or(""));
            match word {
                "own" => own.push(number)?,
                "disk" => disk.push(number)?,
                _ => stop = Some(number),
            }
        }
        let images = std::mem::replace(&mut self.images, Vec::new(alloc));
        self.host = MemHost::make(alloc, images, own, disk, stop, CALLS, WRITTEN)?;
        Ok(())
    }

    // Names the image at the path `I`.
    fn keep(&mut self, alloc: Global, name: &str) -> Result<(), AllocError> {
        let image = content(&self.host).to_vec(alloc)?;
        self.names.push(String::from_str(alloc, name)?, image)
    }

    // The texts that an image may have by a tool.
    fn take_states(&mut self, alloc: Global, line: &str) -> Result<(), AllocError> {
        let (tool, names) = split(line);
        let mut texts = Vec::new(alloc);
        for name in names.split_whitespace() {
            texts.push(self.names.of(name).to_vec(alloc)?)?;
        }
        self.states = States::make(alloc, String::from_str(alloc, tool)?, texts);
        Ok(())
    }

    // An end of the next sweep.
    fn take_end(
        &mut self,
        alloc: Global,
        line: &str,
        text: Vec<u8>,
        is_front: bool,
    ) -> Result<(), AllocError> {
        let (status, line) = split(line);
        let (left, line) = split(line);
        let (crashed, range) = split(line);
        let (least, most) = range_of(range);
        self.ends.push(End {
            told: told_of(alloc, status, &text)?,
            left: String::from_str(alloc, left)?,
            crashed: String::from_str(alloc, crashed)?,
            is_front,
            least,
            most,
            met: 0,
        })?;
        Ok(())
    }

    // Does a command.
    fn command<R: AllocGlobal + Threads + Wait + Sync>(
        &mut self,
        rt: &R,
        words: &str,
        input: Vec<u8>,
    ) -> Result<(), AllocError> {
        let alloc = rt.alloc();
        let fails = std::mem::replace(&mut self.fails, Vec::new(alloc));
        let source = MemSource::make(input.to_vec(alloc)?, fails);
        self.input = input;
        self.told = ran_within(rt, words, &mut self.host, source, self.room)?;
        self.room = ROOM;
        Ok(())
    }

    // Does a command again and again, where each time another call of the disk fails.
    fn each<R: AllocGlobal + Threads + Wait + Sync>(
        &mut self,
        rt: &R,
        line: &str,
        input: Vec<u8>,
    ) -> Result<(), AllocError> {
        let alloc = rt.alloc();
        let (how, line) = split(line);
        let (image, command) = split(line);
        let sweep = Sweep {
            command: String::from_str(alloc, command)?,
            input,
            image: self.names.of(image).to_vec(alloc)?,
            others: std::mem::replace(&mut self.images, Vec::new(alloc)),
            once: how == "once",
        };
        let mut ends = std::mem::replace(&mut self.ends, Vec::new(alloc));
        let wrong = sweep.wrong(rt, &mut self.states, &mut ends)?;
        if wrong.is_empty() {
            return Ok(());
        }
        self.differ(alloc, command, wrong.as_str())
    }

    // Counts the calls of the disk that a command makes over an image.
    fn measure<R: AllocGlobal + Threads + Wait + Sync>(
        &mut self,
        rt: &R,
        line: &str,
        input: Vec<u8>,
    ) -> Result<(), AllocError> {
        let (image, command) = split(line);
        let mut host = host_with(rt.alloc(), self.names.of(image))?;
        let _ = ran(rt, command, &mut host, &input)?;
        self.first = calls(&host);
        Ok(())
    }

    // Asks for the verdict on what the last command read and told.
    fn judge<R: AllocGlobal + Threads + Wait + Sync>(
        &mut self,
        rt: &R,
        word: &str,
    ) -> Result<(), AllocError> {
        let script = str::from_utf8(&self.input).unwrap_or("");
        let verdict = judged(rt, script, self.told.as_str())?;
        let wanted = format!(in rt.alloc(); "0\n{word}\n")?;
        if verdict.as_str() == wanted.as_str() {
            return Ok(());
        }
        self.differ(rt.alloc(), "judged", verdict.as_str())
    }
}

// A status and a text, as a command tells them.
fn told_of(alloc: Global, status: &str, text: &[u8]) -> Result<String, AllocError> {
    let text = str::from_utf8(text).unwrap_or("no text");
    format!(in alloc; "{status}\n{text}")
}
