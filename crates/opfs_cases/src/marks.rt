//! What images are, in short: the places of what a tool tells of them in a list.

use opfs_memory::{MemDisk, MemHost};
use opfs_test_hosts::{calls, done, host_with, image_after};
use std::alloc::{AllocError, Global};

/// The texts that an image may have by a tool; the image that was looked at last, and the place of its text.
#[derive(Drop)]
pub struct States {
    tool: String,
    texts: Vec<Vec<u8>>,
    seen: Vec<u8>,
    place: Option<usize>,
}

impl States {
    /// The texts that an image may have by a tool.
    pub fn make(alloc: Global, tool: String, texts: Vec<Vec<u8>>) -> States {
        States {
            tool,
            texts,
            seen: Vec::new(alloc),
            place: None,
        }
    }

    // What the tool tells of an image; the image itself where the tool is `same`.
    fn told_of(&self, alloc: Global, image: &[u8]) -> Result<Vec<u8>, AllocError> {
        let tool = self.tool.as_str();
        if tool == "same" {
            return image.to_vec(alloc);
        }
        let mut host = host_with(alloc, image)?;
        let command = format!(in alloc; "{tool} I")?;
        let told = done(alloc, command.as_str(), &mut host)?;
        Ok(told.into_bytes())
    }

    /// The mark of an image: the place of its text, or `?` where it has another one.
    pub fn mark(&mut self, alloc: Global, image: &[u8]) -> Result<&'static str, AllocError> {
        if image.is_empty() || self.seen.as_slice() != image {
            let told = self.told_of(alloc, image)?;
            self.place = self
                .texts
                .iter()
                .position(|text| text.as_slice() == told.as_slice());
            self.seen = image.to_vec(alloc)?;
        }
        Ok(digit(self.place))
    }

    /// The mark of what a crash leaves of a disk after so many calls.
    pub fn mark_after(
        &mut self,
        alloc: Global,
        disk: &MemDisk,
        at: u64,
        choice: &[u8],
    ) -> Result<&'static str, AllocError> {
        let image = image_after(alloc, disk, at, choice)?;
        self.mark(alloc, &image)
    }

    /// The marks of what a crash leaves after so many calls, with the bytes of the last sync, those that were written, and
    /// others.
    pub fn marks_left(
        &mut self,
        alloc: Global,
        disk: &MemDisk,
        at: u64,
    ) -> Result<String, AllocError> {
        let other = other(alloc, disk)?;
        let mut marks = String::from_str(alloc, self.mark_after(alloc, disk, at, disk.synced())?)?;
        marks.push_str(self.mark_after(alloc, disk, at, disk.content())?)?;
        marks.push_str(self.mark_after(alloc, disk, at, &other)?)?;
        Ok(marks)
    }

    // Appends the mark of what a crash leaves after so many calls, if another one is last.
    fn push_shown(
        &mut self,
        alloc: Global,
        shown: &mut String,
        disk: &MemDisk,
        at: u64,
        choice: &[u8],
    ) -> Result<(), AllocError> {
        let mark = self.mark_after(alloc, disk, at, choice)?;
        if shown.as_str().ends_with(mark) {
            return Ok(());
        }
        shown.push_str(mark)
    }

    /// The marks of what a crash leaves after no call, so many calls and so on, each once where it stays.
    pub fn shown(
        &mut self,
        alloc: Global,
        host: &MemHost,
        step: u64,
        choice: &[u8],
    ) -> Result<String, AllocError> {
        let mut shown = String::new(alloc);
        let Some(disk) = host.given("I") else {
            return Ok(shown);
        };
        let turns = calls(host) / step.max(1);
        for turn in 0..turns.saturating_add(1) {
            let at = turn.saturating_mul(step);
            self.push_shown(alloc, &mut shown, disk, at, choice)?;
        }
        Ok(shown)
    }
}

/// Bytes that stood nowhere, as many as a disk has.
pub fn other(alloc: Global, disk: &MemDisk) -> Result<Vec<u8>, AllocError> {
    vec![in alloc; 0xA5; disk.content().len()]
}

// A place as a mark.
fn digit(place: Option<usize>) -> &'static str {
    match place {
        Some(0) => "0",
        Some(1) => "1",
        Some(2) => "2",
        Some(3) => "3",
        Some(4) => "4",
        _ => "?",
    }
}
