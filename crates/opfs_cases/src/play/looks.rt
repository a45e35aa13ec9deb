//! What a case wants of a command, and of the image that it leaves.

use crate::marks::other;
use crate::names::number_of;
use crate::parts::{Part, split};
use crate::play::{Play, told_of};
use opfs_test_hosts::{calls, content, lines_with};
use std::alloc::{AllocError, Global};

impl Play {
    /// Looks at what the last command told.
    pub fn told_is(
        &mut self,
        alloc: Global,
        part: &Part<'_>,
        text: Vec<u8>,
    ) -> Result<(), AllocError> {
        match part.word {
            "out" => self.out(alloc, part.rest, text),
            "may" => {
                let told = told_of(alloc, part.rest, &text)?;
                self.may.push(told.into_bytes())?;
                Ok(())
            }
            "status" => {
                let (status, _) = self.told.as_str().split_once('\n').unwrap_or(("", ""));
                let status = String::from_str(alloc, status)?;
                self.is(alloc, part.word, status.as_str(), part.rest.as_bytes())
            }
            "lines" => {
                let some = lines_with(alloc, self.told.as_str(), part.rest)?;
                self.is(alloc, part.word, some.as_str(), &text)
            }
            _ => {
                let count = self.told.as_str().lines().count().saturating_sub(1);
                let count = format!(in alloc; "{count}")?;
                self.is(alloc, part.word, count.as_str(), part.rest.as_bytes())
            }
        }
    }

    // Looks whether the last command told this, or what it might have told.
    fn out(&mut self, alloc: Global, status: &str, text: Vec<u8>) -> Result<(), AllocError> {
        let wanted = told_of(alloc, status, &text)?;
        let may = std::mem::replace(&mut self.may, Vec::new(alloc));
        let told = self.told.clone()?;
        if may.iter().any(|one| one.as_slice() == told.as_bytes()) {
            return Ok(());
        }
        self.is(alloc, "told", told.as_str(), wanted.as_bytes())
    }

    // Looks whether a text is as it is to be.
    fn is(
        &mut self,
        alloc: Global,
        what: &str,
        text: &str,
        wanted: &[u8],
    ) -> Result<(), AllocError> {
        if text.as_bytes() == wanted {
            return Ok(());
        }
        self.differ(alloc, what, text)
    }

    /// Looks at the image at the path `I`, or at what crashes leave of it.
    pub fn image_is(
        &mut self,
        alloc: Global,
        part: &Part<'_>,
        text: &[u8],
    ) -> Result<(), AllocError> {
        let rest = part.rest;
        match part.word {
            "same" => {
                let is_same = content(&self.host) == self.names.of(rest);
                self.holds(alloc, is_same, part)
            }
            "bytes" => {
                let there = content(&self.host).iter().skip(number_of(rest) as usize);
                let is_there = there.take(text.len()).eq(text.iter());
                self.holds(alloc, is_there, part)
            }
            "calls" => {
                let is_so_many = calls(&self.host) == self.call_of(rest);
                self.holds(alloc, is_so_many, part)
            }
            "crash" => self.crash(alloc, part),
            "shown" => self.shown(alloc, part),
            _ => {
                let mark = self.states.mark(alloc, content(&self.host))?;
                self.is(alloc, part.word, mark, rest.as_bytes())
            }
        }
    }

    // Tells where something does not hold.
    fn holds(&mut self, alloc: Global, holds: bool, part: &Part<'_>) -> Result<(), AllocError> {
        if holds {
            return Ok(());
        }
        self.differ(alloc, part.word, part.rest)
    }

    // Looks at what a crash leaves for each of some choices.
    fn crash(&mut self, alloc: Global, part: &Part<'_>) -> Result<(), AllocError> {
        let (at, line) = split(part.rest);
        let at = self.call_of(at);
        let Some((names, wanted)) = line.rsplit_once(' ') else {
            return self.differ(alloc, part.word, line);
        };
        let mut marks = String::new(alloc);
        for name in names.split_whitespace() {
            marks.push_str(self.mark_after(alloc, at, name)?)?;
        }
        self.is(alloc, part.rest, marks.as_str(), wanted.as_bytes())
    }

    // The mark of what a crash leaves for a choice.
    fn mark_after(
        &mut self,
        alloc: Global,
        at: u64,
        name: &str,
    ) -> Result<&'static str, AllocError> {
        match self.host.given("I") {
            Some(disk) if name == "other" => {
                let other = other(alloc, disk)?;
                self.states.mark_after(alloc, disk, at, &other)
            }
            Some(disk) => self.states.mark_after(alloc, disk, at, self.names.of(name)),
            None => Ok("?"),
        }
    }

    // Looks at what a crash leaves at one moment after another.
    fn shown(&mut self, alloc: Global, part: &Part<'_>) -> Result<(), AllocError> {
        let (step, line) = split(part.rest);
        let (name, wanted) = split(line);
        let choice = self.choice(alloc, name)?;
        let shown = self
            .states
            .shown(alloc, &self.host, number_of(step), &choice)?;
        self.is(alloc, part.rest, shown.as_str(), wanted.as_bytes())
    }

    // The bytes of a choice.
    fn choice(&self, alloc: Global, name: &str) -> Result<Vec<u8>, AllocError> {
        match self.host.given("I") {
            Some(disk) if name == "other" => other(alloc, disk),
            _ => self.names.of(name).to_vec(alloc),
        }
    }
}
