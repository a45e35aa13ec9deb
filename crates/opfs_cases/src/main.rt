//! The program `opfs_cases`: the cases of the files that its words name, each with a line that tells whether it ended as it
//! is to. A file whose name ends with `.cases` holds cases; any other is a text by its path, for the cases behind it.
//!
//! A file of cases has lines of three kinds. Empty ones, and those that begin with `#`, tell nothing. One that begins with a
//! sign and a blank is a line of a text; the lines of a text stand below the line that asks for it:
//!
//!   | TEXT       the text and a line feed                    @ NAME       the text or image of that name
//!   + TEXT       the text without a line feed                $ HEX        bytes in hexadecimal
//!   * N TEXT     the text so often, `{n}` being the number   ! AT HEX     these bytes over those at a place
//!   *| N TEXT    the same, each time with a line feed        % LEN        cut to a length, or filled with zeros
//!
//! Where the numbers are not from 1 on, N is two numbers with `-` between. Any other line asks for something:
//!
//!   case NAME              a case begins, with a host that has no image
//!   text NAME              names the text below
//!   image PATH             keeps the text below as an image for the next host, or for those of the next `each`
//!   host FAILS             a host of the kept images: `own K` and `disk K` name calls that fail, `stop K` the last that does not
//!   room N, source K       of the next command: how many bytes it may write, and a read that fails
//!   do WORDS               a command, which reads the text below
//!   out STATUS             how it ended; `may STATUS` above it says how else it may have ended
//!   status STATUS          the same without what it put out
//!   lines FRONT            which lines of what it put out begin so
//!   count N                how many lines it put out
//!   judged WORD            what `judge` says of what it read and put out
//!   keep NAME              names the image at the path `I`
//!   same NAME, bytes AT    that image is the one of a name; has the bytes below at a place
//!   first NAME WORDS       how many calls of the disk a command makes over an image; `+K` is K behind those, and `end` is the
//!                          last call that was made
//!   calls N                how many calls the disk has had that came back last
//!   states TOOL NAME..     the texts that an image may have by a tool, or by `same` the images; each has a mark, from `0` on
//!   crash AT NAME.. MARKS  the marks of what a crash leaves after so many calls, where the bytes since the last sync are
//!                          those of these images; `other` are bytes that stood nowhere
//!   shown N NAME MARKS     the marks of what a crash leaves after no call, N calls and so on, each once where it stays
//!   left MARK              the mark of the image
//!   end STATUS MARKS MARKS RANGE   an end of the next `each`: the marks of the image, those of what a crash may leave, and how
//!                          often it may be met; `front` in place of `end` has any front of the text, and the line of a fault
//!   each once NAME WORDS   a command over an image, again and again, where each time another call of the disk fails, or with
//!                          `ever` all from there on
//!
//! It stands on `opfs_test_hosts`.
#![tactic(auto)]

mod ends;
mod marks;
mod names;
mod parts;
mod play;
mod sweep;

use crate::names::Names;
use crate::parts::parts_of;
use crate::play::Play;
use std::alloc::AllocError;
use std::env::{self, Env};
use std::fs::{self, File, Files};
use std::io::{self, Print};
use std::process::ExitCode;
use std::sync::Wait;
use std::thread::Threads;

// A file as a text; an empty one where it cannot be read.
fn text_of<R: AllocGlobal + Files<File = File>>(rt: &R, path: &str) -> String {
    match fs::read_to_string(rt, path) {
        Ok(text) => text,
        Err(_) => String::new(rt.alloc()),
    }
}

// Plays the cases of a file, behind the texts that were read before, and gives a line of each.
fn play_all<R: AllocGlobal + Threads + Wait + Sync>(
    rt: &R,
    state: &mut Play,
    text: &str,
) -> Result<String, AllocError> {
    for part in parts_of(rt.alloc(), text)? {
        state.part(rt, &part)?;
    }
    state.end_case(rt.alloc())?;
    Ok(std::mem::replace(&mut state.report, String::new(rt.alloc())))
}

// Takes one file: plays its cases, or names its text. Gives a line of each case.
fn take<R: AllocGlobal + Threads + Wait + Sync + Files<File = File>>(
    rt: &R,
    state: &mut Play,
    path: String,
) -> Result<String, AllocError> {
    let text = text_of(rt, path.as_str());
    if path.as_str().ends_with(".cases") {
        return play_all(rt, state, text.as_str());
    }
    state.names.push(path, text.into_bytes())?;
    Ok(String::new(rt.alloc()))
}

// Takes all files that the words name, and prints a line of each case, and one of all. Answers whether all are right.
fn report<R>(rt: &R) -> io::Result<bool>
where
    R: AllocGlobal + Threads + Wait + Sync + Files<File = File> + Env + Print,
{
    let mut state = Play::make(rt.alloc())?;
    for path in env::args(rt)?.skip(1) {
        let lines = take(rt, &mut state, path)?;
        print!(rt; "{lines}")?;
    }
    let (right, wrong) = (state.right, state.wrong);
    println!(rt; "{right} as they are to end, {wrong} otherwise")?;
    Ok(wrong == 0)
}

fn main(rt: HostRuntime) -> ExitCode {
    match report(&rt) {
        Ok(true) => ExitCode::from(0),
        Ok(false) => ExitCode::from(1),
        Err(_) => ExitCode::from(2),
    }
}
