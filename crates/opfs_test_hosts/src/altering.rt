//! Transcripts with a line changed.

use std::alloc::{AllocError, Global};

/// What is changed of a line.
#[derive(Clone, Copy, PartialEq, Eq)]
pub enum Change {
    /// Its last digit is another.
    Digit,
    /// Its first digit is another.
    Agent,
    /// Its last letter is another.
    Letter,
    /// It is left out.
    LeftOut,
    /// It stands twice.
    Doubled,
    /// It is exchanged with the next.
    Exchanged,
    /// It stands last.
    Moved,
}

/// All changes.
pub const CHANGES: [Change; 7] = [
    Change::Digit,
    Change::Agent,
    Change::Letter,
    Change::LeftOut,
    Change::Doubled,
    Change::Exchanged,
    Change::Moved,
];

/// The lines of a text, each with its line feed.
pub fn lines_of(alloc: Global, text: &[u8]) -> Result<Vec<Vec<u8>>, AllocError> {
    let mut lines = Vec::new(alloc);
    let mut line = Vec::new(alloc);
    for byte in text {
        line.push(*byte)?;
        if *byte == b'\n' {
            lines.push(line)?;
            line = Vec::new(alloc);
        }
    }
    Ok(lines)
}

// The next digit.
fn after(byte: u8) -> u8 {
    if byte < b'9' { byte + 1 } else { b'0' }
}

// Where a line has its last byte before the line feed.
fn last_of(line: &[u8]) -> usize {
    line.len().saturating_sub(2)
}

// Where a line has its last digit.
fn last_digit_of(line: &[u8]) -> usize {
    let mut found = line.len();
    for index in 0..line.len() {
        if line[index].is_ascii_digit() {
            found = index;
        }
    }
    found
}

// What stands at a place of a line.
fn byte_of(line: &[u8], change: Change, index: usize) -> u8 {
    let byte = match line.get(index) {
        Some(byte) => *byte,
        None => b'?',
    };
    let changed = match change {
        Change::Digit => index == last_digit_of(line),
        Change::Agent => index == 0,
        Change::Letter => index == last_of(line),
        _ => false,
    };
    if !changed {
        return byte;
    }
    if change == Change::Letter {
        b'~'
    } else {
        after(byte)
    }
}

// A line with a byte changed.
fn push_line(text: &mut Vec<u8>, line: &[u8], change: Change) -> Result<(), AllocError> {
    for index in 0..line.len() {
        text.push(byte_of(line, change, index))?;
    }
    Ok(())
}

// Which line stands at a place of the changed text, of so many.
fn line_at(count: usize, change: Change, at: usize, index: usize) -> usize {
    match change {
        Change::LeftOut if index >= at => index.saturating_add(1),
        Change::Doubled if index > at => index.saturating_sub(1),
        Change::Exchanged => exchanged(count, at, index),
        Change::Moved => moved(count, at, index),
        _ => index,
    }
}

// The same where a line is exchanged with the next, which is there.
fn exchanged(count: usize, at: usize, index: usize) -> usize {
    let next = at.saturating_add(1);
    if next >= count {
        index
    } else if index == at {
        next
    } else if index == next {
        at
    } else {
        index
    }
}

// The same where a line stands last.
fn moved(count: usize, at: usize, index: usize) -> usize {
    let next = index.saturating_add(1);
    if index < at || index >= count {
        index
    } else if next == count {
        at
    } else {
        next
    }
}

/// A text with one line changed.
pub fn altered(
    alloc: Global,
    lines: &[Vec<u8>],
    change: Change,
    at: usize,
) -> Result<Vec<u8>, AllocError> {
    let mut text = Vec::new(alloc);
    for index in 0..lines.len().saturating_add(1) {
        let from = line_at(lines.len(), change, at, index);
        let Some(line) = lines.get(from) else {
            continue;
        };
        let here = if index == at { change } else { Change::Moved };
        push_line(&mut text, line.as_slice(), here)?;
    }
    Ok(text)
}
