//! The lines of a file of cases.

use std::alloc::{AllocError, Global};

/// A line that asks for something, and the lines of the text below it.
#[derive(Drop)]
pub struct Part<'a> {
    pub word: &'a str,
    pub rest: &'a str,
    pub text: Vec<&'a str>,
}

/// What stands before the first blank, and behind it.
pub fn split(line: &str) -> (&str, &str) {
    line.split_once(' ').unwrap_or((line, ""))
}

// Whether a line is one of a text.
fn is_of_text(line: &str) -> bool {
    let (sign, _) = split(line);
    matches!(sign, "|" | "+" | "*" | "*|" | "@" | "$" | "!" | "%")
}

// Takes a line more.
fn push_line<'a>(
    alloc: Global,
    parts: &mut Vec<Part<'a>>,
    line: &'a str,
) -> Result<(), AllocError> {
    if is_of_text(line) {
        if let Some(part) = parts.last_mut() {
            part.text.push(line)?;
        }
        return Ok(());
    }
    let (word, rest) = split(line);
    parts.push(Part {
        word,
        rest,
        text: Vec::new(alloc),
    })?;
    Ok(())
}

/// The parts of a file.
pub fn parts_of<'a>(alloc: Global, file: &'a str) -> Result<Vec<Part<'a>>, AllocError> {
    let mut parts = Vec::new(alloc);
    for line in file.lines() {
        if !line.is_empty() && !line.starts_with('#') {
            push_line(alloc, &mut parts, line)?;
        }
    }
    Ok(parts)
}
