//! Texts and images by name, and the texts that a file of cases writes.

use crate::parts::{Part, split};
use std::alloc::{AllocError, Global};

/// Texts and images by name.
#[derive(Drop)]
pub struct Names {
    items: Vec<(String, Vec<u8>)>,
}

impl Names {
    /// No names.
    pub fn make(alloc: Global) -> Names {
        Names {
            items: Vec::new(alloc),
        }
    }

    /// Names bytes; those that had the name before have it no more.
    pub fn push(&mut self, name: String, bytes: Vec<u8>) -> Result<(), AllocError> {
        self.items.push((name, bytes))?;
        Ok(())
    }

    /// The bytes of a name; none where nothing has it.
    pub fn of(&self, name: &str) -> &[u8] {
        let found = self.items.iter().rev().find(|item| item.0.as_str() == name);
        match found {
            Some(item) => item.1.as_slice(),
            None => &[],
        }
    }

    /// The text below a line.
    pub fn text_of(&self, alloc: Global, part: &Part<'_>) -> Result<Vec<u8>, AllocError> {
        let mut bytes = Vec::new(alloc);
        for line in part.text.iter() {
            self.push_line(alloc, &mut bytes, line)?;
        }
        Ok(bytes)
    }

    // Appends what a line of a text stands for, or changes what stands before it.
    fn push_line(&self, alloc: Global, bytes: &mut Vec<u8>, line: &str) -> Result<(), AllocError> {
        let (sign, rest) = split(line);
        match sign {
            "|" => push_ended(bytes, rest),
            "@" => bytes.extend_from_slice(self.of(rest)),
            "$" => push_hex(bytes, rest),
            "!" => overwrite(alloc, bytes, rest),
            "%" => bytes.resize(number_of(rest) as usize, 0),
            "*" => repeat(alloc, bytes, rest, ""),
            "*|" => repeat(alloc, bytes, rest, "\n"),
            _ => bytes.extend_from_slice(rest.as_bytes()),
        }
    }
}

/// The number that a text is; 0 where it is none.
pub fn number_of(text: &str) -> u64 {
    text.parse::<u64>().unwrap_or(0)
}

// Appends a text and a line feed.
fn push_ended(bytes: &mut Vec<u8>, text: &str) -> Result<(), AllocError> {
    bytes.extend_from_slice(text.as_bytes())?;
    bytes.push(b'\n')?;
    Ok(())
}

// The value of a digit in hexadecimal; None of any other character.
fn digit(letter: u8) -> Option<u8> {
    match letter {
        b'0'..=b'9' => Some(letter - b'0'),
        b'a'..=b'f' => Some(letter - b'a' + 10),
        _ => None,
    }
}

// Appends the bytes of digits by twos; blanks are left out.
fn push_hex(bytes: &mut Vec<u8>, text: &str) -> Result<(), AllocError> {
    let mut high: Option<u8> = None;
    for letter in text.bytes() {
        let Some(low) = digit(letter) else {
            continue;
        };
        high = match high {
            Some(high) => {
                bytes.push((high << 4) | low)?;
                None
            }
            None => Some(low),
        };
    }
    Ok(())
}

// Writes bytes over those at a place, as far as there are some.
fn overwrite(alloc: Global, bytes: &mut Vec<u8>, text: &str) -> Result<(), AllocError> {
    let (at, digits) = split(text);
    let mut patch = Vec::new(alloc);
    push_hex(&mut patch, digits)?;
    let places = bytes.iter_mut().skip(number_of(at) as usize);
    for (place, byte) in places.zip(patch.iter()) {
        *place = *byte;
    }
    Ok(())
}

// Two numbers with `-` between, or 1 and the number.
pub fn range_of(text: &str) -> (u64, u64) {
    match text.split_once('-') {
        Some((first, last)) => (number_of(first), number_of(last)),
        None => (1, number_of(text)),
    }
}

// Appends a text so often, and each time its end.
fn repeat(alloc: Global, bytes: &mut Vec<u8>, line: &str, end: &str) -> Result<(), AllocError> {
    let (range, text) = split(line);
    let (first, last) = range_of(range);
    let Some((front, back)) = text.split_once("{n}") else {
        return push_often(alloc, bytes, number_of(range), text, end);
    };
    for number in first..last.saturating_add(1) {
        let once = format!(in alloc; "{front}{number}{back}{end}")?;
        bytes.extend_from_slice(once.as_bytes())?;
    }
    Ok(())
}

// Appends a text without numbers so often, and each time its end.
fn push_often(
    alloc: Global,
    bytes: &mut Vec<u8>,
    count: u64,
    text: &str,
    end: &str,
) -> Result<(), AllocError> {
    let once = format!(in alloc; "{text}{end}")?;
    let all = once.as_bytes().repeat(alloc, count as usize)?;
    bytes.extend_from_slice(&all)
}
