//! Texts that stand one behind another.

ghost use Rattle.std.specs.Prelude.{◌≡◌, [], ◌∷◌, ◌++◌, take, drop, length, IfOk, OnErr, OnOk, MatchOption};

use std::alloc::{AllocError, Global};
use std::marker::Model;

/// Texts in one piece of memory, with four bytes more for each, seen as the list of them.
#[derive(Drop)]
pub struct Texts {
    lengths: Vec<u32>,
    bytes: Vec<u8>,
}

impl Model for Texts {
    ghost use Rattle.std.specs.Prelude.{List, ℕ};
    ghost use Rattle.opfs_script_kept.specs.Packed.Texts.{cut};

    ghost Value = { List (List ℕ) };

    ghost view = { λ texts. cut texts.lengths.items texts.bytes.items };

    ghost use Rattle.std.specs.Prelude.{◌≡◌, length};
    ghost use Rattle.opfs_script_kept.specs.Packed.Texts.{sum_of};

    ghost invariant = { λ texts. sum_of texts.lengths.items ≡ length texts.bytes.items };
}

/// The length of a text. One that 32 bits don't hold is want of memory.
fn length_of(text: &[u8]) -> Result<u32, AllocError>
    ensures { IfOk result (λ count. count ≡ length text.now) }
{
    match u32::try_from(text.len()) {
        Ok(length) => Ok(length),
        Err(_) => Err(AllocError),
    }
}

impl Texts {
    /// No text. Takes no memory.
    pub fn empty(alloc: Global) -> Texts
        ensures { result ≡ [] }
    {
        Texts {
            lengths: Vec::new(alloc),
            bytes: Vec::new(alloc),
        }
    }

    /// Adds a text behind the others. On want of memory they are as they were; a text of 2^32 bytes and more is that too.
    pub fn push(&mut self, text: &[u8]) -> Result<(), AllocError>
        ensures ok { OnOk result (self.new ≡ self.old ++ text.now ∷ []) }
        ensures err { OnErr result (self.new ≡ self.old) }
    {
        let length = length_of(text)?;
        self.lengths.reserve(1)?;
        self.bytes.extend_from_slice(text)?;
        self.lengths.push_reserved(length);
        Ok(())
    }

    /// All texts, from the first on.
    pub fn ahead(&self) -> TextsAhead<'_>
        ensures { result ≡ self.now }
    {
        TextsAhead {
            lengths: self.lengths.as_slice(),
            bytes: self.bytes.as_slice(),
        }
    }
}

/// The texts that are still to come, seen as the list of them.
#[derive(Drop)]
pub struct TextsAhead<'a> {
    lengths: &'a [u32],
    bytes: &'a [u8],
}

impl<'a> Model for TextsAhead<'a> {
    ghost use Rattle.std.specs.Prelude.{List, ℕ};
    ghost use Rattle.opfs_script_kept.specs.Packed.Texts.{cut};

    ghost Value = { List (List ℕ) };

    ghost view = { λ ahead. cut ahead.lengths.now ahead.bytes.now };
}

/// The first bytes of a list, so many or all, and those behind them.
fn split(bytes: &[u8], count: usize) -> (&[u8], &[u8])
    ensures first { result.0.now ≡ take count bytes.now }
    ensures rest { result.1.now ≡ drop count bytes.now }
{
    if count < bytes.len() {
        bytes.split_at(count)
    } else {
        (bytes, &[])
    }
}

impl<'a> TextsAhead<'a> {
    /// The same texts once more.
    pub fn copy(&self) -> TextsAhead<'a>
        ensures { result ≡ self.now }
    {
        TextsAhead {
            lengths: self.lengths,
            bytes: self.bytes,
        }
    }

    /// Goes past the first text, and gives it; None where none is left.
    pub fn next(&mut self) -> Option<&'a [u8]>
        ensures { MatchOption result (self.old ≡ []) (λ text. self.old ≡ text.now ∷ self.new) }
    {
        let [length, lengths @ ..] = self.lengths else {
            return None;
        };
        let (text, bytes) = split(self.bytes, *length as usize);
        self.lengths = lengths;
        self.bytes = bytes;
        Some(text)
    }
}
