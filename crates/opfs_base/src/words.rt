//! The words of a command line.

ghost use Rattle.std.specs.Prelude.{◌≡◌};

use crate::bytes::Bytes;
use std::marker::Model;

/// The words of a command line, seen as the list of their bytes.
#[derive(Drop)]
pub struct Words {
    items: Vec<Bytes>,
}

impl Model for Words {
    ghost use Rattle.std.specs.Prelude.{List, ℕ};

    ghost Value = { List (List ℕ) };

    ghost view = { λ words. words.items.items };
}

impl Words {
    /// The words of a vector. Takes no memory.
    pub fn from_vec(items: Vec<Bytes>) -> Words
        ensures { result ≡ items.items }
    {
        Words { items }
    }

    /// The words as a slice.
    pub fn as_slice(&self) -> &[Bytes]
        ensures { result.now ≡ self.now }
    {
        self.items.as_slice()
    }
}
