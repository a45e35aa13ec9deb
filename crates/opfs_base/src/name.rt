//! File names.

ghost use Rattle.std.specs.Prelude.{◌≡◌, ◌↔◌, IsTrue, IfOk};
ghost use Rattle.opfs_base.specs.Names.{is_valid_name};

use crate::bytes::Bytes;
use std::alloc::{AllocError, Global};
use std::marker::Model;

/// Whether a text is a valid file name (File System: valid file name).
pub fn is_valid_name(text: &str) -> bool
    ensures { result ≡ is_valid_name text.now }
{
    let is_dots = text == "." || text == "..";
    !text.is_empty() && !is_dots && !text.as_bytes().contains(&b'/')
}

/// The name of a file or directory, seen as its UTF-8. It is always a valid file name.
#[derive(Drop, PartialEq, Eq, PartialOrd, Ord)]
pub struct Name {
    text: Bytes,
}

impl Model for Name {
    ghost use Rattle.std.specs.Prelude.{List, ℕ};

    ghost Value = { List ℕ };

    ghost view = { λ name. name.text };

    ghost use Rattle.std.specs.Prelude.{IsTrue};
    ghost use Rattle.std.specs.Str.{IsUtf8};
    ghost use Rattle.opfs_base.specs.Names.{is_valid_name};

    ghost invariant = { λ name. IsUtf8 name.text × IsTrue (is_valid_name name.text) };

    ghost inverse = { λ text. record { text = text } };
}

impl Name {
    /// The name that is this text.
    pub fn read(alloc: Global, text: &str) -> Result<Name, AllocError>
        requires { IsTrue (is_valid_name text.now) }
        ensures { IfOk result (λ name. name ≡ text.now) }
    {
        let text = Bytes::copy_of(alloc, text.as_bytes())?;
        Ok(Name { text })
    }

    /// The name as a text.
    pub fn as_str(&self) -> &str
        ensures text { result.now ≡ self.now }
        ensures valid { IsTrue (is_valid_name self.now) }
    {
        match str::from_utf8(self.text.as_slice()) {
            Ok(text) => text,
            Err(_) => unreachable!(),
        }
    }

    /// The name's UTF-8.
    pub fn as_bytes(&self) -> &[u8]
        ensures { result.now ≡ self.now }
    {
        self.text.as_slice()
    }

    /// The same name in new memory.
    pub fn copy(&self, alloc: Global) -> Result<Name, AllocError>
        ensures { IfOk result (λ name. name ≡ self.now) }
    {
        let text = self.text.copy(alloc)?;
        Ok(Name { text })
    }
}
