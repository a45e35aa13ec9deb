//! Pages of working copies, each in a block.

ghost use Rattle.std.specs.Prelude.{◌≡◌, length, IfOk};

use opfs_base::Bytes;
use std::alloc::{AllocError, Global};
use std::marker::Model;

/// The 4,096 bytes of a page, seen as the list of them.
#[derive(Drop)]
pub struct PageBytes {
    bytes: Bytes,
}

impl Model for PageBytes {
    ghost use Rattle.std.specs.Prelude.{◌≡◌, List, ℕ, length};

    ghost Value = { List ℕ };

    ghost view = { λ p. p.bytes };

    ghost invariant = { λ p. length p.bytes ≡ 4096 };
}

impl PageBytes {
    /// The bytes of a vector. Takes no memory.
    pub fn from_vec(items: Vec<u8>) -> PageBytes
        requires { length items.items ≡ 4096 }
        ensures { result ≡ items.items }
    {
        PageBytes {
            bytes: Bytes::from_vec(items),
        }
    }

    /// A copy of a slice.
    pub fn copy_of(alloc: Global, bytes: &[u8]) -> Result<PageBytes, AllocError>
        requires { length bytes.now ≡ 4096 }
        ensures { IfOk result (λ copy. copy ≡ bytes.now) }
    {
        let bytes = Bytes::copy_of(alloc, bytes)?;
        Ok(PageBytes { bytes })
    }

    /// The bytes as a slice.
    pub fn as_slice(&self) -> &[u8]
        ensures value { result.now ≡ self.now }
        ensures size { length result.now ≡ 4096 }
    {
        self.bytes.as_slice()
    }
}

/// A page: its block, if it has one, and the bytes that are kept of it, where the block has others.
#[derive(Drop)]
pub struct Page {
    /// The number of its block.
    pub block: Option<u32>,
    /// The bytes that are kept.
    pub kept: Option<PageBytes>,
}

/// A page with bytes that were saved of it.
#[derive(Drop)]
pub struct SavedPage {
    /// The page's number in its row.
    pub page: u64,
    /// Its bytes.
    pub bytes: PageBytes,
}
