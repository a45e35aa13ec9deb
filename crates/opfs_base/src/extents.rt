//! Runs of data blocks.

ghost use Rattle.std.specs.Prelude.{◌≡◌, [], ℕ, List, length, IfOk};

use std::alloc::{AllocError, Global};
use std::marker::Model;

/// A run of data blocks: the first one's number, and how many there are.
#[derive(Clone, Copy, Debug, PartialEq, Eq)]
pub struct Extent {
    /// The number of the first block.
    pub start: u32,
    /// The number of blocks.
    pub count: u32,
}

/// The blocks of a file in the order of its bytes, seen as a list of runs.
#[derive(Drop)]
pub struct Extents {
    items: Vec<Extent>,
}

impl Model for Extents {
    ghost use Rattle.std.specs.Prelude.{List};
    ghost use Rattle.opfs_base.specs.declared.extents.Extent.{Extent};

    ghost Value = { List Extent };

    ghost view = { λ e. e.items.items };
}

impl Extents {
    /// The runs of a vector. Takes no memory.
    pub fn from_vec(items: Vec<Extent>) -> Extents
        ensures { result ≡ items.items }
    {
        Extents { items }
    }

    /// The runs as a vector again. Takes no memory.
    pub fn into_vec(self) -> Vec<Extent>
        ensures { result.items ≡ self }
    {
        self.items
    }

    /// No runs. Takes no memory.
    pub fn none(alloc: Global) -> Extents
        ensures { result ≡ [] }
    {
        Extents {
            items: Vec::new(alloc),
        }
    }

    /// How many runs there are.
    pub fn len(&self) -> usize
        ensures { result ≡ length self.now }
    {
        self.items.len()
    }

    /// The same runs in new memory.
    pub fn copy(&self, alloc: Global) -> Result<Extents, AllocError>
        ensures { IfOk result (λ copy. copy ≡ self.now) }
    {
        let items = self.items.as_slice().to_vec(alloc)?;
        Ok(Extents { items })
    }

    /// The runs as a slice.
    pub fn as_slice(&self) -> &[Extent]
        ensures { result.now ≡ self.now }
    {
        self.items.as_slice()
    }
}
