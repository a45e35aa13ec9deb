//! The pieces that go through the ring.

ghost use Rattle.std.specs.Prelude.{◌≤◌, length};

use opfs_base::Bytes;
use rtrb::Protocol;
use std::alloc::Global;

/// How many bytes a piece has at most: those of a page.
pub(crate) const PIECE: u64 = 4096;

/// How many pieces the ring holds.
pub(crate) const RING: usize = 64;

/// What the ring carries: no piece is longer than a page.
#[derive(Clone, Copy)]
pub struct Pieces;

impl Protocol<Bytes> for Pieces {
    ghost allows = { λ before piece. length piece ≤ 4096 };
}

/// The end of the ring into which the reader's side pushes.
pub(crate) type Source = rtrb::Producer<Bytes, Global, Pieces>;

/// The end of the ring from which the writer's side pops.
pub(crate) type Target = rtrb::Consumer<Bytes, Global, Pieces>;

/// Both ends of a ring.
#[derive(Drop)]
pub(crate) struct Ring {
    pub source: Source,
    pub target: Target,
}
