//! The desk.

use opfs_desk_steps::{DeskParts, Iterators};
use opfs_hall::Told;
use opfs_image::Recovered;
use opfs_outside::Disk;
use opfs_register::Who;
use std::marker::Model;

/// The shared store of many agents over a disk: the journal with what is kept back, the shared state, the pages of open rows, the
/// data blocks, and the history; and up to which name iterators have given all. It remembers with what it began.
pub struct Desk<D: Disk> {
    pub(crate) parts: DeskParts<D>,
    pub(crate) from: Told<Recovered<D>>,
    pub(crate) agents: Told<Vec<Who>>,
    pub(crate) iterators: Iterators,
}

impl<D: Disk> Model for Desk<D> {
    ghost use Rattle.opfs_desk.specs.Seen.{DeskSeen};
    ghost use Rattle.opfs_desk.specs.Resting.{IsResting};
    ghost use Rattle.opfs_books.specs.Openings.Openings.{fixed_by};

    ghost Value = { DeskSeen D };

    ghost view = { λ d. record { fixed = fixed_by D.Disk d.from.value d.agents.value.items; parts = d.parts } };

    ghost invariant = { λ d. IsResting D.Disk (fixed_by D.Disk d.from.value d.agents.value.items) d.parts d.iterators };
}
