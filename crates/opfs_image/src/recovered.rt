//! An image that was recovered.

ghost use Rattle.opfs_image.specs.Props.{image_props};
ghost use Rattle.opfs_image.specs.Agreeing.{Agrees, IsJournalOf, IsImageOf, built_in};

use crate::{Geometry, ImageRefusal};
use opfs_blocks::BlockMap;
use opfs_journal::Journal;
use opfs_outside::Disk;
use opfs_shed::Shed;
use opfs_tree::Tree;
use std::alloc::Global;

/// An image: its journal, and what its records build. Its parts agree with each other, and with what the image stands
/// for.
#[derive(Drop)]
pub struct Recovered<D: Disk> {
    /// The journal over the image's disk.
    pub journal: Journal<D>,
    /// The sizes of the image.
    pub geometry: Geometry,
    /// The rows.
    pub tree: Tree,
    /// The modes of the units, and the blocks that their files use.
    pub shed: Shed,
    /// The used blocks.
    pub map: BlockMap,
    /// The charge of all that is there, in bytes.
    pub charge: u64,
    pub ghost agrees: { Agrees geometry tree shed map charge } by { Prim.hlevel image_props },
    pub ghost journal_of: { IsJournalOf D.size geometry journal },
    pub ghost image_of: { D.tells → IsImageOf D.content D.moment D.since geometry (built_in tree shed) journal },
}
