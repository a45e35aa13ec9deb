//! What a recovered image gives a run.

ghost use Rattle.std.specs.Prelude.{◌≡◌, List};
ghost use Rattle.opfs_books.specs.Opened.{IsOpened};
ghost use Rattle.opfs_image.specs.Agreeing.{built_in};
ghost use Rattle.opfs_image.specs.Superblock.{area_bytes};
ghost use Rattle.opfs_books.specs.Openings.Openings.{fixed_by, limits_by};
ghost use Rattle.opfs_register.specs.declared.seat.Who.{Who};
ghost use Rattle.opfs_state_rows.specs.Standing.Beginnings.{IsBegun};
ghost use Rattle.opfs_state.specs.Applied.{opened};

use opfs_image::{Geometry, Recovered};
use opfs_machine::Limits;
use opfs_outside::Disk;

/// How much a store over an image of these sizes may hold.
pub fn limits_of(geometry: &Geometry) -> Limits
    ensures { result ≡ limits_by geometry.now }
{
    Limits {
        area: 4096 * u64::from(geometry.areas),
        blocks: u64::from(geometry.blocks),
        quota: u64::from(geometry.quota),
    }
}

/// The law of openings: over a recovered image the books of a run may be opened, with the machine in lengths that begins with
/// what the image stands for; and the shared state may be made.
pub fn a_recovered_image_opens_a_run<D: Disk>(from: &Recovered<D>)
    ensures opened { (agents : List Who) → IsOpened D.Disk (fixed_by D.Disk from.now agents) (built_in from.now.tree from.now.shed) (opened from.now.tree from.now.shed (limits_by from.now.geometry) agents) from.now.tree (area_bytes from.now.geometry) from.now.journal }
    ensures begun { (agents : List Who) → IsBegun (opened from.now.tree from.now.shed (limits_by from.now.geometry) agents) from.now.shed from.now.charge }
{
    from.tree.know_order();
    from.shed.know_order();
}
