//! Rows and their places.

ghost use Rattle.std.specs.Prelude.{◌≡◌, IfOk};
ghost use Rattle.opfs_base.specs.Places.{place_of};

use opfs_base::{Locator, SharedBytes, copy_place};
use opfs_machine::{Place, Row};
use std::alloc::{AllocError, Global};

/// A row and where it stands.
pub type PlacedRow = (Place, Row<SharedBytes>);

/// Where a locator's entry stands.
pub fn place_of(alloc: Global, at: &Locator) -> Result<Place, AllocError>
    ensures { IfOk result (λ place. place ≡ place_of at.now) }
{
    let place = copy_place(alloc, &at.key, &at.path)?;
    Ok(place)
}
