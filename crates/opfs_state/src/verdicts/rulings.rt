//! What the calls on directories and files refuse, or ask for, in the order of the rules.
#![tactic(auto, unfolding(opfs_machine::specs::Machine::machine))]

ghost use Rattle.std.specs.Prelude.{◌≡◌, None, IfOk};
ghost use Rattle.opfs_base.specs.Names.{fits_limits};
ghost use Rattle.opfs_machine.specs.Rows.{row_at, is_located, kind_of};
ghost use Rattle.opfs_machine.specs.Rulings.{get_directory_ruling, get_handle_ruling, located_ruling, making, child_ruling};
ghost use Rattle.opfs_machine.specs.Sums.{charges};
ghost use Rattle.opfs_state.specs.Verdicts.Callers.{IsAgent};

use crate::verdicts::agents::key;
use opfs_base::{Kind, Locator, Path, Text, is_bucket_name, is_valid_name, place_charge};
use opfs_hist::Refusal;
use opfs_machine::{Need, Place, Ruled, child_place, root_of};
use opfs_state_rows::Standing;
use std::alloc::{AllocError, Global};

/// What asks for nothing.
pub const NO_NEED: Need = Need {
    quota: 0,
    pool: 0,
    charge: 0,
};

/// Whether a locator is located for a call that wants this kind.
pub fn is_located(standing: &Standing, kind: Kind, at: &Locator) -> bool
    ensures { result ≡ is_located standing.now.machine kind at.now }
{
    if at.kind != kind {
        return false;
    }
    match standing.kind(&at.key, &at.path) {
        None => false,
        Some(Kind::Directory) => kind == Kind::Directory,
        Some(Kind::File) => kind == Kind::File,
    }
}

/// A call that needs its directory or file to be there.
pub fn located_ruling(standing: &Standing, kind: Kind, at: &Locator) -> Result<Need, Refusal>
    ensures { result ≡ located_ruling standing.now.machine kind at.now }
{
    if !is_located(standing, kind, at) {
        return Err(Refusal::NotFoundError);
    }
    Ok(NO_NEED)
}

/// What asks for so many bytes of the charge.
fn charges(charge: u64) -> Need
    ensures { result ≡ charges charge }
{
    Need {
        quota: 0,
        pool: 0,
        charge,
    }
}

/// What making a row asks for, where there is none.
fn making(standing: &Standing, kind: Kind, place: &Place) -> Result<Need, AllocError>
    ensures { IfOk result (λ need. need ≡ making kind place.now (row_at standing.now.machine place.now)) }
{
    match standing.kind(&place.0, &place.1) {
        Some(_) => Ok(NO_NEED),
        None => Ok(charges(place_charge(kind, place)?)),
    }
}

/// getDirectory.
pub fn get_directory_ruling(
    alloc: Global,
    standing: &Standing,
    agent: u32,
    bucket: &Text,
) -> Ruled<Need>
    requires { IsAgent standing.now.machine agent }
    ensures { IfOk result (λ ruled. ruled ≡ get_directory_ruling standing.now.machine agent bucket.now) }
{
    let Some(origin) = key(standing, agent) else {
        return Ok(Err(Refusal::SecurityError));
    };
    if !is_bucket_name(bucket.as_str()) {
        return Ok(Err(Refusal::TypeError));
    }
    let root = root_of(alloc, origin, bucket)?;
    Ok(Ok(making(standing, Kind::Directory, &root)?))
}

/// Whether a child's name and path are within the limits.
fn fits_limits(name: &Text, path: &Path) -> bool
    ensures { result ≡ fits_limits name.now path.now }
{
    name.as_bytes().len() <= 255 && path.names().len() <= 32
}

/// What is judged of a child that is there, or is to be made.
fn child_ruling(
    standing: &Standing,
    kind: Kind,
    place: &Place,
    name: &Text,
    create: bool,
) -> Ruled<Need>
    ensures { IfOk result (λ ruled. ruled ≡ child_ruling kind place.now name.now create (row_at standing.now.machine place.now)) }
{
    if let Some(found) = standing.kind(&place.0, &place.1) {
        let ruled = if found == kind {
            Ok(NO_NEED)
        } else {
            Err(Refusal::TypeMismatchError)
        };
        return Ok(ruled);
    }
    if !create {
        return Ok(Err(Refusal::NotFoundError));
    }
    if !fits_limits(name, &place.1) {
        return Ok(Err(Refusal::NameLimit));
    }
    Ok(Ok(charges(place_charge(kind, place)?)))
}

/// getFileHandle and getDirectoryHandle.
pub fn get_handle_ruling(
    alloc: Global,
    standing: &Standing,
    kind: Kind,
    dir: &Locator,
    name: &Text,
    create: bool,
) -> Ruled<Need>
    ensures { IfOk result (λ ruled. ruled ≡ get_handle_ruling standing.now.machine kind dir.now name.now create) }
{
    if !is_valid_name(name.as_str()) {
        return Ok(Err(Refusal::TypeError));
    }
    if !is_located(standing, Kind::Directory, dir) {
        return Ok(Err(Refusal::NotFoundError));
    }
    let place = child_place(alloc, dir, name)?;
    child_ruling(standing, kind, &place, name, create)
}
