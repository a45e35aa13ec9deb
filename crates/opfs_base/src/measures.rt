//! What the store's things measure: counts of blocks, and what rows and modes add to the charge in bytes. A count that
//! 64 bits do not hold is want of memory.

ghost use Rattle.std.specs.Prelude.{◌≡◌, ◌==◌, ◌+◌, ◌*◌, IfOk};
ghost use Rattle.std.specs.List.{list_any};
ghost use Rattle.opfs_base.specs.Blocks.{blocks};
ghost use Rattle.opfs_base.specs.Measures.{block_size, block_charge, unit_bytes, path_bytes, root_charge, directory_charge, file_charge, mode_charge, place_charge};

use crate::key::Key;
use crate::locator::Kind;
use crate::path::Path;
use crate::places::Place;
use std::alloc::AllocError;

/// The bytes of a block.
pub const BLOCK_SIZE: u64 = 4096;

/// What each block of the pool adds to the charge, in bytes.
pub const BLOCK_CHARGE: u64 = 8;

/// How many blocks so many bytes take.
pub fn blocks(bytes: u64) -> u64
    ensures { result ≡ blocks bytes }
{
    bytes / 4096 + u64::from(bytes % 4096 != 0)
}

/// The sum of two counts.
pub fn plus(a: u64, b: u64) -> Result<u64, AllocError>
    ensures { IfOk result (λ sum. sum ≡ a + b) }
{
    match a.checked_add(b) {
        Some(sum) => Ok(sum),
        None => Err(AllocError),
    }
}

/// The product of two counts.
pub fn times(a: u64, b: u64) -> Result<u64, AllocError>
    ensures { IfOk result (λ product. product ≡ a * b) }
{
    match a.checked_mul(b) {
        Some(product) => Ok(product),
        None => Err(AllocError),
    }
}

// Whether a text has a `#`.
fn has_sign(text: &[u8]) -> bool
    ensures { result ≡ list_any (λ byte. byte == 35) text.now }
{
    text.iter().any(|byte| *byte == b'#')
}

// The bytes of a unit in a change: as many as its text has with `#default` where it names no bucket.
#[tactic(auto, using(crate::proofs::UnitBytes::unit_bytes_plain))]
fn bytes_of(unit: &[u8]) -> Result<u64, AllocError>
    ensures { IfOk result (λ bytes. bytes ≡ unit_bytes unit.now) }
{
    let len = unit.len() as u64;
    if has_sign(unit) {
        return Ok(len);
    }
    plus(len, 8)
}

/// The bytes of a unit in a change.
pub fn unit_bytes(unit: &Key) -> Result<u64, AllocError>
    ensures { IfOk result (λ bytes. bytes ≡ unit_bytes unit.now) }
{
    bytes_of(unit.as_bytes())
}

/// The bytes of a path in a change.
pub fn path_bytes(path: &Path) -> Result<u64, AllocError>
    ensures { IfOk result (λ bytes. bytes ≡ path_bytes path.now) }
{
    let mut total: u64 = 1;
    for name in path.names() {
        let more = plus(1, name.as_bytes().len() as u64)?;
        total = plus(total, more)?;
    }
    Ok(total)
}

/// The charge of a unit's mode.
pub fn mode_charge(unit: &Key) -> Result<u64, AllocError>
    ensures { IfOk result (λ charge. charge ≡ mode_charge unit.now) }
{
    plus(3, unit_bytes(unit)?)
}

/// The charge of a root.
pub fn root_charge(unit: &Key) -> Result<u64, AllocError>
    ensures { IfOk result (λ charge. charge ≡ root_charge unit.now) }
{
    plus(3, unit_bytes(unit)?)
}

// The bytes of a place in a change.
fn place_bytes(unit: &Key, path: &Path) -> Result<u64, AllocError>
    ensures { IfOk result (λ bytes. bytes ≡ unit_bytes unit.now + path_bytes path.now) }
{
    plus(unit_bytes(unit)?, path_bytes(path)?)
}

/// The charge of a directory that is no root.
pub fn directory_charge(unit: &Key, path: &Path) -> Result<u64, AllocError>
    ensures { IfOk result (λ charge. charge ≡ directory_charge (unit.now, path.now)) }
{
    plus(3, place_bytes(unit, path)?)
}

/// The charge of a file without blocks.
pub fn file_charge(unit: &Key, path: &Path) -> Result<u64, AllocError>
    ensures { IfOk result (λ charge. charge ≡ file_charge (unit.now, path.now)) }
{
    plus(34, times(2, place_bytes(unit, path)?)?)
}

/// The charge of a row that is made at a place.
pub fn place_charge(kind: Kind, place: &Place) -> Result<u64, AllocError>
    ensures { IfOk result (λ charge. charge ≡ place_charge kind place.now) }
{
    match kind {
        Kind::File => file_charge(&place.0, &place.1),
        Kind::Directory => {
            if place.1.names().is_empty() {
                root_charge(&place.0)
            } else {
                directory_charge(&place.0, &place.1)
            }
        }
    }
}
