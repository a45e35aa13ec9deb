//! What rows add to the sums of the store: blocks, and bytes of the charge.

ghost use Rattle.std.specs.Prelude.{◌≡◌, ◌+◌, ◌<◌, ◌^◌};
ghost use Rattle.opfs_base.specs.Measures.{unit_bytes, path_bytes};
ghost use Rattle.opfs_tree.specs.Sums.{charge_in};

use crate::row::Row;
use opfs_base::{Key, Path, origin_of};

/// What a place and all below it have.
#[derive(Clone, Copy)]
pub struct Sums {
    /// The blocks of the bytes that a read gives now.
    pub present: u64,
    /// The blocks of the bytes that were last stored for good.
    pub durable: u64,
    /// The bytes that the rows add to the charge, but for those of their blocks.
    pub charge: u64,
}

/// The bytes that a unit takes in a change: its origin's key, a length and its bucket's name.
pub(crate) fn unit_bytes(unit: &Key) -> u64
    ensures { result ≡ unit_bytes unit.now }
{
    let text = unit.as_bytes();
    let origin = origin_of(text).len();
    if origin < text.len() {
        text.len() as u64
    } else {
        origin as u64 + 8
    }
}

/// What a row adds to the charge, but for its blocks, in a unit that takes so many bytes.
pub(crate) fn row_charge(unit: u64, path: &Path, row: &Row) -> u64
    requires { charge_in unit path.now row.now < 2 ^ 64 }
    ensures { result ≡ charge_in unit path.now row.now }
{
    match row {
        Row::Dir => {
            if path.names().is_empty() {
                3 + unit
            } else {
                3 + unit + path_bytes(path)
            }
        }
        Row::File(_) => 34 + 2 * (unit + path_bytes(path)),
    }
}

// The bytes that a path takes in a change.
fn path_bytes(path: &Path) -> u64
    requires { path_bytes path.now < 2 ^ 64 }
    ensures { result ≡ path_bytes path.now }
{
    let mut total = 1;
    for name in path.names() {
        total += 1 + name.as_bytes().len() as u64;
    }
    total
}
