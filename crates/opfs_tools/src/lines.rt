//! The lines of the texts.

ghost use Rattle.std.specs.Prelude.{◌≡◌, IfOk, string_bytes};
ghost use Rattle.sha2.specs.Sha256.{sha256};
ghost use Rattle.hex.specs.Hex.{encode_lower};
ghost use Rattle.opfs_base.specs.Texts.{Text};
ghost use Rattle.opfs_tools.specs.Checking.{digest_line};
ghost use Rattle.opfs_tools.specs.Listing.{mode_text, row_line, unit_line};

use crate::sights::{Entry, Sight};
use crate::units::Unit;
use opfs_base::{Key, Path};
use opfs_print::names_text;
use std::alloc::{AllocError, Global};

// A bucket's mode.
fn mode_text(persistent: bool) -> &'static str
    ensures { result.now ≡ mode_text persistent }
{
    if persistent {
        "persistent"
    } else {
        "best-effort"
    }
}

/// The line of a unit.
pub(crate) fn unit_line(alloc: Global, unit: &Unit) -> Result<String, AllocError>
    ensures { IfOk result (λ text. string_bytes text ≡ unit_line unit.now) }
{
    let mode = mode_text(unit.is_persistent());
    format!(in alloc; "key {} {} {}\n", unit.key().as_str(), mode, unit.blocks())
}

/// The line of a row.
#[tactic(auto, unfolding(crate::specs::Listing::row_line))]
pub(crate) fn row_line(alloc: Global, entry: &Entry) -> Result<String, AllocError>
    ensures { IfOk result (λ text. string_bytes text ≡ row_line entry.now) }
{
    let names = names_text(alloc, entry.path().names())?;
    match entry.sight() {
        Sight::Directory => format!(in alloc; "dir {}\n", names.as_str()),
        Sight::File(size, stamp) => format!(in alloc; "file {} {size} {stamp}\n", names.as_str()),
    }
}

/// The line of a file whose bytes have this digest.
#[tactic(auto, unfolding(crate::specs::Checking::digest_line))]
pub(crate) fn digest_line(
    alloc: Global,
    digest: &[u8; 32],
    key: &Key,
    path: &Path,
) -> Result<String, AllocError>
    ensures { IfOk result (λ text. (bytes : Text) → digest.now ≡ sha256 bytes → string_bytes text ≡ digest_line (key.now, path.now) bytes) }
{
    let digits = hex::encode(alloc, digest.as_slice())?;
    let names = names_text(alloc, path.names())?;
    format!(in alloc;
        "file {} {} {}\n",
        digits.as_str(),
        key.as_str(),
        names.as_str()
    )
}
