//! What a variable names, where it is of a kind.

ghost use Rattle.std.specs.Prelude.{◌≡◌};
ghost use Rattle.std.specs.Option.{option_copied};
ghost use Rattle.opfs_script_run.specs.Runs.Running.{named_by, a_directory, a_file, an_entry, a_stream, a_handle, a_snapshot};

use crate::runs::hand::{Hand, Named};
use opfs_base::{Locator, Text};

/// The directory that a variable names.
pub fn directory<'a>(hand: &'a Hand, variable: &Text) -> Option<&'a Locator>
    ensures { option_copied result ≡ a_directory (named_by hand.now variable.now) }
{
    match hand.bound.named_by(variable) {
        Some(Named::Directory(at)) => Some(at),
        _ => None,
    }
}

/// The file that a variable names.
pub fn file<'a>(hand: &'a Hand, variable: &Text) -> Option<&'a Locator>
    ensures { option_copied result ≡ a_file (named_by hand.now variable.now) }
{
    match hand.bound.named_by(variable) {
        Some(Named::File(at)) => Some(at),
        _ => None,
    }
}

/// The file or directory that a variable names.
pub fn entry<'a>(hand: &'a Hand, variable: &Text) -> Option<&'a Locator>
    ensures { option_copied result ≡ an_entry (named_by hand.now variable.now) }
{
    match hand.bound.named_by(variable) {
        Some(Named::Directory(at)) => Some(at),
        Some(Named::File(at)) => Some(at),
        _ => None,
    }
}

/// The stream that a variable names.
pub fn stream(hand: &Hand, variable: &Text) -> Option<u32>
    ensures { result ≡ a_stream (named_by hand.now variable.now) }
{
    match hand.bound.named_by(variable) {
        Some(Named::Stream(row)) => Some(*row),
        _ => None,
    }
}

/// The access handle that a variable names.
pub fn handle(hand: &Hand, variable: &Text) -> Option<u32>
    ensures { result ≡ a_handle (named_by hand.now variable.now) }
{
    match hand.bound.named_by(variable) {
        Some(Named::Handle(row)) => Some(*row),
        _ => None,
    }
}

/// The snapshot that a variable names.
pub fn snapshot(hand: &Hand, variable: &Text) -> Option<u32>
    ensures { result ≡ a_snapshot (named_by hand.now variable.now) }
{
    match hand.bound.named_by(variable) {
        Some(Named::Snapshot(row)) => Some(*row),
        _ => None,
    }
}
