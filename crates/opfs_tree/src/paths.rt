//! How a path stands to another.

ghost use Rattle.std.specs.Prelude.{◌≡◌};
ghost use Rattle.std.specs.Option.{option_copied};
ghost use Rattle.opfs_base.specs.Places.{begins_with, rest_below};
ghost use Rattle.opfs_tree.specs.Units.{name_below};

use opfs_base::{Name, Path};

/// Whether a path is another or below it.
pub(crate) fn is_within(above: &Path, path: &Path) -> bool
    ensures { result ≡ begins_with above.now path.now }
{
    begins_with(above.names(), path.names())
}

/// The name of a child of a directory; None for a path that is no child of it.
pub(crate) fn name_below<'a>(dir: &Path, path: &'a Path) -> Option<&'a Name>
    ensures { option_copied result ≡ name_below dir.now path.now }
{
    match rest_below(dir.names(), path.names()) {
        Some([name]) => Some(name),
        _ => None,
    }
}

// Whether a list of names begins with another.
fn begins_with(front: &[Name], names: &[Name]) -> bool
    ensures { result ≡ begins_with front.now names.now }
{
    for (at, name) in front.iter().enumerate() {
        if at >= names.len() || *name != names[at] {
            return false;
        }
    }
    true
}

// The names that are left of a path below a directory's; None where it is not there.
fn rest_below<'a>(dir: &[Name], names: &'a [Name]) -> Option<&'a [Name]>
    ensures { option_copied result ≡ rest_below dir.now names.now }
{
    for (at, name) in dir.iter().enumerate() {
        if at >= names.len() || *name != names[at] {
            return None;
        }
    }
    Some(&names[dir.len()..])
}
