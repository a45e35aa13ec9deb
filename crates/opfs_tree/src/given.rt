//! The names that an iterator has given.

ghost use Rattle.std.specs.Prelude.{◌≡◌, IfOk};
ghost use Rattle.std.specs.List.{list_any};
ghost use Rattle.opfs_base.specs.Texts.{same_text};
ghost use Rattle.opfs_tree.specs.Units.{IsSetOf};

use opfs_base::Name;
use std::alloc::{AllocError, Global};
use std::collections::BTreeSet;

/// Whether a name was given.
pub(crate) fn is_given(past: &[Name], name: &Name) -> bool
    ensures { result ≡ list_any (same_text name.now) past.now }
{
    past.contains(name)
}

/// The names that were given, as a set.
pub(crate) fn names_of(alloc: Global, past: &[Name]) -> Result<BTreeSet<Name>, AllocError>
    ensures { IfOk result (λ names. IsSetOf past.now names) }
{
    let mut names = BTreeSet::new(alloc);
    for name in past {
        names.insert(name.copy(alloc)?)?;
    }
    Ok(names)
}
