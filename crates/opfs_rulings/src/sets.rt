//! Sets of names, made once where many are asked.

ghost use Rattle.std.specs.Prelude.{IfOk};
ghost use Rattle.opfs_rulings.specs.Sets.{IsSetOf};

use opfs_base::Name;
use std::alloc::{AllocError, Global};
use std::collections::BTreeSet;

/// The names of a list, as a set.
pub fn names_of(alloc: Global, given: &[Name]) -> Result<BTreeSet<Name>, AllocError>
    ensures { IfOk result (λ names. IsSetOf given.now names) }
{
    let mut names = BTreeSet::new(alloc);
    for name in given {
        names.insert(name.copy(alloc)?)?;
    }
    Ok(names)
}
