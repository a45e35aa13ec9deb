//! The sizes of the row that a call names.

ghost use Rattle.std.specs.Prelude.{◌≡◌};
ghost use Rattle.opfs_desk_steps.specs.Judging.Sizes.{sizes_by};

use opfs_hist::Op;
use opfs_machine::{Sizes, row_named};
use opfs_work::Work;

/// The sizes of the row that a call names, as its working copy has them; 0 where it names none.
pub(crate) fn sizes_for(op: &Op, work: &Work) -> Sizes
    ensures { result ≡ sizes_by op.now work.now }
{
    if row_named(op) == 0 {
        return Sizes {
            size: 0,
            position: 0,
        };
    }
    Sizes {
        size: work.size(),
        position: work.position(),
    }
}
