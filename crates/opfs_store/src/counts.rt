//! How often a store's disk has failed, by what its history tells.

ghost use Rattle.std.specs.Prelude.{List};
ghost use Rattle.opfs_hall.specs.History.{IsPrefix};
ghost use Rattle.opfs_hist.specs.Faults.{disk_faults};
ghost use Rattle.opfs_hist.specs.declared.entry.Entry.{Entry};
ghost use Rattle.opfs_outside.specs.Faults.{RoseBy};

use crate::acts::Store;

/// In a store that goes on from entries, each disk fault that these tell of has its own rise of the count since the store was
/// opened. Says so, and does nothing.
pub fn know_faults_rose<S: Store>(store: &S)
    ensures { (known : List Entry) → IsPrefix known (S.entries store.now) → RoseBy (disk_faults known) (S.faults_before (S.opening store.now)) (S.faults store.now) }
{
    store.know_counts();
}
