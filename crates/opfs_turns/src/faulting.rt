//! The cause of a disk fault that an agent is told.

ghost use Rattle.opfs_turns.specs.Faulting.{HasFailed};

use opfs_store::{Store, know_faults_rose};

/// An agent's call is answered by a disk fault only where the disk failed: in each store that has gone on from what the agent
/// has seen then, as in the one that its hall gives when it is closed, the count of the disk's faults has risen since the store
/// was opened by those that the agent had seen before, and by one more at least. Says so, and does nothing.
pub fn a_told_fault_has_its_rise<S: Store>(store: &S)
    ensures { HasFailed S.Opening S.tells (S.entries store.now) (S.faults_before (S.opening store.now)) (S.faults store.now) }
{
    know_faults_rose(store);
}
