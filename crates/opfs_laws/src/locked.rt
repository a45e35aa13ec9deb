//! What locks refuse.

ghost use Rattle.opfs_laws.specs.LockRefusals.{ALockRefusesWithItsCause};

/// A call is refused for a lock only where a file that it names has that lock, with that count, at that point, and the
/// lock refuses what was asked. The file is of the calling agent's own origin, so the locks of other origins never
/// refuse its calls.
pub fn a_lock_refuses_with_its_cause()
    ensures { ALockRefusesWithItsCause }
{}
