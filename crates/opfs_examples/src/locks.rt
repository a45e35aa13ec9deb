//! Examples of locks.

ghost use Rattle.opfs_examples.specs.Locks.{ASecondStreamSharesTheLock, ATakenLockRefuses, ReadOnlyHandlesShareTheLock};

/// Two streams share the lock of a file, and an access handle waits for neither of them: it is refused.
pub fn a_second_stream_shares_the_lock()
    ensures { ASecondStreamSharesTheLock }
{}

/// A taken lock refuses an access handle and a removal; an exclusive one refuses a stream too.
pub fn a_taken_lock_refuses()
    ensures { ATakenLockRefuses }
{}

/// Access handles that only read share the lock, and neither they nor a stream beside them may write.
pub fn read_only_handles_share_the_lock()
    ensures { ReadOnlyHandlesShareTheLock }
{}
