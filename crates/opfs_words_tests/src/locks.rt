//! File locks.

use opfs_locks::{FileLock, LockValue, Want};

// What a lock is after it was taken, from open, in one way and then in another; the second part is whether the second
// taking succeeded.
fn taken_twice(first: Want, second: Want) -> (LockValue, u32, bool) {
    let mut lock = FileLock::make();
    match lock.take(first) {
        Some(held) => match lock.take(second) {
            Some(again) => {
                let seen = (lock.value(), lock.count(), again.want() == second);
                lock.release(again);
                lock.release(held);
                seen
            }
            None => {
                let seen = (lock.value(), lock.count(), false);
                lock.release(held);
                seen
            }
        },
        None => (LockValue::Free, 0, false),
    }
}

#[test]
fn shared_locks_are_shared_with_their_like(rt: HostRuntime) {
    let cases = [
        (Want::Shared, Want::Shared, LockValue::Shared, 2, true),
        (Want::Shared, Want::Exclusive, LockValue::Shared, 1, false),
        (Want::Shared, Want::ReadOnly, LockValue::Shared, 1, false),
        (Want::ReadOnly, Want::ReadOnly, LockValue::ReadOnly, 2, true),
        (Want::ReadOnly, Want::Shared, LockValue::ReadOnly, 1, false),
        (
            Want::Exclusive,
            Want::Exclusive,
            LockValue::Exclusive,
            0,
            false,
        ),
        (
            Want::Exclusive,
            Want::Shared,
            LockValue::Exclusive,
            0,
            false,
        ),
        (
            Want::Exclusive,
            Want::ReadOnly,
            LockValue::Exclusive,
            0,
            false,
        ),
    ];
    for (first, second, value, count, given) in cases {
        assert_eq!(rt;
            taken_twice(first, second),
            (value, count, given),
            "{first:?} {second:?}"
        );
    }
}
