//! Bytes in place.

ghost use Rattle.std.specs.Prelude.{◌≡◌, ◌+◌, ◌≤◌, length};
ghost use Rattle.std.specs.Vec.{vec_capacity};
ghost use Rattle.opfs_memory.specs.Disks.{Overwritten};
ghost use Rattle.opfs_memory.specs.Lengthened.{with_zeros};

/// Writes these bytes at a place.
pub fn overwrite(all: &mut [u8], at: usize, bytes: &[u8])
    requires { at + length bytes.now ≤ length all.old }
    ensures { Overwritten at bytes.now all.old all.new }
{
    all[at..at + bytes.len()].copy_from_slice(bytes);
}

/// Lengthens bytes by zeros to so many, unless they are as many. There is room.
pub fn lengthen(all: &mut Vec<u8>, count: usize)
    requires { count ≤ vec_capacity all.old }
    ensures items { all.new.items ≡ with_zeros count all.old.items }
    ensures capacity { vec_capacity all.old ≤ vec_capacity all.new }
{
    if all.len() < count {
        all.resize(count, 0).unwrap();
    }
}
