//! A write and its sync.

ghost use Rattle.std.specs.Prelude.{◌≡◌, ◌+◌, ◌≤◌, true, false, [], ◌∷◌, length, IsOk, OnOk, OnErr};
ghost use Rattle.opfs_outside.specs.Faults.{Rose};
ghost use Rattle.opfs_journal.specs.Standing.{Torn, Wrote};

use opfs_outside::{Disk, Failed};

/// Writes these bytes, and syncs.
pub fn write_synced<D: Disk>(disk: &mut D, at: u64, bytes: &[u8]) -> Result<(), Failed>
    requires { at + length bytes.now ≤ D.size disk.old }
    ensures size { D.size disk.new ≡ D.size disk.old }
    ensures torn { D.tells → Torn D.content D.moment D.since at (length bytes.now) disk.old disk.new }
    ensures done { OnOk result (D.tells → Wrote D.content D.moment D.since at bytes.now disk.new) }
    ensures later { D.faults disk.old ≤ D.faults disk.new }
    ensures cause { OnErr result (Rose (D.faults disk.old) (D.faults disk.new)) }
{
    disk.write(at, bytes)?;
    disk.sync()
}

/// Closes a gate, where it is not closed already: then it is not written, since a write of one byte may leave any
/// byte there.
pub fn close_gate<D: Disk>(disk: &mut D, closed: bool, gate: u64) -> Result<(), Failed>
    requires { gate + 1 ≤ D.size disk.old }
    ensures none { closed ≡ true → disk.new ≡ disk.old }
    ensures ok { closed ≡ true → IsOk result }
    ensures size { D.size disk.new ≡ D.size disk.old }
    ensures torn { closed ≡ false → D.tells → Torn D.content D.moment D.since gate 1 disk.old disk.new }
    ensures done { closed ≡ false → OnOk result (D.tells → Wrote D.content D.moment D.since gate (0 ∷ []) disk.new) }
    ensures later { D.faults disk.old ≤ D.faults disk.new }
    ensures cause { OnErr result (Rose (D.faults disk.old) (D.faults disk.new)) }
{
    if closed {
        return Ok(());
    }
    write_synced(disk, gate, &[0])
}
