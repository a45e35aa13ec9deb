//! The two areas of a journal.

ghost use Rattle.std.specs.Prelude.{◌≡◌, ◌+◌, ◌*◌, ◌^◌, ◌<◌};
ghost use Rattle.opfs_journal.specs.Format.{begin_of};

/// Where a journal's two areas lie on its disk, in bytes: area 0 begins at `first`, area 1 at `first + bytes`.
#[derive(Clone, Copy, PartialEq, Eq)]
pub struct Areas {
    pub first: u64,
    pub bytes: u64,
}

impl Areas {
    /// The place of the first gate of area 1, or of area 0.
    pub fn begin(self, second: bool) -> u64
        requires { self.first + 2 * self.bytes < 2 ^ 64 }
        ensures { result ≡ begin_of self second }
    {
        if second {
            self.first + self.bytes
        } else {
            self.first
        }
    }
}
