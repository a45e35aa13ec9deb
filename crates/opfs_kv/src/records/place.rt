//! Where a value is in its file.

/// Where a value is in its file, and how many bytes it has.
#[derive(Clone, Copy, PartialEq, Eq)]
pub struct Place {
    pub at: u32,
    pub len: u32,
}
