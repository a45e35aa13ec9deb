//! The sizes of an image.

/// How large the parts of an image are, in blocks of 4,096 bytes.
#[derive(Clone, Copy, Debug, PartialEq, Eq)]
pub struct Geometry {
    /// The blocks of each of the two areas of the journal, 1 to 4,096.
    pub areas: u32,
    /// The data blocks, 1 to 65,536.
    pub blocks: u32,
    /// What each origin may use, 1 to 65,536.
    pub quota: u32,
}
