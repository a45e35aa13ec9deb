//! Why a step can't be read.

/// Why a part of a step can't be read.
#[derive(Clone, Copy, PartialEq, Eq)]
pub enum Fault {
    /// It has another form.
    Shape,
    /// There is no memory.
    Memory,
}
