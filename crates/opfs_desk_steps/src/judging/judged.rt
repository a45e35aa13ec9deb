//! What became of a call that was asked for.

use crate::parts::Eviction;
use opfs_hist::Refusal;
use opfs_machine::Sizes;

/// What became of a call that was asked for.
#[derive(Drop)]
pub enum Judged {
    /// It is refused.
    Refused(Refusal),
    /// It is not refused, and all that it needs of the shared state stands ready.
    Ready(Readiness),
}

/// The sizes of the row that a call names, and the units that are cleared for it, in order.
#[derive(Drop)]
pub struct Readiness {
    pub sizes: Sizes,
    pub clearing: Vec<Eviction>,
}
