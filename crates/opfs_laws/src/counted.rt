//! What a state counts.

ghost use Rattle.opfs_laws.specs.Counting.{AStateCountsItsHistory};

/// A state that a legal history reaches has as many entries as the history, and knows of each origin the place of its
/// last entry. Agents keep their keys and grants, and the limits stay.
pub fn a_state_counts_its_history()
    ensures { AStateCountsItsHistory }
{}
