//! The bridge from bytes to lengths.

ghost use Rattle.opfs_laws.specs.Lengths.Bridge.{LengthsDecideEachRuling, LengthsFollowEachCall, LocalCallsAreKnownByTheirWord};

/// What each call refuses or asks for, whether there is room for it, which units are cleared for it, and whether an
/// agent is stuck, is decided by lengths and outlines alone.
pub fn lengths_decide_each_ruling()
    ensures { LengthsDecideEachRuling }
{}

/// Each call, refused or not, each count of an entry and each eviction changes lengths and outlines as it changes bytes
/// and own rows. A call's sizes are those of the row that it names.
pub fn lengths_follow_each_call()
    ensures { LengthsFollowEachCall }
{}

/// A local call changes nothing that the shared store knows, but that `values` adds an iterator and a moment sets the
/// agent's clock.
pub fn local_calls_are_known_by_their_word()
    ensures { LocalCallsAreKnownByTheirWord }
{}
