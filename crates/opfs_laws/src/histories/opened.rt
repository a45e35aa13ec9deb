//! Histories whose last group is not whole yet.

ghost use Rattle.opfs_laws.specs.Histories.Opened.{OpenHistoriesGoOn, CallsAreAdded};

/// A legal history is open at its last state. It goes on with one eviction after another, and a call whose evictions
/// these are makes it legal again.
pub fn open_histories_go_on()
    ensures { OpenHistoriesGoOn }
{}

/// A legal history goes on with an agent's pending calls and with the evictions and the entry of its call. The pending
/// calls store nothing.
pub fn calls_are_added()
    ensures { CallsAreAdded }
{}
