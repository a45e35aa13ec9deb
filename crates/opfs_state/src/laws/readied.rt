//! What stands ready for a call stays so until it is done.

ghost use Rattle.opfs_state.specs.Laws.Readied.{StaysReadyAsNoted, StaysReadyAsCleared, ReadyIsApart};

/// What stands ready for a call stays so when the sum of its agent's local calls is taken in.
pub fn what_is_ready_stays_as_calls_are_noted()
    ensures { StaysReadyAsNoted }
{}

/// What stands ready for a call stays so when a unit of another origin is cleared, and the call is about its own units still.
pub fn what_is_ready_stays_as_units_are_cleared()
    ensures { StaysReadyAsCleared }
{}

/// The place that stands ready for a call about its own agent's units is none of a unit of another origin.
pub fn what_is_ready_is_apart()
    ensures { ReadyIsApart }
{}
