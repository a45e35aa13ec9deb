//! Room that is made by clearing units.

ghost use Rattle.opfs_state.specs.Laws.Owned.{CallsAreAboutOwnUnits};
ghost use Rattle.opfs_state.specs.Laws.Room.{EvictionsMakeRoom};

/// A call that is not refused is about units of its own agent's origin alone. Each unit that is cleared for it has a root, is
/// not persistent and is none of these when its turn comes, and the state keeps what every reached state keeps. Once all are
/// cleared, the call is ruled as before, and what it asks for fits.
pub fn evictions_make_room()
    ensures { EvictionsMakeRoom }
{}

/// A call that may have an entry is about units of its own agent's origin alone.
pub fn calls_are_about_own_units()
    ensures { CallsAreAboutOwnUnits }
{}
