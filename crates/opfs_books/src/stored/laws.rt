//! What calls spell, and how they fail.

ghost use Rattle.opfs_books.specs.Stored.Laws.{CallsAreSpelled, CallsMayFail};

use opfs_outside::Disk;

/// What a call spells is what it stores, and makes of what is stored what the call leaves. The machine's charge covers it.
pub fn calls_are_spelled()
    ensures { CallsAreSpelled }
{}

/// A call that stores something may meet a disk fault.
pub fn calls_may_fail<D: Disk>()
    ensures { CallsMayFail D.tells }
{}
