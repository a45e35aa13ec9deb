//! How long it is known what an iterator has given.

ghost use Rattle.opfs_desk_steps.specs.Iterating.GoingOn.{IteratorsGoOn};

use opfs_outside::Disk;

/// That an iterator has given all that its directory has up to a name stays so while no call makes a row and the iterator is not
/// asked. A call that gives a child has given all up to it, and one that finds no further child all up to the greatest name that
/// was given.
pub fn iterators_go_on<D: Disk>()
    ensures { IteratorsGoOn D.tells }
{}
