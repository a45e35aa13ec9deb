//! How long a working copy stands for a row.

ghost use Rattle.opfs_store.specs.Copies.Standing.{ACopyStandsForItsRow};

/// A working copy stands for an open row from each call that had the row in hand under the turn, whatever its pages are,
/// and as long as the row and its bytes stay. So each page that it says a store has, the store tells.
pub fn a_copy_stands_for_its_row()
    ensures { ACopyStandsForItsRow }
{}
