//! Worked examples of a script's run: entries that are it, and entries that are not. Each is the contract of a function that
//! does nothing.
ghost use Rattle.opfs_examples.specs.ScriptRuns.Ends.{IsEndedInOrder, IsNotEnded, IsEndedOnce, IsNotEndedTwice, IsNotEndedInAnotherOrder, IsCutShort, IsNotCutWithoutItsEnd, WaitsForItsAwaitAlone};

/// At the end of a script what is open is ended in the order of the rows, and then the script.
pub fn a_run_ends_what_is_open()
    ensures { IsEndedInOrder }
{}

/// Without its end it is no run.
pub fn a_run_has_its_end()
    ensures { IsNotEnded }
{}

/// With one row ended twice and another not it is no run.
pub fn each_row_ends_once()
    ensures { IsEndedOnce }
{}

/// With two ends it is no run.
pub fn a_run_ends_once()
    ensures { IsNotEndedTwice }
{}

/// With the rows ended in another order it is no run.
pub fn rows_end_in_their_order()
    ensures { IsNotEndedInAnotherOrder }
{}

/// Where memory was wanting, a front of the steps is run, and what is open ends too.
pub fn a_cut_run_ends_what_is_open()
    ensures { IsCutShort }
{}

/// A front of the steps without an end is no cut of the run.
pub fn a_cut_run_has_its_end()
    ensures { IsNotCutWithoutItsEnd }
{}

/// A wait stands before an await of its tag, and nowhere else.
pub fn a_wait_is_for_its_await()
    ensures { WaitsForItsAwaitAlone }
{}
