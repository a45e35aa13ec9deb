//! What is known of the steps of these calls.

ghost use Rattle.std.specs.Prelude.{◌≡◌, ℕ, List, [], ◌∷◌, ◌++◌};
ghost use Rattle.opfs_books.specs.Laws.Laws.{BooksKeepTheState, BooksShowTheirImages};
ghost use Rattle.opfs_store.specs.Copies.Copies.{StandsFor, IsPaged};
ghost use Rattle.opfs_pages.specs.HistoryLaws.Copies.{HasLeftRow, IsHandleCopy};
ghost use Rattle.opfs_pages.specs.HistoryLaws.Handles.{HandlesStayWhole};
ghost use Rattle.opfs_pages.specs.HistoryLaws.Laws.{BlocksGoOn, CallsLeaveOtherRows, TreesKeepBlocks};
ghost use Rattle.opfs_pages.specs.HistoryLaws.RowsAfter.{CallsChangeTheirRow};
ghost use Rattle.opfs_desk_steps.specs.RowLaws.InHand.{RowsInHandAreLaid};
ghost use Rattle.opfs_desk_steps.specs.Acting.{CallsAreActed};
ghost use Rattle.opfs_desk_steps.specs.Answering.{ReadyCallsAreAnswered};
ghost use Rattle.opfs_desk_steps.specs.Ready.{AskedCallsAreReady};
ghost use Rattle.opfs_hist.specs.declared.entry.Entry.{Entry};
ghost use Rattle.opfs_laws.specs.Leaving.{ACallMovesItsAgent};
ghost use Rattle.opfs_laws.specs.Lengths.Bridge.{LengthsDecideEachRuling, LengthsFollowEachCall, LocalCallsAreKnownByTheirWord};
ghost use Rattle.opfs_machine.specs.declared.own.HandleRow.{HandleRow};
ghost use Rattle.opfs_machine.specs.declared.own.Own.TheVariants as own;
ghost use Rattle.opfs_machine.specs.Histories.{state_after};
ghost use Rattle.opfs_machine.specs.Openings.{Opening};
ghost use Rattle.opfs_work.specs.Works.{WorkingCopy};

use opfs_books::{the_books_show_their_images, the_state_is_kept};
use opfs_desk_steps::{
    asked_calls_are_ready, calls_are_acted, ready_calls_are_answered, rows_in_hand_are_laid,
};
use opfs_laws::lengths::bridge::{
    lengths_decide_each_ruling, lengths_follow_each_call, local_calls_are_known_by_their_word,
};
use opfs_laws::owned::a_call_moves_its_agent;
use opfs_outside::Disk;
use opfs_pages::{
    blocks_go_on, calls_change_their_row, calls_leave_other_rows, copies_stand_for_their_row,
    handles_stay_whole, trees_keep_their_blocks,
};

/// What is known of the steps of a call.
pub(crate) fn calling_laws<D: Disk>()
    ensures asks { AskedCallsAreReady D.Disk }
    ensures answers { ReadyCallsAreAnswered D.Disk }
    ensures acts { CallsAreActed D.Disk }
    ensures shown { BooksShowTheirImages D.Disk }
    ensures known { BooksKeepTheState D.Disk }
    ensures decide { LengthsDecideEachRuling }
    ensures follow { LengthsFollowEachCall }
    ensures local { LocalCallsAreKnownByTheirWord }
    ensures moves { ACallMovesItsAgent }
{
    asked_calls_are_ready::<D>();
    ready_calls_are_answered::<D>();
    calls_are_acted::<D>();
    the_books_show_their_images::<D>();
    the_state_is_kept::<D>();
    lengths_decide_each_ruling();
    lengths_follow_each_call();
    local_calls_are_known_by_their_word();
    a_call_moves_its_agent();
}

/// What is known of the row that a flush or a close has in hand.
pub(crate) fn saving_laws<D: Disk>()
    ensures laid { RowsInHandAreLaid D.Disk }
    ensures blocks { BlocksGoOn }
    ensures trees { TreesKeepBlocks }
    ensures leave { CallsLeaveOtherRows }
    ensures changes { CallsChangeTheirRow }
    ensures handles { HandlesStayWhole }
    ensures stand { (o : Opening) (h : List Entry) (e : Entry) (n : ℕ) (r : HandleRow) (work : WorkingCopy) → HasLeftRow o h e n (own.Handle r) → IsPaged work → IsHandleCopy D.tells (state_after o (h ++ e ∷ [])) r work
        → StandsFor D.tells o (h ++ e ∷ []) e.agent n work }
{
    rows_in_hand_are_laid::<D>();
    blocks_go_on();
    trees_keep_their_blocks();
    calls_leave_other_rows();
    calls_change_their_row();
    handles_stay_whole();
    copies_stand_for_their_row::<D>();
}
