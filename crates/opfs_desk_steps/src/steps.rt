//! One law for each step.

ghost use Rattle.opfs_desk_steps.specs.Acting.{CallsAreActed};
ghost use Rattle.opfs_desk_steps.specs.Answering.{ReadyCallsAreAnswered};
ghost use Rattle.opfs_desk_steps.specs.Ready.{AskedCallsAreReady};

use opfs_laws::counted::a_state_counts_its_history;
use opfs_laws::histories::doubts::a_doubt_stays;
use opfs_laws::histories::unread::reads_leave_the_state;
use opfs_laws::lengths::bridge::{
    lengths_decide_each_ruling, lengths_follow_each_call, local_calls_are_known_by_their_word,
};
use opfs_outside::Disk;
use opfs_state::laws::room::evictions_make_room;

/// A call that is asked for: its agent's pending calls may be taken in, and then all is ready for it.
pub fn asked_calls_are_ready<D: Disk>()
    ensures { AskedCallsAreReady D.Disk }
{
    reads_leave_the_state();
    lengths_follow_each_call();
    local_calls_are_known_by_their_word();
}

/// A call that is ready: its units may be cleared, and then its entry may come with the machine's reply.
pub fn ready_calls_are_answered<D: Disk>()
    ensures { ReadyCallsAreAnswered D.Disk }
{
    reads_leave_the_state();
    a_state_counts_its_history();
    evictions_make_room();
    lengths_decide_each_ruling();
}

/// What a call's entry leaves: the history grew by the call, and each image on the way shows a front of what is told.
pub fn calls_are_acted<D: Disk>()
    ensures { CallsAreActed D.Disk }
{
    a_doubt_stays();
}
