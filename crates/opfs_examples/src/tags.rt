//! Examples of tags.

ghost use Rattle.opfs_examples.specs.Tags.{AnAwaitWaitsForAPost, AgentsThatAllWaitAreStuck, AStuckAgentGoesOn, NoOtherAgentIsStuck};

/// An await waits until its tag is posted, and is stuck where every other agent has ended. A wait has no line.
pub fn an_await_waits_for_a_post()
    ensures { AnAwaitWaitsForAPost }
{}

/// Where all agents wait, the last that would is stuck, and so is the other once that one has ended.
pub fn agents_that_all_wait_are_stuck()
    ensures { AgentsThatAllWaitAreStuck }
{}

/// An agent whose await was stuck no longer waits, so another that waits goes on.
pub fn a_stuck_agent_goes_on()
    ensures { AStuckAgentGoesOn }
{}

/// After that answer no other agent is stuck, since the first one may still post.
pub fn no_other_agent_is_stuck()
    ensures { NoOtherAgentIsStuck }
{}
