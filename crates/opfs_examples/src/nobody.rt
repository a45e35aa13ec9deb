//! A script without agents.

ghost use Rattle.opfs_examples.specs.Nobody.{OnlyAgentsEnter};

/// Without agents nothing is entered, so the transcript is empty.
pub fn without_agents_nothing_is_entered()
    ensures { OnlyAgentsEnter }
{}
