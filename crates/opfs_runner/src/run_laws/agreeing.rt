//! How a hand agrees with the rows of its run.

ghost use Rattle.opfs_runner.specs.RunLaws.Agreeing.{HandsAgreeWithRows};

/// What the variables of a script name stays of its kind and of the agent's origin, and what is open is told in order. So
/// each step asks what its agent may ask.
pub fn a_hand_agrees_with_its_rows()
    ensures { HandsAgreeWithRows }
{}
