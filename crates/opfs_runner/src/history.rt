//! What the history of a hall is, once its agents have run their scripts. A law alone: the contract of a function that does
//! nothing.

ghost use Rattle.opfs_runner.specs.Laws.{ScriptsMakeTheHistory};

/// In the history of a hall that was closed with the pass of all its agents, each agent's entries are its script's run, or
/// those of a front of its script where memory was short.
pub fn scripts_make_the_history()
    ensures { ScriptsMakeTheHistory }
{}
