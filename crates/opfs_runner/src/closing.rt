//! How the hall of a script ends.

ghost use Rattle.std.specs.Prelude.{◌≡◌, [], true, length};
ghost use Rattle.opfs_hall.specs.Seen.{new_pass};
ghost use Rattle.opfs_script_run.specs.Stage.Runs.{EachRuns, EachCut};
ghost use Rattle.opfs_runner.specs.Runs.{HasRunAll};

use crate::ended::Ended;
use opfs_hall::{Hall, Pass};
use opfs_script::AgentScript;
use opfs_store::Store;

/// Ends the hall of a script whose agents have all run, and gives the store. In the store's history each agent's entries are
/// its script's run, or those of a front of its script where memory was short.
pub fn close_hall<S: Store>(
    court: Hall<S>,
    mut owner: Pass<S>,
    ended: Ended<S>,
    scripts: &[AgentScript],
) -> S
    requires owner { owner ≡ new_pass court 0 [] }
    requires agents { court.agents ≡ length scripts.now }
    requires ran { HasRunAll court scripts.now (length scripts.now) ended.pass ended.whole }
    ensures opening { S.opening result ≡ court.opening }
    ensures cut { EachCut scripts.now (S.entries result) }
    ensures run { ended.whole ≡ true → EachRuns scripts.now (S.entries result) }
{
    let _ = scripts;
    court.join(&mut owner, ended.pass);
    court.close(owner)
}
