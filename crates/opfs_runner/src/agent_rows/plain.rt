//! Calls that use no row.

ghost use Rattle.std.specs.Prelude.{◌≡◌};
ghost use Rattle.opfs_turns.specs.Calls.{HasRoom};
ghost use Rattle.opfs_runner.specs.RunLaws.Kinds.{Names, MayPerform};
ghost use Rattle.opfs_runner.specs.AgentRows.Called.{Calls};
ghost use Rattle.opfs_runner.specs.AgentRows.Tables.{kinds_of, kinds_told, use_of, HasTable};
ghost use Rattle.opfs_runner.specs.declared.agent_rows.uses.Use.TheVariants as uses;

use crate::agent_rows::agent_row::AgentRow;
use crate::agent_rows::entries::{
    await_tag, estimate, get_directory, get_directory_handle, get_file_handle, is_same_entry,
    moment, persist, persisted, post, remove_entry, resolve, unbound,
};
use opfs_agent::{Agent, Stop};
use opfs_hall::Hall;
use opfs_hist::{Op, Reply};
use opfs_store::Store;
use std::sync::Wait;

/// Makes a call that uses no row.
fn call_plain<S: Store, R: Wait>(
    rt: &R,
    court: &Hall<S>,
    agent: &mut Agent<S>,
    agent_rows: &[AgentRow],
    op: &Op,
) -> Result<Reply, Stop>
    requires own { agent.old.pass.hall ≡ court.now }
    requires room { HasRoom agent.old }
    requires plain { use_of op.now ≡ uses.Plain }
    requires may { Names agent.old.key (kinds_of agent_rows.now) op.now }
    ensures { Calls S.tells agent.old agent.new op.now result }
{
    agent.know_kept();
    let _ = agent_rows;
    match op {
        Op::GetDirectory { bucket } => get_directory(rt, court, agent, bucket),
        Op::GetDirectoryHandle { dir, name, create } => {
            get_directory_handle(rt, court, agent, dir, name, *create)
        }
        Op::GetFileHandle { dir, name, create } => {
            get_file_handle(rt, court, agent, dir, name, *create)
        }
        Op::RemoveEntry {
            dir,
            name,
            recursive,
        } => remove_entry(rt, court, agent, dir, name, *recursive),
        Op::Resolve { dir, entry } => resolve(agent, dir, entry),
        Op::IsSameEntry { entry, other } => is_same_entry(agent, entry, other),
        Op::Persist { bucket } => persist(rt, court, agent, bucket),
        Op::Persisted { bucket } => persisted(rt, court, agent, bucket),
        Op::Estimate => estimate(rt, court, agent),
        Op::Moment { ms } => moment(agent, *ms),
        Op::Post { tag } => post(rt, court, agent, tag),
        Op::Await { tag } => await_tag(rt, court, agent, tag),
        Op::Unbound { word } => unbound(agent, *word),
        // No script asks for a wait, a discard, an end or an eviction.
        _ => unreachable!(),
    }
}

/// The same with the rows, which stay.
pub fn perform_plain<S: Store, R: Wait>(
    rt: &R,
    court: &Hall<S>,
    agent: &mut Agent<S>,
    agent_rows: &[AgentRow],
    op: &Op,
) -> Result<Reply, Stop>
    requires own { agent.old.pass.hall ≡ court.now }
    requires room { HasRoom agent.old }
    requires table { HasTable S.tells agent.old agent_rows.now }
    requires plain { use_of op.now ≡ uses.Plain }
    requires may { MayPerform agent.old.key (kinds_of agent_rows.now) op.now }
    ensures called { Calls S.tells agent.old agent.new op.now result }
    ensures table { HasTable S.tells agent.new agent_rows.now }
    ensures kinds { kinds_of agent_rows.now ≡ kinds_told (kinds_of agent_rows.now) op.now result }
{
    agent.know_kept();
    let done = call_plain(rt, court, agent, agent_rows, op);
    agent.know_kept();
    done
}
