//! Calls on directories, buckets and tags, which use no row.

ghost use Rattle.std.specs.Prelude.{◌≡◌};
ghost use Rattle.opfs_hist.specs.declared.op.Op.TheVariants as op;
ghost use Rattle.opfs_turns.specs.Calls.{HasRoom};
ghost use Rattle.opfs_turns.specs.Asking.Answers.{IsOwn};
ghost use Rattle.opfs_runner.specs.AgentRows.Called.{Calls};

use opfs_agent::{Agent, Stop};
use opfs_base::{Locator, Text};
use opfs_hall::Hall;
use opfs_hist::{Reply, Word};
use opfs_store::Store;
use std::sync::Wait;

/// getDirectory.
pub fn get_directory<S: Store, R: Wait>(
    rt: &R,
    court: &Hall<S>,
    agent: &mut Agent<S>,
    bucket: &Text,
) -> Result<Reply, Stop>
    requires own { agent.old.pass.hall ≡ court.now }
    requires room { HasRoom agent.old }
    ensures { Calls S.tells agent.old agent.new (op.GetDirectory bucket.now) result }
{
    let _at = agent.get_directory(rt, court, bucket)?;
    Ok(Reply::Done)
}

/// getDirectoryHandle.
pub fn get_directory_handle<S: Store, R: Wait>(
    rt: &R,
    court: &Hall<S>,
    agent: &mut Agent<S>,
    dir: &Locator,
    name: &Text,
    create: bool,
) -> Result<Reply, Stop>
    requires own { agent.old.pass.hall ≡ court.now }
    requires room { HasRoom agent.old }
    requires dir { IsOwn agent.old dir.now }
    ensures { Calls S.tells agent.old agent.new (op.GetDirectoryHandle dir.now name.now create) result }
{
    let _at = agent.get_directory_handle(rt, court, dir, name, create)?;
    Ok(Reply::Done)
}

/// getFileHandle.
pub fn get_file_handle<S: Store, R: Wait>(
    rt: &R,
    court: &Hall<S>,
    agent: &mut Agent<S>,
    dir: &Locator,
    name: &Text,
    create: bool,
) -> Result<Reply, Stop>
    requires own { agent.old.pass.hall ≡ court.now }
    requires room { HasRoom agent.old }
    requires dir { IsOwn agent.old dir.now }
    ensures { Calls S.tells agent.old agent.new (op.GetFileHandle dir.now name.now create) result }
{
    let _at = agent.get_file_handle(rt, court, dir, name, create)?;
    Ok(Reply::Done)
}

/// removeEntry.
pub fn remove_entry<S: Store, R: Wait>(
    rt: &R,
    court: &Hall<S>,
    agent: &mut Agent<S>,
    dir: &Locator,
    name: &Text,
    recursive: bool,
) -> Result<Reply, Stop>
    requires own { agent.old.pass.hall ≡ court.now }
    requires room { HasRoom agent.old }
    requires dir { IsOwn agent.old dir.now }
    ensures { Calls S.tells agent.old agent.new (op.RemoveEntry dir.now name.now recursive) result }
{
    agent.remove_entry(rt, court, dir, name, recursive)?;
    Ok(Reply::Done)
}

/// resolve.
pub fn resolve<S: Store>(
    agent: &mut Agent<S>,
    dir: &Locator,
    entry: &Locator,
) -> Result<Reply, Stop>
    requires room { HasRoom agent.old }
    ensures { Calls S.tells agent.old agent.new (op.Resolve dir.now entry.now) result }
{
    let path = agent.resolve(dir, entry)?;
    match path {
        Some(names) => Ok(Reply::Names(names)),
        None => Ok(Reply::NoPath),
    }
}

/// isSameEntry.
pub fn is_same_entry<S: Store>(
    agent: &mut Agent<S>,
    entry: &Locator,
    other: &Locator,
) -> Result<Reply, Stop>
    requires room { HasRoom agent.old }
    ensures { Calls S.tells agent.old agent.new (op.IsSameEntry entry.now other.now) result }
{
    let flag = agent.same_entry(entry, other)?;
    Ok(Reply::Flag(flag))
}

/// persist.
pub fn persist<S: Store, R: Wait>(
    rt: &R,
    court: &Hall<S>,
    agent: &mut Agent<S>,
    bucket: &Text,
) -> Result<Reply, Stop>
    requires own { agent.old.pass.hall ≡ court.now }
    requires room { HasRoom agent.old }
    ensures { Calls S.tells agent.old agent.new (op.Persist bucket.now) result }
{
    let flag = agent.persist(rt, court, bucket)?;
    Ok(Reply::Flag(flag))
}

/// persisted.
pub fn persisted<S: Store, R: Wait>(
    rt: &R,
    court: &Hall<S>,
    agent: &mut Agent<S>,
    bucket: &Text,
) -> Result<Reply, Stop>
    requires own { agent.old.pass.hall ≡ court.now }
    requires room { HasRoom agent.old }
    ensures { Calls S.tells agent.old agent.new (op.Persisted bucket.now) result }
{
    let flag = agent.persisted(rt, court, bucket)?;
    Ok(Reply::Flag(flag))
}

/// estimate.
pub fn estimate<S: Store, R: Wait>(
    rt: &R,
    court: &Hall<S>,
    agent: &mut Agent<S>,
) -> Result<Reply, Stop>
    requires own { agent.old.pass.hall ≡ court.now }
    requires room { HasRoom agent.old }
    ensures { Calls S.tells agent.old agent.new op.Estimate result }
{
    let (usage, quota) = agent.estimate(rt, court)?;
    Ok(Reply::Estimate(usage, quota))
}

/// The clock is set.
pub fn moment<S: Store>(agent: &mut Agent<S>, ms: u64) -> Result<Reply, Stop>
    requires room { HasRoom agent.old }
    ensures { Calls S.tells agent.old agent.new (op.Moment ms) result }
{
    agent.moment(ms)?;
    Ok(Reply::Done)
}

/// A tag is posted.
pub fn post<S: Store, R: Wait>(
    rt: &R,
    court: &Hall<S>,
    agent: &mut Agent<S>,
    tag: &Text,
) -> Result<Reply, Stop>
    requires own { agent.old.pass.hall ≡ court.now }
    requires room { HasRoom agent.old }
    ensures { Calls S.tells agent.old agent.new (op.Post tag.now) result }
{
    agent.post(rt, court, tag)?;
    Ok(Reply::Done)
}

/// A tag is awaited.
pub fn await_tag<S: Store, R: Wait>(
    rt: &R,
    court: &Hall<S>,
    agent: &mut Agent<S>,
    tag: &Text,
) -> Result<Reply, Stop>
    requires own { agent.old.pass.hall ≡ court.now }
    requires room { HasRoom agent.old }
    ensures { Calls S.tells agent.old agent.new (op.Await tag.now) result }
{
    agent.await_tag(rt, court, tag)?;
    Ok(Reply::Done)
}

/// A step whose variable is not of its kind.
pub fn unbound<S: Store>(agent: &mut Agent<S>, word: Word) -> Result<Reply, Stop>
    requires room { HasRoom agent.old }
    ensures { Calls S.tells agent.old agent.new (op.Unbound word) result }
{
    Err(agent.unbound(word))
}
