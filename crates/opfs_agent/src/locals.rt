//! Calls that need only what is the agent's own, and name no row (File System: resolve, isSameEntry; the clock is this
//! project's own).

ghost use Rattle.std.specs.Prelude.{◌≡◌, IfOk};
ghost use Rattle.opfs_base.specs.Places.{resolved, same_locator};
ghost use Rattle.opfs_hist.specs.declared.op.Op.TheVariants as op;
ghost use Rattle.opfs_hist.specs.declared.reply.Refusal.TheVariants as refusal;
ghost use Rattle.opfs_hist.specs.declared.reply.Reply.TheVariants as reply;
ghost use Rattle.opfs_machine.specs.Replies.{path_reply};
ghost use Rattle.opfs_turns.specs.Calls.{HasRoom};
ghost use Rattle.opfs_turns.specs.Asking.Locals.{Local, Stopped, IsWhy};

use crate::agent::Agent;
use opfs_base::{Locator, Path, resolve, same};
use opfs_hist::{Op, Refusal, Reply, Word};
use opfs_store::Store;
use opfs_turns::Stop;
use std::alloc::{AllocError, Global};

// The reply of resolve.
fn path_reply(path: Option<Path>) -> Reply
    ensures { result ≡ path_reply path }
{
    match path {
        Some(names) => Reply::Names(names),
        None => Reply::NoPath,
    }
}

// Two locators in new memory.
fn copies(alloc: Global, a: &Locator, b: &Locator) -> Result<(Locator, Locator), AllocError>
    ensures { IfOk result (λ both. (both.0 ≡ a.now) × (both.1 ≡ b.now)) }
{
    let first = a.copy(alloc)?;
    let second = b.copy(alloc)?;
    Ok((first, second))
}

impl<S: Store> Agent<S> {
    /// Gives the names from a directory to an entry, or None where the entry is not in it (File System: resolve).
    pub fn resolve(&mut self, dir: &Locator, entry: &Locator) -> Result<Option<Path>, Stop>
        requires room { HasRoom self.old }
        ensures { Local S.tells self.old self.new (op.Resolve dir.now entry.now) 0 (λ path answered. (path ≡ resolved dir.now entry.now) × (answered ≡ path_reply path)) result }
    {
        self.know_kept();
        let Ok(path) = resolve(self.alloc, dir, entry) else {
            return Err(Stop::NoMemory);
        };
        let Ok(told) = resolve(self.alloc, dir, entry) else {
            return Err(Stop::NoMemory);
        };
        let Ok((dir, entry)) = copies(self.alloc, dir, entry) else {
            return Err(Stop::NoMemory);
        };
        self.keep_call(Op::Resolve { dir, entry }, path_reply(told), 0)?;
        Ok(path)
    }

    /// Whether two entries are the same (File System: isSameEntry).
    pub fn same_entry(&mut self, a: &Locator, b: &Locator) -> Result<bool, Stop>
        requires room { HasRoom self.old }
        ensures { Local S.tells self.old self.new (op.IsSameEntry a.now b.now) 0 (λ flag answered. (flag ≡ same_locator a.now b.now) × (answered ≡ reply.Flag flag)) result }
    {
        self.know_kept();
        let flag = same(a, b);
        let Ok((entry, other)) = copies(self.alloc, a, b) else {
            return Err(Stop::NoMemory);
        };
        self.keep_call(Op::IsSameEntry { entry, other }, Reply::Flag(flag), 0)?;
        Ok(flag)
    }

    /// Sets the agent's clock, in milliseconds.
    pub fn moment(&mut self, ms: u64) -> Result<(), Stop>
        requires room { HasRoom self.old }
        ensures { Local S.tells self.old self.new (op.Moment ms) 0 (λ _ answered. answered ≡ reply.Done) result }
    {
        self.know_kept();
        self.keep_call(Op::Moment { ms }, Reply::Done, 0)
    }

    /// Keeps a step of a script whose variable holds nothing of the wanted kind: it is refused as Unbound.
    pub fn unbound(&mut self, word: Word) -> Stop
        requires room { HasRoom self.old }
        ensures stopped { Stopped S.tells self.old self.new (op.Unbound word) result }
        ensures why { IsWhy result refusal.Unbound }
    {
        self.know_kept();
        self.keep_refusal(Op::Unbound { word }, Refusal::Unbound)
    }
}
