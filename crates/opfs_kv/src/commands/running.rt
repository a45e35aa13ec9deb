//! A list of commands on a key-value file.

ghost use Rattle.std.specs.Prelude.{◌≡◌, ◌≤◌, All, IfOk, OnErr, OnOk, length, sum_by};
ghost use Rattle.opfs_sync_files.specs.Entries.{GoesOn};
ghost use Rattle.opfs_sync_files.specs.Resting.{LeavesRest};
ghost use Rattle.opfs_kv.specs.Seen.{Stands, map_in};
ghost use Rattle.opfs_kv.specs.Commands.Runs.{AreReplies, AreRun, HasRunRoom, HasStored, IsOp, entries_of, map_after};
ghost use Rattle.opfs_kv.specs.Commands.Stops.{LeavesFronts};

use crate::Kv;
use crate::commands::commands::{KvOp, KvReplies};
use crate::commands::each::run_one;
use opfs_agent::Agent;
use opfs_hall::Hall;
use opfs_store::Store;
use std::alloc::AllocError;
use std::sync::Wait;

/// Runs commands one after another. It takes the memory of the list of replies first.
pub fn kv_run<S: Store, R: Wait>(
    rt: &R,
    court: &Hall<S>,
    agent: &mut Agent<S>,
    kv: &mut Kv,
    ops: &[KvOp],
) -> Result<KvReplies, AllocError>
    requires own { agent.old.pass.hall ≡ court.now }
    requires few { HasRunRoom agent.old }
    requires stands { Stands S.tells agent.old kv.old }
    requires ops { All IsOp ops.now }
    requires many { length ops.now ≤ 100000 }
    ensures stands { Stands S.tells agent.new kv.new }
    ensures many { IfOk result (λ replies. length replies.list.items ≡ length ops.now) }
    ensures replies { IfOk result (λ replies. S.tells → AreReplies (map_in agent.old kv.old) ops.now replies.list.items) }
    ensures map { IfOk result (λ replies. S.tells → map_in agent.new kv.new ≡ map_after (map_in agent.old kv.old) ops.now replies.list.items) }
    ensures contents { IfOk result (λ replies. HasStored S.tells agent.old agent.new kv.old kv.new ops.now replies.list.items) }
    ensures stops { IfOk result (λ replies. S.tells → LeavesFronts agent.old agent.new kv.old ops.now replies.list.items) }
    ensures same { OnOk result ((kv.new.handle.row ≡ kv.old.handle.row) × (kv.new.handle.file ≡ kv.old.handle.file)) }
    ensures runs { IfOk result (λ replies. AreRun S.tells agent.old kv.old ops.now replies.list.items agent.new kv.new) }
    ensures others { LeavesRest S.tells agent.old agent.new kv.old.handle.row }
    ensures entries { OnOk result (GoesOn agent.old agent.new (sum_by entries_of ops.now)) }
    ensures err { OnErr result ((agent.new ≡ agent.old) × (kv.new ≡ kv.old)) }
{
    agent.know_kept();
    let mut list = Vec::new(agent.alloc());
    list.reserve(ops.len())?;
    let mut at = 0;
    while at < ops.len() {
        let called = &ops[at];
        let reply = run_one(rt, court, agent, kv, called);
        list.push(reply).unwrap();
        at += 1;
    }
    agent.know_kept();
    Ok(KvReplies { list })
}
