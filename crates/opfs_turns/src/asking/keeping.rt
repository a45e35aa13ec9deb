//! How an agent makes a local call, which needs only what is its own.

ghost use Rattle.std.specs.Prelude.{◌≡◌, ◌≤◌, false, Ok, Err};
ghost use Rattle.opfs_hist.specs.declared.reply.Reply.TheVariants as reply;
ghost use Rattle.opfs_machine.specs.Steps.{is_refusal};
ghost use Rattle.opfs_turns.specs.Calls.{HasRoom, IsLocal};
ghost use Rattle.opfs_turns.specs.Asking.Locals.{Local, Stopped, IsWhy};

use crate::Turns;
use crate::asking::stop::Stop;
use opfs_hist::{Op, Refusal, Reply, Room};
use opfs_store::Store;
use std::alloc::Global;

/// Keeps a local call that is not refused, with its answer.
pub fn keep_call<S: Store>(
    alloc: Global,
    turns: &mut Turns<S>,
    op: Op,
    reply: Reply,
    made: u32,
) -> Result<(), Stop>
    requires room { HasRoom turns.old }
    requires local { IsLocal S.tells turns.old op reply made }
    requires few { made ≤ 1 }
    requires accepted { is_refusal reply ≡ false }
    ensures { Local S.tells turns.old turns.new op made (λ _ answered. answered ≡ reply) result }
{
    let Ok(room) = Room::make(alloc) else {
        drop(op);
        drop(reply);
        return Err(Stop::NoMemory);
    };
    turns.keep(room, op, reply, made);
    Ok(())
}

/// Keeps a local call that is refused, and tells why it gives nothing.
pub fn keep_refusal<S: Store>(alloc: Global, turns: &mut Turns<S>, op: Op, refusal: Refusal) -> Stop
    requires room { HasRoom turns.old }
    requires local { IsLocal S.tells turns.old op (reply.No refusal) 0 }
    ensures stopped { Stopped S.tells turns.old turns.new op result }
    ensures why { IsWhy result refusal }
{
    let Ok(room) = Room::make(alloc) else {
        drop(op);
        return Stop::NoMemory;
    };
    turns.keep(room, op, Reply::No(refusal), 0);
    Stop::No(refusal)
}
