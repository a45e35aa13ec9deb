//! What two agents do in the tests.

ghost use Rattle.std.specs.Prelude.{◌≤◌};
ghost use Rattle.opfs_turns.specs.Asking.Rows.{HasStream};
ghost use Rattle.opfs_library_tests.specs.Pipe.Tasks.{IsTask};
ghost use Rattle.opfs_notebook.specs.Ready.{Goes, HasMade, IsIdle, IsMine, IsReady};

use crate::pipe::Task;
use crate::pipe::example::{
    Parcel, deliver, give_up, read_file, save, send, snapshot, target_of, write_file,
};
use opfs_agent::Agent;
use opfs_agent::stream_calls::Writable;
use opfs_base::{Bytes, Data};
use opfs_hall::Hall;
use opfs_hist::Refusal;
use opfs_notebook::files::new_file;
use opfs_pipe::Range;
use opfs_store::Store;
use opfs_turns::Stop;
use std::sync::Wait;
use std::thread::Threads;

// Makes the reader's file.
fn write<S: Store, R: Wait>(
    rt: &R,
    court: &Hall<S>,
    reader: &mut Agent<S>,
    zeros: u64,
    count: u64,
) -> Result<Bytes, Stop>
    requires few { (zeros ≤ 268435456) × (count ≤ 16777216) }
    requires reader { IsIdle court.now reader.old 1 0 }
    ensures reader { IsIdle court.now reader.new 1 66000 }
{
    let source = new_file(rt, court, reader, "source")?;
    write_file(rt, court, reader, &source, zeros, &Data::filled(65, count))?;
    read_file(rt, court, reader, &source)
}

// Sends a range of the reader's file to the writer's.
fn send_range<S: Store + Send, R: Threads + Wait + Sync>(
    rt: &R,
    court: &Hall<S>,
    reader: &mut Agent<S>,
    writer: &mut Agent<S>,
    at: u64,
    len: u64,
) -> Result<Bytes, Stop>
    requires len { len ≤ 268435456 }
    requires reader { IsIdle court.now reader.old 1 0 }
    requires writer { IsIdle court.now writer.old 2 0 }
    ensures reader { IsIdle court.now reader.new 1 66000 }
    ensures writer { IsIdle court.now writer.new 2 66000 }
{
    let source = new_file(rt, court, reader, "source")?;
    let target = new_file(rt, court, writer, "target")?;
    let parcel = Parcel {
        source: &source,
        at,
        len,
        target: &target,
    };
    send(rt, court, reader, writer, &parcel)?;
    read_file(rt, court, writer, &target)
}

// Keeps what a stream has where the quota of one block was full, and else gives it up.
fn keep_front<S: Store, R: Wait>(
    rt: &R,
    court: &Hall<S>,
    writer: &mut Agent<S>,
    to: Writable,
    stop: Stop,
) -> Result<(), Stop>
    requires ready { IsReady court.now writer.old to.row }
    requires few { HasMade writer.old 50000000 }
    requires stream { HasStream S.tells writer.old to }
    ensures ready { IsReady court.now writer.new 0 }
    ensures goes { Goes writer.old writer.new 2 }
{
    if stop == Stop::No(Refusal::QuotaExceededError(1, 1, 1)) {
        return save(rt, court, writer, to);
    }
    give_up(rt, court, writer, to);
    Err(stop)
}

// Moves a range that is refused.
fn move_front<S: Store + Send, R: Threads + Wait + Sync>(
    rt: &R,
    court: &Hall<S>,
    reader: &mut Agent<S>,
    writer: &mut Agent<S>,
    parcel: &Parcel<'_>,
) -> Result<(), Stop>
    requires reader { IsReady court.now reader.old 0 }
    requires few { HasMade reader.old 40000000 }
    requires source { IsMine reader.old parcel.now.source.now }
    requires range { parcel.now.len ≤ 268435456 }
    requires writer { IsReady court.now writer.old 0 }
    requires few_writes { HasMade writer.old 40000000 }
    requires target { IsMine writer.old parcel.now.target.now }
    ensures reader { IsReady court.now reader.new 0 }
    ensures reads { Goes reader.old reader.new 65537 }
    ensures writer { IsReady court.now writer.new 0 }
    ensures writes { Goes writer.old writer.new 65540 }
{
    let from = snapshot(rt, court, reader, parcel.source)?;
    let to = target_of(rt, court, writer, parcel.target)?;
    let range = Range {
        from: &from,
        at: parcel.at,
        len: parcel.len,
    };
    match deliver(rt, court, reader, writer, &range, to) {
        Ok(()) => Ok(()),
        Err((to, stop)) => keep_front(rt, court, writer, to, stop),
    }
}

// The same of the two files.
fn refuse<S: Store + Send, R: Threads + Wait + Sync>(
    rt: &R,
    court: &Hall<S>,
    reader: &mut Agent<S>,
    writer: &mut Agent<S>,
    at: u64,
    len: u64,
) -> Result<Bytes, Stop>
    requires len { len ≤ 268435456 }
    requires reader { IsIdle court.now reader.old 1 0 }
    requires writer { IsIdle court.now writer.old 2 0 }
    ensures reader { IsIdle court.now reader.new 1 66000 }
    ensures writer { IsIdle court.now writer.new 2 66000 }
{
    let source = new_file(rt, court, reader, "source")?;
    let target = new_file(rt, court, writer, "target")?;
    let parcel = Parcel {
        source: &source,
        at,
        len,
        target: &target,
    };
    move_front(rt, court, reader, writer, &parcel)?;
    read_file(rt, court, writer, &target)
}

/// Two agents do a task, and are left with nothing open.
pub fn perform<S: Store + Send, R: Threads + Wait + Sync>(
    rt: &R,
    court: &Hall<S>,
    reader: &mut Agent<S>,
    writer: &mut Agent<S>,
    task: Task,
) -> Result<Bytes, Stop>
    requires task { IsTask task }
    requires reader { IsIdle court.now reader.old 1 0 }
    requires writer { IsIdle court.now writer.old 2 0 }
    ensures reader { IsIdle court.now reader.new 1 66000 }
    ensures writer { IsIdle court.now writer.new 2 66000 }
{
    match task {
        Task::Write(zeros, count) => write(rt, court, reader, zeros, count),
        Task::Send(at, len) => send_range(rt, court, reader, writer, at, len),
        Task::Refuse(at, len) => refuse(rt, court, reader, writer, at, len),
    }
}
