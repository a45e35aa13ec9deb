//! How a file goes from one agent to another: the calls of a program, in their order.

ghost use Rattle.std.specs.Prelude.{◌≡◌, ◌≤◌, [], IfErr, IfOk};
ghost use Rattle.opfs_store.specs.Acts.Asking.{IsSmall, IsSmallData};
ghost use Rattle.opfs_turns.specs.Asking.Rows.{HasSnapshot, HasStream};
ghost use Rattle.opfs_pipe.specs.Streams.{stream_bytes, stream_offset};
ghost use Rattle.opfs_notebook.specs.Ready.{Goes, HasMade, IsMine, IsReady};

use opfs_agent::stream_calls::Writable;
use opfs_agent::{Agent, Snapshot};
use opfs_base::{Bytes, Data, Locator};
use opfs_hall::Hall;
use opfs_pipe::{Range, open_target, pipe};
use opfs_store::Store;
use opfs_turns::Stop;
use std::sync::Wait;
use std::thread::Threads;

/// Aborts a stream: its file is as it was.
pub fn give_up<S: Store, R: Wait>(rt: &R, court: &Hall<S>, agent: &mut Agent<S>, stream: Writable)
    requires ready { IsReady court.now agent.old stream.row }
    requires few { HasMade agent.old 50000003 }
    requires stream { HasStream S.tells agent.old stream }
    ensures ready { IsReady court.now agent.new 0 }
    ensures goes { Goes agent.old agent.new 1 }
{
    agent.know_kept();
    let _closed = agent.abort(rt, court, stream);
    agent.know_kept();
}

/// Closes a stream: its file has its bytes. Where that is refused the file is as it was.
pub fn save<S: Store, R: Wait>(
    rt: &R,
    court: &Hall<S>,
    agent: &mut Agent<S>,
    stream: Writable,
) -> Result<(), Stop>
    requires ready { IsReady court.now agent.old stream.row }
    requires few { HasMade agent.old 50000002 }
    requires stream { HasStream S.tells agent.old stream }
    ensures ready { IsReady court.now agent.new 0 }
    ensures goes { Goes agent.old agent.new 2 }
{
    agent.know_kept();
    let done = agent.close_writable(rt, court, stream);
    agent.know_kept();
    match done {
        Ok(_) => Ok(()),
        Err((stream, stop)) => {
            give_up(rt, court, agent, stream);
            Err(stop)
        }
    }
}

/// Writes bytes at a place of a stream: with no turn where they fit, else under the turn.
pub fn write_at<S: Store, R: Wait>(
    rt: &R,
    court: &Hall<S>,
    agent: &mut Agent<S>,
    stream: &mut Writable,
    bytes: &Data,
    at: u64,
) -> Result<(), Stop>
    requires ready { IsReady court.now agent.old stream.old.row }
    requires few { HasMade agent.old 50000001 }
    requires stream { HasStream S.tells agent.old stream.old }
    requires small { IsSmallData bytes.now × IsSmall at }
    ensures ready { IsReady court.now agent.new stream.new.row }
    ensures goes { Goes agent.old agent.new 1 }
    ensures stream { HasStream S.tells agent.new stream.new }
{
    agent.know_kept();
    if stream.fits(Some(at), bytes.len()) {
        let near = agent.write_within(stream, bytes, Some(at));
        agent.know_kept();
        return near;
    }
    let far = agent.write_growing(rt, court, stream, bytes, Some(at));
    agent.know_kept();
    far
}

/// Writes bytes at a place of a stream, and closes it. Where that is refused the file is as it was.
pub fn fill<S: Store, R: Wait>(
    rt: &R,
    court: &Hall<S>,
    agent: &mut Agent<S>,
    mut stream: Writable,
    bytes: &Data,
    at: u64,
) -> Result<(), Stop>
    requires ready { IsReady court.now agent.old stream.row }
    requires few { HasMade agent.old 50000001 }
    requires stream { HasStream S.tells agent.old stream }
    requires small { IsSmallData bytes.now × IsSmall at }
    ensures ready { IsReady court.now agent.new 0 }
    ensures goes { Goes agent.old agent.new 3 }
{
    match write_at(rt, court, agent, &mut stream, bytes, at) {
        Ok(()) => save(rt, court, agent, stream),
        Err(stop) => {
            give_up(rt, court, agent, stream);
            Err(stop)
        }
    }
}

/// A stream on a file, without the bytes that the file has.
pub fn open_new<S: Store, R: Wait>(
    rt: &R,
    court: &Hall<S>,
    agent: &mut Agent<S>,
    file: &Locator,
) -> Result<Writable, Stop>
    requires ready { IsReady court.now agent.old 0 }
    requires few { HasMade agent.old 50000000 }
    requires mine { IsMine agent.old file.now }
    ensures goes { Goes agent.old agent.new 1 }
    ensures not { IfErr result (λ _. IsReady court.now agent.new 0) }
    ensures ready { IfOk result (λ stream. IsReady court.now agent.new stream.row) }
    ensures stream { IfOk result (λ stream. HasStream S.tells agent.new stream) }
{
    agent.know_kept();
    let opened = agent.create_writable(rt, court, file, false);
    agent.know_kept();
    opened
}

/// Writes a file whole: so many zeros, and these bytes.
pub fn write_file<S: Store, R: Wait>(
    rt: &R,
    court: &Hall<S>,
    agent: &mut Agent<S>,
    file: &Locator,
    zeros: u64,
    bytes: &Data,
) -> Result<(), Stop>
    requires ready { IsReady court.now agent.old 0 }
    requires few { HasMade agent.old 50000000 }
    requires mine { IsMine agent.old file.now }
    requires small { IsSmallData bytes.now × IsSmall zeros }
    ensures ready { IsReady court.now agent.new 0 }
    ensures goes { Goes agent.old agent.new 4 }
{
    let stream = open_new(rt, court, agent, file)?;
    fill(rt, court, agent, stream, bytes, zeros)
}

/// A snapshot of a file.
pub fn snapshot<S: Store, R: Wait>(
    rt: &R,
    court: &Hall<S>,
    agent: &mut Agent<S>,
    file: &Locator,
) -> Result<Snapshot, Stop>
    requires ready { IsReady court.now agent.old 0 }
    requires few { HasMade agent.old 50000000 }
    requires mine { IsMine agent.old file.now }
    ensures ready { IsReady court.now agent.new 0 }
    ensures goes { Goes agent.old agent.new 1 }
    ensures has { IfOk result (λ snapshot. HasSnapshot S.tells agent.new snapshot) }
{
    agent.know_kept();
    let taken = agent.get_file(rt, court, file);
    agent.know_kept();
    taken
}

/// The bytes of a snapshot.
pub fn bytes_of<S: Store>(
    court: &Hall<S>,
    agent: &mut Agent<S>,
    snapshot: &Snapshot,
) -> Result<Bytes, Stop>
    requires ready { IsReady court.now agent.old 0 }
    requires few { HasMade agent.old 50000001 }
    requires has { HasSnapshot S.tells agent.old snapshot.now }
    ensures ready { IsReady court.now agent.new 0 }
    ensures goes { Goes agent.old agent.new 1 }
{
    let _ = court;
    agent.know_kept();
    let bytes = agent.slice(snapshot, 0, snapshot.size());
    agent.know_kept();
    bytes
}

/// The bytes of a file.
pub fn read_file<S: Store, R: Wait>(
    rt: &R,
    court: &Hall<S>,
    agent: &mut Agent<S>,
    file: &Locator,
) -> Result<Bytes, Stop>
    requires ready { IsReady court.now agent.old 0 }
    requires few { HasMade agent.old 50000000 }
    requires mine { IsMine agent.old file.now }
    ensures ready { IsReady court.now agent.new 0 }
    ensures goes { Goes agent.old agent.new 2 }
{
    let snapshot = snapshot(rt, court, agent, file)?;
    bytes_of(court, agent, &snapshot)
}

/// A stream on a file, which begins empty: the target of a pipe.
pub fn target_of<S: Store, R: Wait>(
    rt: &R,
    court: &Hall<S>,
    agent: &mut Agent<S>,
    file: &Locator,
) -> Result<Writable, Stop>
    requires ready { IsReady court.now agent.old 0 }
    requires few { HasMade agent.old 40000000 }
    requires mine { IsMine agent.old file.now }
    ensures goes { Goes agent.old agent.new 1 }
    ensures not { IfErr result (λ _. IsReady court.now agent.new 0) }
    ensures ready { IfOk result (λ stream. IsReady court.now agent.new stream.row) }
    ensures stream { IfOk result (λ stream. HasStream S.tells agent.new stream) }
    ensures empty { IfOk result (λ stream. (stream_bytes agent.new stream ≡ []) × (stream_offset agent.new stream ≡ 0)) }
{
    agent.know_kept();
    let opened = open_target(rt, court, agent, file);
    agent.know_kept();
    opened
}

/// Moves a range of a snapshot of one agent into a stream of another, and closes it. Where that is refused, the stream comes back
/// open, with a front of the range.
pub fn deliver<S: Store + Send, R: Threads + Wait + Sync>(
    rt: &R,
    court: &Hall<S>,
    reader: &mut Agent<S>,
    writer: &mut Agent<S>,
    range: &Range<'_>,
    to: Writable,
) -> Result<(), (Writable, Stop)>
    requires reader { IsReady court.now reader.old 0 }
    requires few { HasMade reader.old 40000001 }
    requires snapshot { HasSnapshot S.tells reader.old range.now.from.now }
    requires range { range.now.len ≤ 268435456 }
    requires writer { IsReady court.now writer.old to.row }
    requires few_writes { HasMade writer.old 40000001 }
    requires stream { HasStream S.tells writer.old to }
    requires empty { (stream_bytes writer.old to ≡ []) × (stream_offset writer.old to ≡ 0) }
    ensures reader { IsReady court.now reader.new 0 }
    ensures reads { Goes reader.old reader.new 65536 }
    ensures writes { Goes writer.old writer.new 65537 }
    ensures done { IfOk result (λ _. IsReady court.now writer.new 0) }
    ensures back { IfErr result (λ back. IsReady court.now writer.new back.0.row) }
    ensures stream { IfErr result (λ back. HasStream S.tells writer.new back.0) }
{
    reader.know_kept();
    writer.know_kept();
    let piped = pipe(rt, court, reader, writer, range, to);
    reader.know_kept();
    writer.know_kept();
    match piped {
        Ok(_) => Ok(()),
        Err(back) => Err(back),
    }
}

/// What is sent: a file's bytes from a place on, so many; and the file that they become.
#[derive(Clone, Copy)]
pub struct Parcel<'a> {
    pub source: &'a Locator,
    pub at: u64,
    pub len: u64,
    pub target: &'a Locator,
}

/// Sends a range of one agent's file into another agent's file. Where that is refused the target is as it was.
pub fn send<S: Store + Send, R: Threads + Wait + Sync>(
    rt: &R,
    court: &Hall<S>,
    reader: &mut Agent<S>,
    writer: &mut Agent<S>,
    parcel: &Parcel<'_>,
) -> Result<(), Stop>
    requires reader { IsReady court.now reader.old 0 }
    requires few { HasMade reader.old 40000000 }
    requires source { IsMine reader.old parcel.now.source.now }
    requires range { parcel.now.len ≤ 268435456 }
    requires writer { IsReady court.now writer.old 0 }
    requires few_writes { HasMade writer.old 40000000 }
    requires target { IsMine writer.old parcel.now.target.now }
    ensures reader { IsReady court.now reader.new 0 }
    ensures reads { Goes reader.old reader.new 65537 }
    ensures writer { IsReady court.now writer.new 0 }
    ensures writes { Goes writer.old writer.new 65539 }
{
    let from = snapshot(rt, court, reader, parcel.source)?;
    let to = target_of(rt, court, writer, parcel.target)?;
    let range = Range {
        from: &from,
        at: parcel.at,
        len: parcel.len,
    };
    match deliver(rt, court, reader, writer, &range, to) {
        Ok(()) => Ok(()),
        Err((to, stop)) => {
            give_up(rt, court, writer, to);
            Err(stop)
        }
    }
}
