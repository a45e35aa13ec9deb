//! How the target of a pipe is opened.

ghost use Rattle.std.specs.Prelude.{◌≡◌, false, [], IfOk};
ghost use Rattle.opfs_hist.specs.declared.op.Op.TheVariants as op;
ghost use Rattle.opfs_hist.specs.declared.reply.Reply.TheVariants as reply;
ghost use Rattle.opfs_turns.specs.Calls.{HasRoom};
ghost use Rattle.opfs_turns.specs.Asking.Answers.{Shared, IsOwn};
ghost use Rattle.opfs_turns.specs.Asking.Rows.{HasStream};
ghost use Rattle.opfs_pipe.specs.Streams.{stream_bytes, stream_offset};

use opfs_agent::Agent;
use opfs_agent::stream_calls::Writable;
use opfs_base::Locator;
use opfs_hall::Hall;
use opfs_store::Store;
use opfs_turns::Stop;
use std::sync::Wait;

/// Opens a stream on a file that begins with no bytes: the target of a pipe (File System: createWritable).
pub fn open_target<S: Store, R: Wait>(
    rt: &R,
    court: &Hall<S>,
    writer: &mut Agent<S>,
    file: &Locator,
) -> Result<Writable, Stop>
    requires own { writer.old.pass.hall ≡ court.now }
    requires room { HasRoom writer.old }
    requires file { IsOwn writer.old file.now }
    ensures shared { Shared S.tells writer.old writer.new (op.CreateWritable file.now false) (λ stream answered _. (stream.row ≡ writer.new.rows) × (stream.file ≡ file.now) × (answered ≡ reply.Done) × HasStream S.tells writer.new stream) result }
    ensures empty { IfOk result (λ stream. (stream_bytes writer.new stream ≡ []) × (stream_offset writer.new stream ≡ 0)) }
{
    writer.know_kept();
    let opened = writer.create_writable(rt, court, file, false);
    writer.know_kept();
    opened
}
