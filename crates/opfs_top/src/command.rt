//! The program's calls.

ghost use Rattle.std.specs.Prelude.{◌≡◌, ◌≢◌, ◌⊎◌};
ghost use Rattle.opfs_base.specs.Texts.{Text};
ghost use Rattle.opfs_commands.specs.Commands.{running, spelled, Asks};
ghost use Rattle.opfs_commands.specs.Telling.{IsStoodFor};
ghost use Rattle.opfs_machine.specs.Openings.{Map};
ghost use Rattle.opfs_migrate.specs.Migrating.{StandsEither};
ghost use Rattle.opfs_outside.specs.Turns.{of_host, of_sink, of_source, AsBefore, ImageStays, Puts, PutsFront, SinkFailed};
ghost use Rattle.opfs_top.specs.Doing.{DidWithImage, IsDone, IsUsage, IsBadScript, IsBadImage, IsEarly, IsFault, IsHostFault, IsNoTool, IsSourceFault, IsSomeEnd, IsSomeToolEnd, IsTool, IsUnmade, LeavesNew, LeavesRun, Makes, Migrates, Names, OfSource, RefusedWithImage, TakesImage, Tells, TookDumped, TookPrinted};
ghost use Rattle.opfs_top.specs.Headline.{IsHeadline, OfScript};

use crate::answer::Answer;
use crate::status::Status;
use crate::tool::{answer_to, answer_tool};
use opfs_base::Words;
use opfs_outside::{Failed, Gate, Host, Sink, Source, put_all};
use std::alloc::Global;
use std::sync::Wait;
use std::thread::Threads;

/// Does what a command on an image asks: `format`, `list`, `check`, `migrate`, `dump` or `load`; other words are no command here.
/// Each status says what was put out, and why. What it leaves of the host is told as by `opfs`.
pub fn opfs_tool<H: Host, K: Sink>(
    alloc: Global,
    words: &Words,
    host: &mut H,
    sink: &mut K,
) -> Status
    ensures done { result ≡ Status.Done → Puts (of_sink K.Sink sink.old sink.new) (λ text. Asks words.now (λ command. DidWithImage command (of_host H.Host host.old host.new) text)) }
    ensures usage { result ≡ Status.Usage → Puts (of_sink K.Sink sink.old sink.new) (IsNoTool words.now) }
    ensures image { result ≡ Status.Image → Puts (of_sink K.Sink sink.old sink.new) (λ text. Asks words.now (λ command. RefusedWithImage command (of_host H.Host host.old host.new) text)) }
    ensures host { result ≡ Status.Host → Puts (of_sink K.Sink sink.old sink.new) (IsHostFault words.now (of_host H.Host host.old host.new)) }
    ensures sink { result ≡ Status.Sink → PutsFront (of_sink K.Sink sink.old sink.new) (IsSomeToolEnd words.now (of_host H.Host host.old host.new)) }
    ensures sink_cause { result ≡ Status.Sink → SinkFailed (of_sink K.Sink sink.old sink.new) }
    ensures memory { result ≡ Status.Memory → TookDumped (of_sink K.Sink sink.old sink.new) words.now (of_host H.Host host.old host.new) }
    ensures no_script { result ≢ Status.Script }
    ensures no_source { result ≢ Status.Source }
    ensures others { H.tells → (path : Text) → (Asks words.now (Names path) → ⊥) → AsBefore (of_host H.Host host.old host.new) path }
    ensures reads { H.tells → (path : Text) → Asks words.now (Tells path) → ImageStays (of_host H.Host host.old host.new) path }
    ensures refused { result ≡ Status.Image → H.tells → (path : Text) → Asks words.now (Names path) → ImageStays (of_host H.Host host.old host.new) path }
    ensures trail { H.tells → (path : Text) → Asks words.now (Migrates path) → (m : Map) → IsStoodFor m (H.image host.old path) → (c : Text) → H.trail host.new path c → H.trail host.old path c ⊎ StandsEither m c }
    ensures made { H.tells → (path : Text) → Asks words.now (Makes path) → LeavesNew words.now (of_host H.Host host.old host.new) path (IsUnmade result) }
    ensures none { (Asks words.now IsTool → ⊥) → host.new ≡ host.old }
{
    let Ok(Answer { status, text }) = answer_tool(alloc, words, host, sink) else {
        return Status::Memory;
    };
    match put_all(sink, text.as_slice()) {
        Ok(()) => status,
        Err(_) => Status::Sink,
    }
}

/// Does what the words of a command line ask. `run` reads a script from the source to its end, runs its agents over the image at
/// a path of the host, each on a thread of its own, and puts out the transcript. `try` does the same over an empty store.
/// `judge` reads a script and, behind a byte 0, a transcript, and tells whether that is one of a legal history of the script.
/// `gen` makes a script from a number, runs it over an empty store, and tells the digest of each agent's transcript. `format`,
/// `list`, `check`, `migrate` and `dump` work on the image at a path of the host; `load` makes one anew from the text at another
/// path. Each status says what was put out, and why. A dump is put out piece by piece, and a run's transcript while its agents
/// run: where they end early, a front was put out, and the line of a fault stands behind that of a dump. Where a run failed only in
/// its end, that line stands behind the transcript.
///
/// The headline says what a run over an image prints and leaves, however its threads are scheduled; and however a run ends, it
/// leaves its image as it was, or what one history of the script's agents leaves there.
///
/// However it ends, every path but those of the command is as before; a path whose image, or whose text, is
/// refused, or is only listed, checked, dumped or loaded from, has its image still; a text that is refused leaves the image
/// that was to be made from it as it was; and a stop within a migration leaves the old image or the new one. A command that
/// names no image, or that ends before it asks the host, leaves the host as it is.
///
/// `format` and `load` make the new image beside what stands at its path. However they end, and wherever they are stopped, the
/// old image stands there, or the new one whole; and the old one, where none was made and no call of the host itself failed.
pub fn opfs<R: AllocGlobal + Threads + Wait + Sync, H: Host, S: Source, K: Sink + Send, G: Gate>(
    rt: &R,
    words: &Words,
    host: &mut H,
    source: &mut S,
    sink: &mut K,
    gate: &G,
) -> Status
    ensures headline { result ≡ Status.Done → (path : Text) → words.now ≡ spelled (running path) → Puts (of_sink K.Sink sink.old sink.new) (OfSource (of_source S.Source source.old source.new) (OfScript (IsHeadline (of_host H.Host host.old host.new) path))) }
    ensures done { result ≡ Status.Done → Puts (of_sink K.Sink sink.old sink.new) (IsDone words.now (of_source S.Source source.old source.new) (of_host H.Host host.old host.new)) }
    ensures usage { result ≡ Status.Usage → Puts (of_sink K.Sink sink.old sink.new) (IsUsage words.now) }
    ensures script { result ≡ Status.Script → Puts (of_sink K.Sink sink.old sink.new) (IsBadScript words.now (of_source S.Source source.old source.new)) }
    ensures image { result ≡ Status.Image → Puts (of_sink K.Sink sink.old sink.new) (IsBadImage words.now (of_source S.Source source.old source.new) (of_host H.Host host.old host.new)) }
    ensures host { result ≡ Status.Host → Puts (of_sink K.Sink sink.old sink.new) (IsFault words.now (of_source S.Source source.old source.new) (of_host H.Host host.old host.new)) }
    ensures source { result ≡ Status.Source → Puts (of_sink K.Sink sink.old sink.new) (IsSourceFault words.now (of_source S.Source source.old source.new)) }
    ensures sink { result ≡ Status.Sink → PutsFront (of_sink K.Sink sink.old sink.new) (IsSomeEnd words.now (of_source S.Source source.old source.new) (of_host H.Host host.old host.new)) }
    ensures sink_cause { result ≡ Status.Sink → SinkFailed (of_sink K.Sink sink.old sink.new) }
    ensures memory { result ≡ Status.Memory → TookPrinted (of_sink K.Sink sink.old sink.new) words.now (of_source S.Source source.old source.new) (of_host H.Host host.old host.new) }
    ensures others { H.tells → (path : Text) → (Asks words.now (Names path) → ⊥) → AsBefore (of_host H.Host host.old host.new) path }
    ensures reads { H.tells → (path : Text) → Asks words.now (Tells path) → ImageStays (of_host H.Host host.old host.new) path }
    ensures refused { result ≡ Status.Image → H.tells → (path : Text) → Asks words.now (Names path) → ImageStays (of_host H.Host host.old host.new) path }
    ensures trail { H.tells → (path : Text) → Asks words.now (Migrates path) → (m : Map) → IsStoodFor m (H.image host.old path) → (c : Text) → H.trail host.new path c → H.trail host.old path c ⊎ StandsEither m c }
    ensures made { H.tells → (path : Text) → Asks words.now (Makes path) → LeavesNew words.now (of_host H.Host host.old host.new) path (IsUnmade result) }
    ensures left { (path : Text) → words.now ≡ spelled (running path) → LeavesRun (of_source S.Source source.old source.new) (of_host H.Host host.old host.new) path }
    ensures early { IsEarly result → host.new ≡ host.old }
    ensures none { (Asks words.now TakesImage → ⊥) → host.new ≡ host.old }
{
    let Ok(
        Answer {
            status: ended,
            text,
        },
    ) = answer_to(rt, words, host, source, sink, gate)
    else {
        return Status::Memory;
    };
    match put_all(sink, text.as_slice()) {
        Ok(()) => ended,
        Err(Failed) => Status::Sink,
    }
}
