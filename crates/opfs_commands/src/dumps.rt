//! An image's text, put out.
ghost use Rattle.std.specs.Prelude.{◌≡◌, ◌≤◌, [], IfOk, IsErrOf, IsOk};
ghost use Rattle.opfs_codec.specs.declared.change.Format.TheVariants.{New};
ghost use Rattle.opfs_image.specs.Reading.{read_as};
ghost use Rattle.opfs_journal.specs.Walking.{OnlyRead};
ghost use Rattle.opfs_outside.specs.Faults.{Rose};
ghost use Rattle.opfs_outside.specs.Turns.{of_host, of_sink, HostFailed, ImageStays, OthersAsBefore};
ghost use Rattle.opfs_print.specs.Status.{status_text};
ghost use Rattle.opfs_print.specs.declared.end.End.TheVariants as end;
ghost use Rattle.opfs_commands.specs.Telling.{IsDumped, IsImageLine, IsOfImage, IsPut, IsRefusedLine};

use crate::answers::{ToolAnswer, ToolEnd, bare_answer, host_answer, refused_answer};
use crate::hosts::give_back;
use opfs_dump::{DumpStop, dump};
use opfs_image::{Recovered, recover};
use opfs_outside::{Disk, Host, HostStop, Sink};
use std::alloc::{AllocError, Global};

// The answer where a dump ended so.
fn dump_answer(alloc: Global, dumped: Result<(), DumpStop>) -> Result<ToolAnswer, AllocError>
    ensures done { IsOk dumped → IfOk result (λ answer. (answer.end ≡ ToolEnd.Done) × (answer.text ≡ [])) }
    ensures fault { IsErrOf dumped DumpStop.DiskFault → IfOk result (λ answer. (answer.end ≡ ToolEnd.Host) × (answer.text ≡ status_text end.Host)) }
    ensures sink { IsErrOf dumped DumpStop.SinkFault → IfOk result (λ answer. (answer.end ≡ ToolEnd.Sink) × (answer.text ≡ [])) }
    ensures memory { IsErrOf dumped DumpStop.NoMemory → IfOk result (λ answer. ⊥) }
{
    match dumped {
        Ok(()) => Ok(bare_answer(alloc, ToolEnd::Done)),
        Err(DumpStop::DiskFault) => host_answer(alloc),
        Err(DumpStop::SinkFault) => Ok(bare_answer(alloc, ToolEnd::Sink)),
        Err(DumpStop::NoMemory) => Err(AllocError),
    }
}

// Puts the text of an image out that was recovered.
fn put_image<D: Disk, K: Sink>(
    alloc: Global,
    image: Recovered<D>,
    sink: &mut K,
) -> (D, Result<ToolAnswer, AllocError>)
    ensures only { OnlyRead D.Disk image.journal.disk result.0 }
    ensures put { IsPut (of_sink K.Sink sink.old sink.new) (λ text. D.tells → IsDumped (D.content image.journal.disk) text) (λ text. D.tells → IsDumped (D.content image.journal.disk) text) (λ text. ⊥) (Rose (D.faults image.journal.disk) (D.faults result.0)) result.1 }
    ensures later { K.faults sink.old ≤ K.faults sink.new }
{
    let mut image = image;
    let dumped = dump(alloc, &mut image, sink);
    let Recovered { journal, .. } = image;
    (journal.give_back(), dump_answer(alloc, dumped))
}

// Puts the text of the image out that a disk holds. The disk is only read.
fn dump_disk<D: Disk, K: Sink>(
    alloc: Global,
    disk: D,
    sink: &mut K,
) -> (D, Result<ToolAnswer, AllocError>)
    ensures only { OnlyRead D.Disk disk result.0 }
    ensures put { IsPut (of_sink K.Sink sink.old sink.new) (λ text. D.tells → IsDumped (D.content disk) text) (λ text. D.tells → IsDumped (D.content disk) text) (λ text. D.tells → IsImageLine (read_as New New (D.content disk)) text) (Rose (D.faults disk) (D.faults result.0)) result.1 }
    ensures later { K.faults sink.old ≤ K.faults sink.new }
{
    match recover(alloc, disk) {
        Ok(image) => put_image(alloc, image, sink),
        Err((disk, refusal)) => (disk, refused_answer(alloc, refusal)),
    }
}

/// Puts the text of the image at a path of a host out.
pub fn dump_at<H: Host, K: Sink>(
    alloc: Global,
    host: &mut H,
    path: &str,
    sink: &mut K,
) -> Result<ToolAnswer, AllocError>
    ensures put { IsPut (of_sink K.Sink sink.old sink.new) (λ text. H.tells → IsOfImage IsDumped (H.image host.old path.now) text) (λ text. H.tells → IsOfImage IsDumped (H.image host.old path.now) text) (λ text. H.tells → IsOfImage IsRefusedLine (H.image host.old path.now) text) (HostFailed (of_host H.Host host.old host.new)) result }
    ensures later { K.faults sink.old ≤ K.faults sink.new }
    ensures others { H.tells → OthersAsBefore (of_host H.Host host.old host.new) path.now }
    ensures reads { H.tells → ImageStays (of_host H.Host host.old host.new) path.now }
{
    let disk = match host.fetch(path) {
        Ok(disk) => disk,
        Err(HostStop::Failed) => return host_answer(alloc),
        Err(HostStop::NoMemory) => return Err(AllocError),
    };
    let (disk, answer) = dump_disk(alloc, disk, sink);
    give_back(alloc, host, path, disk, answer)
}
