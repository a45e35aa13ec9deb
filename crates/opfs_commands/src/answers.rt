//! What commands answer.
ghost use Rattle.std.specs.Prelude.{◌≡◌, ◌≢◌, ◌++◌, [], Some, IfOk, IfSome};
ghost use Rattle.std.specs.Option.{IfNone};
ghost use Rattle.opfs_print.specs.Status.{status_text};
ghost use Rattle.opfs_print.specs.declared.end.End.TheVariants as end;
ghost use Rattle.opfs_commands.specs.Telling.{told_as, IsLineOf};

use opfs_base::Bytes;
use opfs_image::ImageRefusal;
use opfs_print::{BadImage, End, status_line};
use std::alloc::{AllocError, Global};

/// How a command on an image ends.
#[derive(Clone, Copy, PartialEq, Eq)]
pub enum ToolEnd {
    /// All was done.
    Done,
    /// The image is refused, or the text of one.
    Image,
    /// The file or the host failed.
    Host,
    /// The output failed.
    Sink,
}

/// A tool that only reads an image.
#[derive(Clone, Copy, PartialEq, Eq)]
pub enum ReadTool {
    /// Lists the units and rows.
    List,
    /// Reads the files, and tells their digests.
    Check,
}

/// How a command on an image ends, and what it is to put out behind what it has put out already.
#[derive(Drop)]
pub struct ToolAnswer {
    pub end: ToolEnd,
    pub text: Bytes,
}

/// An answer with nothing left to put out.
pub fn bare_answer(alloc: Global, end: ToolEnd) -> ToolAnswer
    ensures end { result.end ≡ end }
    ensures text { result.text ≡ [] }
{
    ToolAnswer {
        end,
        text: Bytes::from_vec(Vec::new(alloc)),
    }
}

/// An answer with a status line.
pub fn line_answer(alloc: Global, end: ToolEnd, line: End) -> Result<ToolAnswer, AllocError>
    ensures end { IfOk result (λ answer. answer.end ≡ end) }
    ensures text { IfOk result (λ answer. answer.text ≡ status_text line) }
{
    let mut text = Vec::new(alloc);
    status_line(alloc, &line, &mut text)?;
    Ok(ToolAnswer {
        end,
        text: Bytes::from_vec(text),
    })
}

/// The answer after a fault of the file or the host.
pub fn host_answer(alloc: Global) -> Result<ToolAnswer, AllocError>
    ensures end { IfOk result (λ answer. answer.end ≡ ToolEnd.Host) }
    ensures text { IfOk result (λ answer. answer.text ≡ status_text end.Host) }
{
    line_answer(alloc, ToolEnd::Host, End::Host)
}

// Why an image is refused, as the status line says it; None for a fault and for want of memory.
fn told(refusal: ImageRefusal) -> Option<BadImage>
    ensures { result ≡ told_as refusal }
{
    match refusal {
        ImageRefusal::Short => Some(BadImage::Short),
        ImageRefusal::Magic => Some(BadImage::Magic),
        ImageRefusal::Geometry => Some(BadImage::Geometry),
        ImageRefusal::NoArea => Some(BadImage::NoArea),
        ImageRefusal::BadRecord(place) => Some(BadImage::BadRecord(place)),
        ImageRefusal::Old => Some(BadImage::Old),
        ImageRefusal::NotOld => Some(BadImage::NotOld),
        ImageRefusal::Overfull(charge, area) => Some(BadImage::Overfull(charge, area)),
        ImageRefusal::DiskFault | ImageRefusal::NoMemory => None,
    }
}

/// The answer where an image is refused.
pub fn refused_answer(alloc: Global, refusal: ImageRefusal) -> Result<ToolAnswer, AllocError>
    ensures fault { refusal ≡ ImageRefusal.DiskFault → IfOk result (λ answer. (answer.end ≡ ToolEnd.Host) × (answer.text ≡ status_text end.Host)) }
    ensures memory { refusal ≡ ImageRefusal.NoMemory → IfOk result (λ answer. ⊥) }
    ensures image { refusal ≢ ImageRefusal.DiskFault → IfOk result (λ answer. (answer.end ≡ ToolEnd.Image) × IsLineOf refusal answer.text) }
{
    if refusal == ImageRefusal::DiskFault {
        return host_answer(alloc);
    }
    match told(refusal) {
        Some(why) => line_answer(alloc, ToolEnd::Image, End::Image(why)),
        None => Err(AllocError),
    }
}
