//! An image that is made anew from a text.
ghost use Rattle.std.specs.Prelude.{◌≡◌, ◌≢◌, ◌≤◌, Ok, IfOk, IfErr, IsOk, IsErrOf, length};
ghost use Rattle.opfs_base.specs.Texts.{Text};
ghost use Rattle.opfs_dump.specs.Loading.Laid.{StandsAs};
ghost use Rattle.opfs_dump.specs.Text.Reading.{reads_dump};
ghost use Rattle.opfs_dump.specs.Text.Texts.{loaded_line, refused_line};
ghost use Rattle.opfs_dump.specs.Text.Whole.{dump_of};
ghost use Rattle.opfs_image.specs.Superblock.{image_size};
ghost use Rattle.opfs_journal.specs.Walking.{OnlyRead};
ghost use Rattle.opfs_outside.specs.Faults.{Rose, RoseBy};
ghost use Rattle.opfs_outside.specs.Turns.{of_host, AsBefore, GivenBack, HostFailed, ImageStays, IsReturned, OthersAsBefore};
ghost use Rattle.opfs_print.specs.Status.{status_text};
ghost use Rattle.opfs_print.specs.declared.end.End.TheVariants as end;
ghost use Rattle.opfs_commands.specs.Kinds.{FaultsLater, IsUnmade, LeavesMade, LeavesText};
ghost use Rattle.opfs_commands.specs.Telling.{IsAnswer, IsDumpAt, IsLaid, StandsForText, IsLoaded, IsNoDump, IsOfImage};

use crate::answers::{ToolAnswer, ToolEnd, host_answer};
use crate::hosts::{end_making, give_back};
use crate::makers::done;
use opfs_base::Bytes;
use opfs_dump::{DumpRefusal, Dumped, LayStop, lay, loaded_line, read_dump, refused_line};
use opfs_outside::{Disk, Host, HostStop};
use std::alloc::{AllocError, Global};

// The most bytes that a text may have.
const MOST_BYTES: u64 = 67_108_864;

// The answer where a text is no dump.
fn no_dump(alloc: Global, why: DumpRefusal) -> Result<ToolAnswer, AllocError>
    ensures end { IfOk result (λ answer. answer.end ≡ ToolEnd.Image) }
    ensures text { IfOk result (λ answer. answer.text ≡ refused_line why) }
    ensures memory { why ≡ DumpRefusal.NoMemory → IfOk result (λ answer. ⊥) }
{
    let line = refused_line(alloc, why)?;
    Ok(ToolAnswer {
        end: ToolEnd::Image,
        text: Bytes::from_vec(line.into_bytes()),
    })
}

// So many zeros.
fn zeros(alloc: Global, len: usize) -> Result<Vec<u8>, AllocError>
    ensures { IfOk result (λ bytes. length bytes.items ≡ len) }
{
    let bytes = vec![in alloc; 0u8; len]?;
    Ok(bytes)
}

// All bytes of a disk; or the answer where they are too many, or are not read.
fn bytes_on<D: Disk>(alloc: Global, disk: &mut D) -> Result<Vec<u8>, Result<ToolAnswer, AllocError>>
    ensures only { OnlyRead D.Disk disk.old disk.new }
    ensures bytes { IfOk result (λ bytes. D.tells → bytes.items ≡ D.content disk.old) }
    ensures not { IfErr result (λ r. IfOk r (λ answer. IsAnswer D.tells (λ text. ⊥) (IsNoDump (D.content disk.old)) (Rose (D.faults disk.old) (D.faults disk.new)) answer.end answer.text)) }
{
    let len = disk.len();
    if len > MOST_BYTES {
        return Err(no_dump(alloc, DumpRefusal::TooLong));
    }
    let Ok(mut bytes) = zeros(alloc, len as usize) else {
        return Err(Err(AllocError));
    };
    match disk.read(0, &mut bytes) {
        Ok(()) => Ok(bytes),
        Err(_) => Err(host_answer(alloc)),
    }
}

// The dump that bytes are; or the answer where they are none.
fn dump_in(alloc: Global, bytes: &[u8]) -> Result<Dumped, Result<ToolAnswer, AllocError>>
    ensures read { IfOk result (λ dumped. reads_dump bytes.now ≡ Ok (dump_of dumped)) }
    ensures not { IfErr result (λ r. IfOk r (λ answer. (answer.end ≡ ToolEnd.Image) × IsNoDump bytes.now answer.text)) }
{
    match read_dump(alloc, bytes) {
        Ok(dumped) => Ok(dumped),
        Err(why) => Err(no_dump(alloc, why)),
    }
}

// The dump that a disk holds; or the answer where it holds none. The disk is only read.
fn text_on<D: Disk>(alloc: Global, disk: D) -> (D, Result<Dumped, Result<ToolAnswer, AllocError>>)
    ensures only { OnlyRead D.Disk disk result.0 }
    ensures read { IfOk result.1 (λ dumped. D.tells → reads_dump (D.content disk) ≡ Ok (dump_of dumped)) }
    ensures not { IfErr result.1 (λ r. IfOk r (λ answer. IsAnswer D.tells (λ text. ⊥) (IsNoDump (D.content disk)) (Rose (D.faults disk) (D.faults result.0)) answer.end answer.text)) }
{
    let mut disk = disk;
    match bytes_on(alloc, &mut disk) {
        Ok(bytes) => (disk, dump_in(alloc, &bytes)),
        Err(answer) => (disk, Err(answer)),
    }
}

// Gives a disk back, and then the dump that it held, or the answer of a fault.
fn give_text_back<H: Host>(
    alloc: Global,
    host: &mut H,
    path: &str,
    disk: H::D,
    dumped: Dumped,
) -> Result<Dumped, Result<ToolAnswer, AllocError>>
    ensures same { IfOk result (λ d. d ≡ dumped) }
    ensures back { IsOk result → H.tells → GivenBack (of_host H.Host host.old host.new) path.now (H.D.content disk) (H.D.moment disk) (H.D.since disk) }
    ensures returned { H.tells → IsReturned (of_host H.Host host.old host.new) path.now (H.D.content disk) (H.D.since disk 0) }
    ensures failed { IfErr result (λ r. Rose (H.own_faults host.old) (H.own_faults host.new) × IfOk r (λ a. (a.end ≡ ToolEnd.Host) × (a.text ≡ status_text end.Host))) }
    ensures own_later { H.own_faults host.old ≤ H.own_faults host.new }
    ensures later { RoseBy (H.D.faults disk) (H.faults host.old) (H.faults host.new) }
{
    match host.give_back(path, disk) {
        Ok(()) => Ok(dumped),
        Err(_) => Err(host_answer(alloc)),
    }
}

// The dump at a path of a host; or the answer where there is none.
fn text_at<H: Host>(
    alloc: Global,
    host: &mut H,
    path: &str,
) -> Result<Dumped, Result<ToolAnswer, AllocError>>
    ensures read { IfOk result (λ dumped. H.tells → IsDumpAt (dump_of dumped) (H.image host.old path.now)) }
    ensures not { IfErr result (λ r. IfOk r (λ answer. IsAnswer H.tells (λ text. ⊥) (IsOfImage IsNoDump (H.image host.old path.now)) (HostFailed (of_host H.Host host.old host.new)) answer.end answer.text)) }
    ensures stays { H.tells → LeavesText (of_host H.Host host.old host.new) path.now }
    ensures later { FaultsLater (of_host H.Host host.old host.new) }
{
    let disk = match host.fetch(path) {
        Ok(disk) => disk,
        Err(HostStop::Failed) => return Err(host_answer(alloc)),
        Err(HostStop::NoMemory) => return Err(Err(AllocError)),
    };
    let (disk, read) = text_on(alloc, disk);
    match read {
        Ok(dumped) => give_text_back(alloc, host, path, disk, dumped),
        Err(answer) => Err(give_back(alloc, host, path, disk, answer)),
    }
}

// The answer where an image was made, or not.
fn lay_answer(
    alloc: Global,
    laid: Result<(), LayStop>,
    rows: usize,
) -> Result<ToolAnswer, AllocError>
    ensures done { IsOk laid → IfOk result (λ answer. (answer.end ≡ ToolEnd.Done) × (answer.text ≡ loaded_line rows)) }
    ensures fault { IsErrOf laid LayStop.DiskFault → IfOk result (λ answer. (answer.end ≡ ToolEnd.Host) × (answer.text ≡ status_text end.Host)) }
    ensures memory { IsErrOf laid LayStop.NoMemory → IfOk result (λ answer. ⊥) }
{
    match laid {
        Ok(()) => {
            let line = loaded_line(alloc, rows)?;
            Ok(done(line))
        }
        Err(LayStop::DiskFault) => host_answer(alloc),
        Err(LayStop::NoMemory) => Err(AllocError),
    }
}

// Makes a disk an image that stands for a dump.
fn lay_disk<D: Disk>(alloc: Global, disk: D, dumped: &Dumped) -> (D, Result<ToolAnswer, AllocError>)
    requires { image_size dumped.now.geometry ≤ D.size disk }
    ensures answer { IfOk result.1 (λ answer. IsAnswer D.tells (IsLaid (dump_of dumped.now) (D.content result.0)) (λ text. ⊥) (Rose (D.faults disk) (D.faults result.0)) answer.end answer.text) }
{
    let (disk, laid) = lay(alloc, dumped, disk);
    (disk, lay_answer(alloc, laid, dumped.rows.len()))
}

// Makes the image at a path of a host anew, so that it stands for a dump. It is made beside what stands there, and takes its
// place at the end.
fn lay_at<H: Host>(
    alloc: Global,
    host: &mut H,
    path: &str,
    dumped: &Dumped,
) -> Result<ToolAnswer, AllocError>
    ensures answer { IfOk result (λ answer. IsAnswer H.tells (IsOfImage (IsLaid (dump_of dumped.now)) (H.image host.new path.now)) (λ text. ⊥) (HostFailed (of_host H.Host host.old host.new)) answer.end answer.text) }
    ensures others { H.tells → OthersAsBefore (of_host H.Host host.old host.new) path.now }
    ensures made { H.tells → LeavesMade (of_host H.Host host.old host.new) path.now (StandsAs (dump_of dumped.now).geometry (dump_of dumped.now).map) (IsUnmade result) }
{
    let disk = match host.make(path, dumped.geometry.image_size()) {
        Ok(disk) => disk,
        Err(HostStop::Failed) => return host_answer(alloc),
        Err(HostStop::NoMemory) => return Err(AllocError),
    };
    let (disk, answer) = lay_disk(alloc, disk, dumped);
    end_making(alloc, host, path, disk, answer)
}

/// Makes the image at a path of a host anew from the text at another. A text that is no dump leaves each image as it was; and
/// where no image is made from one that is, the old one stays.
pub fn load_at<H: Host>(
    alloc: Global,
    host: &mut H,
    image: &str,
    text: &str,
) -> Result<ToolAnswer, AllocError>
    ensures answer { IfOk result (λ answer. IsAnswer H.tells (IsLoaded (H.image host.old text.now) (H.image host.new image.now)) (IsOfImage IsNoDump (H.image host.old text.now)) (HostFailed (of_host H.Host host.old host.new)) answer.end answer.text) }
    ensures others { H.tells → (path : Text) → path ≢ image.now → path ≢ text.now → AsBefore (of_host H.Host host.old host.new) path }
    ensures reads { H.tells → text.now ≢ image.now → ImageStays (of_host H.Host host.old host.new) text.now }
    ensures refused { IfOk result (λ answer. answer.end ≡ ToolEnd.Image → H.tells → (path : Text) → ImageStays (of_host H.Host host.old host.new) path) }
    ensures made { H.tells → LeavesMade (of_host H.Host host.old host.new) image.now (StandsForText (H.image host.old text.now)) (IsUnmade result) }
{
    match text_at(alloc, host, text) {
        Ok(dumped) => lay_at(alloc, host, image, &dumped),
        Err(answer) => answer,
    }
}
