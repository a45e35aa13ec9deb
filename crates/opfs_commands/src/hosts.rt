//! Commands on the image at a path of a host.
ghost use Rattle.std.specs.Prelude.{◌≡◌, ◌≢◌, ◌⊎◌, ◌+◌, ◌-◌, ◌≤◌, ℕ, true, List, Some, None, Ok, Err, IfOk, OnOk, OnErr};
ghost use Rattle.opfs_base.specs.Texts.{Text};
ghost use Rattle.opfs_outside.specs.Faults.{Rose, RoseBy};
ghost use Rattle.opfs_print.specs.Status.{status_text};
ghost use Rattle.opfs_print.specs.declared.end.End.TheVariants as end;
ghost use Rattle.opfs_dump.specs.Loading.Laid.{StandsAs};
ghost use Rattle.opfs_machine.specs.Openings.{Map, empty_map};
ghost use Rattle.opfs_migrate.specs.Migrating.{StandsEither};
ghost use Rattle.opfs_image.specs.Superblock.{is_in_range};
ghost use Rattle.opfs_outside.specs.Turns.{of_host, AsBefore, GivenBack, HostFailed, HostServed, ImageStays, IsOldOrNew, IsReturned, OthersAsBefore};
ghost use Rattle.opfs_commands.specs.Kinds.{IsDoneBy, IsUnmade, LeavesMade};
ghost use Rattle.opfs_commands.specs.Telling.{IsTold, IsRefusedLine, IsOfImage, IsFormatted, IsMigrated, IsNotMigrated, IsStoodFor, IsAnswer};

use crate::answers::{ReadTool, ToolAnswer, ToolEnd, host_answer};
use crate::disks::read_disk;
use crate::makers::{format_disk, migrate_disk};
use opfs_image::Geometry;
use opfs_outside::{Host, HostStop};
use std::alloc::{AllocError, Global};

/// Gives a disk back, and then the answer, or that of a fault.
pub(crate) fn give_back<H: Host>(
    alloc: Global,
    host: &mut H,
    path: &str,
    disk: H::D,
    answer: Result<ToolAnswer, AllocError>,
) -> Result<ToolAnswer, AllocError>
    ensures kept { IfOk result (λ a. ((answer ≡ Ok a) × (H.tells → GivenBack (of_host H.Host host.old host.new) path.now (H.D.content disk) (H.D.moment disk) (H.D.since disk))) ⊎ (Rose (H.own_faults host.old) (H.own_faults host.new) × (a.end ≡ ToolEnd.Host) × (a.text ≡ status_text end.Host))) }
    ensures back { H.tells → HostServed (of_host H.Host host.old host.new) → GivenBack (of_host H.Host host.old host.new) path.now (H.D.content disk) (H.D.moment disk) (H.D.since disk) }
    ensures returned { H.tells → IsReturned (of_host H.Host host.old host.new) path.now (H.D.content disk) (H.D.since disk 0) }
    ensures own_later { H.own_faults host.old ≤ H.own_faults host.new }
    ensures later { RoseBy (H.D.faults disk) (H.faults host.old) (H.faults host.new) }
{
    let back = host.give_back(path, disk);
    let answer = answer?;
    match back {
        Ok(()) => Ok(answer),
        Err(_) => host_answer(alloc),
    }
}

// Puts a disk that was made into its place where all was done, and else throws it away; and then gives the answer, or that of a
// fault.
fn end_answered<H: Host>(
    alloc: Global,
    host: &mut H,
    path: &str,
    disk: H::Made,
    answer: ToolAnswer,
) -> Result<ToolAnswer, AllocError>
    ensures kept { IfOk result (λ a. ((a ≡ answer) × (answer.end ≡ ToolEnd.Done → H.tells → H.image host.new path.now ≡ Some (H.Made.content disk))) ⊎ (Rose (H.own_faults host.old) (H.own_faults host.new) × (a.end ≡ ToolEnd.Host) × (a.text ≡ status_text end.Host))) }
    ensures whole { H.tells → IsOldOrNew (of_host H.Host host.old host.new) path.now (λ c. (answer.end ≡ ToolEnd.Done) × (c ≡ H.Made.content disk)) }
    ensures unmade { H.tells → HostServed (of_host H.Host host.old host.new) → IsUnmade result → AsBefore (of_host H.Host host.old host.new) path.now }
    ensures others { H.tells → OthersAsBefore (of_host H.Host host.old host.new) path.now }
    ensures own_later { H.own_faults host.old ≤ H.own_faults host.new }
    ensures later { RoseBy (H.Made.faults disk) (H.faults host.old) (H.faults host.new) }
{
    if answer.end != ToolEnd::Done {
        host.discard(path, disk);
        return Ok(answer);
    }
    match host.replace(path, disk) {
        Ok(()) => Ok(answer),
        Err(_) => host_answer(alloc),
    }
}

/// The same, also for want of memory.
pub(crate) fn end_making<H: Host>(
    alloc: Global,
    host: &mut H,
    path: &str,
    disk: H::Made,
    answer: Result<ToolAnswer, AllocError>,
) -> Result<ToolAnswer, AllocError>
    ensures kept { IfOk result (λ a. ((answer ≡ Ok a) × (a.end ≡ ToolEnd.Done → H.tells → H.image host.new path.now ≡ Some (H.Made.content disk))) ⊎ (Rose (H.own_faults host.old) (H.own_faults host.new) × (a.end ≡ ToolEnd.Host) × (a.text ≡ status_text end.Host))) }
    ensures whole { H.tells → IsOldOrNew (of_host H.Host host.old host.new) path.now (λ c. IsDoneBy answer × (c ≡ H.Made.content disk)) }
    ensures unmade { H.tells → HostServed (of_host H.Host host.old host.new) → IsUnmade result → AsBefore (of_host H.Host host.old host.new) path.now }
    ensures others { H.tells → OthersAsBefore (of_host H.Host host.old host.new) path.now }
    ensures own_later { H.own_faults host.old ≤ H.own_faults host.new }
    ensures later { RoseBy (H.Made.faults disk) (H.faults host.old) (H.faults host.new) }
{
    match answer {
        Ok(answer) => end_answered(alloc, host, path, disk, answer),
        Err(error) => {
            host.discard(path, disk);
            Err(error)
        }
    }
}

/// Lets a tool tell the image at a path of a host.
pub fn read_at<H: Host>(
    alloc: Global,
    host: &mut H,
    path: &str,
    tool: ReadTool,
) -> Result<ToolAnswer, AllocError>
    ensures answer { IfOk result (λ answer. IsAnswer H.tells (IsOfImage (IsTold tool) (H.image host.old path.now)) (IsOfImage IsRefusedLine (H.image host.old path.now)) (HostFailed (of_host H.Host host.old host.new)) answer.end answer.text) }
    ensures others { H.tells → OthersAsBefore (of_host H.Host host.old host.new) path.now }
    ensures reads { H.tells → ImageStays (of_host H.Host host.old host.new) path.now }
{
    let disk = match host.fetch(path) {
        Ok(disk) => disk,
        Err(HostStop::Failed) => return host_answer(alloc),
        Err(HostStop::NoMemory) => return Err(AllocError),
    };
    let (disk, answer) = read_disk(alloc, disk, tool);
    give_back(alloc, host, path, disk, answer)
}

/// Makes the image at a path of a host anew, of these sizes, so that it holds nothing. It is made beside what stands there, and
/// takes its place at the end.
pub fn format_at<H: Host>(
    alloc: Global,
    host: &mut H,
    path: &str,
    geometry: Geometry,
) -> Result<ToolAnswer, AllocError>
    requires { is_in_range geometry ≡ true }
    ensures answer { IfOk result (λ answer. IsAnswer H.tells (IsOfImage (IsFormatted geometry) (H.image host.new path.now)) (λ text. ⊥) (HostFailed (of_host H.Host host.old host.new)) answer.end answer.text) }
    ensures others { H.tells → OthersAsBefore (of_host H.Host host.old host.new) path.now }
    ensures made { H.tells → LeavesMade (of_host H.Host host.old host.new) path.now (StandsAs geometry empty_map) (IsUnmade result) }
{
    let disk = match host.make(path, geometry.image_size()) {
        Ok(disk) => disk,
        Err(HostStop::Failed) => return host_answer(alloc),
        Err(HostStop::NoMemory) => return Err(AllocError),
    };
    let (disk, answer) = format_disk(alloc, disk, geometry);
    end_making(alloc, host, path, disk, answer)
}

/// Brings the image at a path of a host from format 1 into format 2. A stop leaves the old image or the new one.
pub fn migrate_at<H: Host>(
    alloc: Global,
    host: &mut H,
    path: &str,
) -> Result<ToolAnswer, AllocError>
    ensures answer { IfOk result (λ answer. IsAnswer H.tells (IsMigrated (H.image host.old path.now) (H.image host.new path.now)) (IsOfImage IsNotMigrated (H.image host.old path.now)) (HostFailed (of_host H.Host host.old host.new)) answer.end answer.text) }
    ensures others { H.tells → OthersAsBefore (of_host H.Host host.old host.new) path.now }
    ensures refused { IfOk result (λ answer. answer.end ≡ ToolEnd.Image → H.tells → ImageStays (of_host H.Host host.old host.new) path.now) }
    ensures trail { H.tells → (m : Map) → IsStoodFor m (H.image host.old path.now) → (c : Text) → H.trail host.new path.now c → H.trail host.old path.now c ⊎ StandsEither m c }
{
    let disk = match host.fetch(path) {
        Ok(disk) => disk,
        Err(HostStop::Failed) => return host_answer(alloc),
        Err(HostStop::NoMemory) => return Err(AllocError),
    };
    let (disk, answer) = migrate_disk(alloc, disk);
    give_back(alloc, host, path, disk, answer)
}
