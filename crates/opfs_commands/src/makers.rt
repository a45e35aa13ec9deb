//! Commands that write the disk of an image.
ghost use Rattle.std.specs.Prelude.{◌≡◌, ◌≢◌, ◌⊎◌, ◌≤◌, ◌++◌, [], ℕ, List, Some, None, true, Result, string_bytes, Ok, Err, IfOk, IfErr, OnOk, OnErr};
ghost use Rattle.opfs_journal.specs.Walking.{OnlyRead};
ghost use Rattle.opfs_outside.specs.Faults.{Rose};
ghost use Rattle.opfs_machine.specs.Openings.{Map};
ghost use Rattle.opfs_migrate.specs.Migrating.{StandsEither};
ghost use Rattle.opfs_image.specs.Filling.{StandsOld};
ghost use Rattle.opfs_image.specs.Superblock.{image_size, is_in_range};
ghost use Rattle.opfs_commands.specs.Telling.{formatted_line, migrated_line, IsFormatted, IsMigratedText, IsNotMigrated, IsAnswer};

use crate::answers::{ToolAnswer, ToolEnd, host_answer, refused_answer};
use opfs_base::Bytes;
use opfs_image::{Geometry, format};
use opfs_migrate::migrate;
use opfs_outside::Disk;
use std::alloc::{AllocError, Global};

/// An answer that all was done, with a text.
pub(crate) fn done(text: String) -> ToolAnswer
    ensures end { result.end ≡ ToolEnd.Done }
    ensures text { result.text ≡ string_bytes text }
{
    ToolAnswer {
        end: ToolEnd::Done,
        text: Bytes::from_vec(text.into_bytes()),
    }
}

// The line of an image that was made.
fn formatted(alloc: Global, geometry: Geometry) -> Result<ToolAnswer, AllocError>
    ensures end { IfOk result (λ answer. answer.end ≡ ToolEnd.Done) }
    ensures text { IfOk result (λ answer. answer.text ≡ formatted_line geometry) }
{
    let (blocks, areas, quota) = (geometry.blocks, geometry.areas, geometry.quota);
    let text = format!(in alloc; "formatted {blocks} {areas} {quota}\n")?;
    Ok(done(text))
}

/// Makes a disk an image of these sizes that holds nothing.
pub fn format_disk<D: Disk>(
    alloc: Global,
    disk: D,
    geometry: Geometry,
) -> (D, Result<ToolAnswer, AllocError>)
    requires range { is_in_range geometry ≡ true }
    requires fits { image_size geometry ≤ D.size disk }
    ensures answer { IfOk result.1 (λ answer. IsAnswer D.tells (IsFormatted geometry (D.content result.0)) (λ text. ⊥) (Rose (D.faults disk) (D.faults result.0)) answer.end answer.text) }
{
    let mut disk = disk;
    match format(&mut disk, geometry) {
        Ok(()) => (disk, formatted(alloc, geometry)),
        Err(_) => (disk, host_answer(alloc)),
    }
}

// The line of an image that was migrated.
fn migrated(alloc: Global, files: u64) -> Result<ToolAnswer, AllocError>
    ensures end { IfOk result (λ answer. answer.end ≡ ToolEnd.Done) }
    ensures text { IfOk result (λ answer. answer.text ≡ migrated_line files) }
{
    let text = format!(in alloc; "migrated {files}\n")?;
    Ok(done(text))
}

/// Brings the image on a disk from format 1 into format 2. Where it is refused the disk is only read.
pub fn migrate_disk<D: Disk>(alloc: Global, disk: D) -> (D, Result<ToolAnswer, AllocError>)
    ensures answer { IfOk result.1 (λ answer. IsAnswer D.tells (IsMigratedText (D.content disk) (D.content result.0)) (IsNotMigrated (D.content disk)) (Rose (D.faults disk) (D.faults result.0)) answer.end answer.text) }
    ensures refused { IfOk result.1 (λ answer. answer.end ≡ ToolEnd.Image → OnlyRead D.Disk disk result.0) }
    ensures moments { D.tells → (m : Map) → StandsOld (D.content disk) m → (c : List ℕ) → D.since result.0 (D.moment disk) c → D.since disk (D.moment disk) c ⊎ StandsEither m c }
{
    match migrate(alloc, disk) {
        Ok((disk, files)) => (disk, migrated(alloc, files)),
        Err((disk, refusal)) => (disk, refused_answer(alloc, refusal)),
    }
}
