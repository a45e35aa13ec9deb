//! The superblock of an image.

ghost use Rattle.std.specs.Prelude.{◌≡◌, ◌⊎◌, ◌+◌, ◌^◌, ◌<◌, ◌≤◌, ◌&&◌, true, length, take, drop, Ok, Err, IfOk, IfErr, OnErr, IsErrOf};
ghost use Rattle.opfs_base.specs.Texts.{same_text};
ghost use Rattle.opfs_outside.specs.Faults.{Rose};
ghost use Rattle.opfs_outside.specs.Bytes.{window};
ghost use Rattle.opfs_journal.specs.Format.{number_at};
ghost use Rattle.opfs_journal.specs.Walking.{OnlyRead};
ghost use Rattle.opfs_image.specs.Superblock.{has_magic, has_version, geometry_in, geometry_by, geometry_of, is_in_range, is_between, image_size, areas_of, data_base};

use crate::{Geometry, ImageRefusal};
use opfs_base::BLOCK_SIZE;
use opfs_journal::Areas;
use opfs_outside::{Disk, Failed};

/// What an image begins with.
pub const MAGIC: [u8; 8] = *b"OPFSIMG1";

// The number of 4 bytes there, the lowest first.
fn number(head: &[u8; 24], at: usize) -> u32
    requires { at + 4 ≤ 24 }
    ensures { result ≡ number_at head.now at }
{
    u32::from_le_bytes([head[at], head[at + 1], head[at + 2], head[at + 3]])
}

fn is_between(least: u32, most: u32, n: u32) -> bool
    ensures { result ≡ is_between least most n }
{
    least <= n && n <= most
}

impl Geometry {
    /// Whether each number is in its range.
    pub fn is_in_range(self) -> bool
        ensures { result ≡ is_in_range self }
    {
        is_between(1, 4096, self.areas)
            && is_between(1, 65536, self.blocks)
            && is_between(1, 65536, self.quota)
    }

    /// The least number of bytes of such an image.
    pub fn image_size(self) -> u64
        ensures { result ≡ image_size self }
    {
        BLOCK_SIZE * (1 + 2 * u64::from(self.areas) + u64::from(self.blocks))
    }

    /// Where the areas of the journal lie.
    pub fn journal_areas(self) -> Areas
        ensures { result ≡ areas_of self }
    {
        Areas {
            first: BLOCK_SIZE,
            bytes: BLOCK_SIZE * u64::from(self.areas),
        }
    }

    /// The byte where the first data block begins.
    pub fn data_base(self) -> u64
        ensures same { result ≡ data_base self }
        ensures small { result < 2 ^ 63 }
    {
        BLOCK_SIZE * (1 + 2 * u64::from(self.areas))
    }
}

fn has_magic(head: &[u8; 24]) -> bool
    ensures { result ≡ has_magic head.now }
{
    head[..8] == MAGIC[..]
}

fn has_version(head: &[u8; 24]) -> bool
    ensures { result ≡ has_version head.now }
{
    let version = number(head, 8);
    version == 1 || version == 2
}

// The geometry that a superblock gives an image of this length.
fn judge(head: &[u8; 24], len: u64) -> Result<Geometry, ImageRefusal>
    ensures judged { result ≡ geometry_by head.now len }
    ensures range { IfOk result (λ g. is_in_range g ≡ true) }
    ensures fits { IfOk result (λ g. image_size g ≤ len) }
{
    if !has_magic(head) {
        return Err(ImageRefusal::Magic);
    }
    let geometry = Geometry {
        areas: number(head, 12),
        blocks: number(head, 16),
        quota: number(head, 20),
    };
    if !has_version(head) || !geometry.is_in_range() {
        return Err(ImageRefusal::Geometry);
    }
    if len < geometry.image_size() {
        return Err(ImageRefusal::Short);
    }
    Ok(geometry)
}

fn read_head<D: Disk>(disk: &mut D) -> Result<[u8; 24], Failed>
    requires { 4096 ≤ D.size disk.old }
    ensures only { OnlyRead D.Disk disk.old disk.new }
    ensures bytes { IfOk result (λ head. D.tells → head ≡ window (D.content disk.old) 0 24) }
    ensures cause { OnErr result (Rose (D.faults disk.old) (D.faults disk.new)) }
{
    let mut head = [0; 24];
    disk.read(0, &mut head)?;
    Ok(head)
}

/// Reads the geometry from an image's superblock.
pub fn read_geometry<D: Disk>(disk: &mut D) -> Result<Geometry, ImageRefusal>
    ensures only { OnlyRead D.Disk disk.old disk.new }
    ensures range { IfOk result (λ g. is_in_range g ≡ true) }
    ensures fits { IfOk result (λ g. image_size g ≤ D.size disk.old) }
    ensures geometry { IfOk result (λ g. D.tells → geometry_of (D.content disk.old) ≡ Ok g) }
    ensures refused { IfErr result (λ e. (e ≡ ImageRefusal.DiskFault) ⊎ (D.tells → geometry_of (D.content disk.old) ≡ Err e)) }
    ensures cause { IsErrOf result ImageRefusal.DiskFault → Rose (D.faults disk.old) (D.faults disk.new) }
{
    let len = disk.len();
    if len < BLOCK_SIZE {
        return Err(ImageRefusal::Short);
    }
    let head = read_head(disk)?;
    judge(&head, len)
}
