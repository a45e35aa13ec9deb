//! A host of disks, by path.

ghost use Rattle.std.specs.Prelude.{◌≡◌, ◌≢◌, ◌⊎◌, ◌↔◌, ◌+◌, ◌-◌, ◌^◌, ◌<◌, ◌≤◌, ℕ, List, Option, replicate, IfOk, OnOk, OnErr, IsErrOf};
ghost use Rattle.opfs_outside.specs.Faults.{Rose, RoseBy};

use crate::{Disk, Failed};
use thiserror::Error;

/// Why a host gave no disk.
#[derive(Clone, Copy, Debug, PartialEq, Eq, Error)]
pub enum HostStop {
    /// The host failed: its own count has risen.
    #[error("the host failed")]
    Failed,
    /// No memory was found.
    #[error("out of memory")]
    NoMemory,
}

/// Disks by path. It counts its own faults, and beside them all faults, which also has those of the disks that came
/// back to it.
///
/// An image is changed where it stands, as a disk that is fetched and given back; or a new one is made beside its path, as a
/// disk of another type, and takes its place whole and at once, or is discarded.
pub trait Host {
    /// A disk that stands at a path.
    type D: Disk + Send;

    /// A disk that is made beside a path.
    type Made: Disk;

    /// Whether it tells its images and trails. It is no function of the value.
    ghost tells: { Type 0 };

    /// The image at a path.
    ghost image: { Self → List ℕ → Option (List ℕ) };

    /// The images that a stop may have left at a path since the host was made, beside those that stood there.
    ghost trail: { Self → List ℕ → List ℕ → Type 0 };

    /// How many moments the disk had that came back last for a path.
    ghost moment: { Self → List ℕ → ℕ };

    /// The images that a stop may have left at a path from that moment of that disk on.
    ghost since: { Self → List ℕ → ℕ → List ℕ → Type 0 };

    /// How often it or a disk that came back has failed.
    ghost faults: { Self → ℕ };

    /// How often it has failed itself.
    ghost own_faults: { Self → ℕ };

    /// The disk that stands at a path.
    fn fetch(&mut self, path: &str) -> Result<Self::D, HostStop>
        ensures fresh { IfOk result (λ disk. Self.D.faults disk ≡ 0) }
        ensures first { IfOk result (λ disk. Self.D.moment disk ≡ 0) }
        ensures one_image { IfOk result (λ disk. Self.D.tells → (c : List ℕ) → Self.D.since disk 0 c → c ≡ Self.D.content disk) }
        ensures content { IfOk result (λ disk. tells → image self.new path.now ≡ Some (Self.D.content disk)) }
        ensures images_stay { tells → (p : List ℕ) → image self.new p ≡ image self.old p }
        ensures trails_stay { tells → (p c : List ℕ) → trail self.new p c ↔ trail self.old p c }
        ensures own_later { own_faults self.old ≤ own_faults self.new }
        ensures later { RoseBy (own_faults self.new - own_faults self.old) (faults self.old) (faults self.new) }
        ensures cause { IsErrOf result HostStop.Failed → Rose (own_faults self.old) (own_faults self.new) };

    /// Takes back a disk that was fetched: its content is the image at the path. Takes no memory.
    fn give_back(&mut self, path: &str, disk: Self::D) -> Result<(), Failed>
        ensures content { OnOk result (tells → image self.new path.now ≡ Some (Self.D.content disk)) }
        ensures old_or_new { tells → (image self.new path.now ≡ image self.old path.now) ⊎ (image self.new path.now ≡ Some (Self.D.content disk)) }
        ensures trail { OnOk result (tells → (c : List ℕ) → trail self.new path.now c ↔ (trail self.old path.now c ⊎ Self.D.since disk 0 c)) }
        ensures left { tells → (c : List ℕ) → trail self.new path.now c → trail self.old path.now c ⊎ Self.D.since disk 0 c }
        ensures moment { OnOk result (tells → moment self.new path.now ≡ Self.D.moment disk) }
        ensures since { OnOk result (tells → (t : ℕ) (c : List ℕ) → since self.new path.now t c ↔ Self.D.since disk t c) }
        ensures other_images { tells → (p : List ℕ) → p ≢ path.now → image self.new p ≡ image self.old p }
        ensures other_trails { tells → (p c : List ℕ) → p ≢ path.now → trail self.new p c ↔ trail self.old p c }
        ensures own_later { own_faults self.old ≤ own_faults self.new }
        ensures later { RoseBy (Self.D.faults disk + (own_faults self.new - own_faults self.old)) (faults self.old) (faults self.new) }
        ensures cause { OnErr result (Rose (own_faults self.old) (own_faults self.new)) };

    /// A new disk of so many zeros, beside a path. What stands there stays.
    fn make(&mut self, path: &str, size: u64) -> Result<Self::Made, HostStop>
        ensures fresh { IfOk result (λ disk. Self.Made.faults disk ≡ 0) }
        ensures size { IfOk result (λ disk. Self.Made.size disk ≡ size) }
        ensures zeros { IfOk result (λ disk. Self.Made.tells → Self.Made.content disk ≡ replicate size 0) }
        ensures images_stay { tells → (p : List ℕ) → image self.new p ≡ image self.old p }
        ensures trails_stay { tells → (p c : List ℕ) → trail self.new p c ↔ trail self.old p c }
        ensures own_later { own_faults self.old ≤ own_faults self.new }
        ensures later { RoseBy (own_faults self.new - own_faults self.old) (faults self.old) (faults self.new) }
        ensures cause { IsErrOf result HostStop.Failed → Rose (own_faults self.old) (own_faults self.new) };

    /// Puts a disk that was made into the place of what stands at the path. However it ends, and where it is stopped, the one or
    /// the other stands there whole. Takes no memory.
    fn replace(&mut self, path: &str, disk: Self::Made) -> Result<(), Failed>
        ensures content { OnOk result (tells → image self.new path.now ≡ Some (Self.Made.content disk)) }
        ensures old_or_new { tells → (image self.new path.now ≡ image self.old path.now) ⊎ (image self.new path.now ≡ Some (Self.Made.content disk)) }
        ensures trail { tells → (c : List ℕ) → trail self.new path.now c → trail self.old path.now c ⊎ (image self.old path.now ≡ Some c) ⊎ (c ≡ Self.Made.content disk) }
        ensures since { OnOk result (tells → (t : ℕ) (c : List ℕ) → since self.new path.now t c → c ≡ Self.Made.content disk) }
        ensures other_images { tells → (p : List ℕ) → p ≢ path.now → image self.new p ≡ image self.old p }
        ensures other_trails { tells → (p c : List ℕ) → p ≢ path.now → trail self.new p c ↔ trail self.old p c }
        ensures own_later { own_faults self.old ≤ own_faults self.new }
        ensures later { RoseBy (Self.Made.faults disk + (own_faults self.new - own_faults self.old)) (faults self.old) (faults self.new) }
        ensures cause { OnErr result (Rose (own_faults self.old) (own_faults self.new)) };

    /// Throws a disk away that was made. What stands at each path stays.
    fn discard(&mut self, path: &str, disk: Self::Made)
        ensures images_stay { tells → (p : List ℕ) → image self.new p ≡ image self.old p }
        ensures trails_stay { tells → (p c : List ℕ) → trail self.new p c ↔ trail self.old p c }
        ensures own_later { own_faults self.old ≤ own_faults self.new }
        ensures later { RoseBy (Self.Made.faults disk + (own_faults self.new - own_faults self.old)) (faults self.old) (faults self.new) };

    /// The counts are those of a `u64`.
    ghost counted: { (host : Self) → faults host ≤ 2 ^ 64 - 1 };

    ghost own_counted: { (host : Self) → own_faults host ≤ 2 ^ 64 - 1 };

    /// Where the host tells, each disk of it tells too.
    ghost disk_tells: { tells → Self.D.tells };

    ghost disk_crashes: { tells → Self.D.crashes };

    ghost made_tells: { tells → Self.Made.tells };
}
