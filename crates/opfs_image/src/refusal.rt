//! Why an image is refused.
ghost use Rattle.std.specs.Prelude.{◌≡◌};
ghost use Rattle.opfs_image.specs.declared.refusal.ImageRefusal.TheVariants.{DiskFault as Fault, NoMemory as NoRoomLeft};
ghost use Rattle.opfs_image.specs.Answers.{refused_first};

use opfs_journal::OpenRefusal;
use opfs_outside::Failed;
use std::alloc::AllocError;
use thiserror::Error;

/// Why an image is refused, as one of format 2 or, where it is to be migrated, as one of format 1. Places are bytes of the
/// image.
#[derive(Clone, Copy, Debug, PartialEq, Eq, Error)]
pub enum ImageRefusal {
    /// It has fewer bytes than a superblock, or than its superblock says.
    #[error("the image is short")]
    Short,
    /// It doesn't begin with `OPFSIMG1`.
    #[error("the file is no image")]
    Magic,
    /// Its version is unknown, or a number of its superblock is out of range.
    #[error("the image has an unknown version or size")]
    Geometry,
    /// Neither area's first gate is open.
    #[error("no area begins with an open gate")]
    NoArea,
    /// The gate at this place is open, and its record is none.
    #[error("a bad record at byte {0}")]
    BadRecord(u64),
    /// The area that rules is of format 1, and format 2 was asked for.
    #[error("the image is of format 1")]
    Old,
    /// The area that rules is of format 2, and format 1 was asked for.
    #[error("the image is of format 2")]
    NotOld,
    /// What it holds has this charge in format 2, which with a record's 7 bytes passes the bytes of an area.
    #[error("a charge of {0} passes an area of {1} bytes")]
    Overfull(u64, u64),
    /// The disk failed: its count has risen.
    #[error("the disk failed")]
    DiskFault,
    /// No memory was found.
    #[error("out of memory")]
    NoMemory,
}

impl From<Failed> for ImageRefusal {
    ghost from_gives = { λ _ refusal. refusal ≡ Fault };

    fn from(_failed: Failed) -> ImageRefusal {
        ImageRefusal::DiskFault
    }
}

impl From<AllocError> for ImageRefusal {
    ghost from_gives = { λ _ refusal. refusal ≡ NoRoomLeft };

    fn from(_error: AllocError) -> ImageRefusal {
        ImageRefusal::NoMemory
    }
}

impl From<OpenRefusal> for ImageRefusal {
    ghost from_gives = { λ first refusal. refusal ≡ refused_first first };

    fn from(refusal: OpenRefusal) -> ImageRefusal {
        match refusal {
            OpenRefusal::NoArea => ImageRefusal::NoArea,
            OpenRefusal::BadRecord(place) => ImageRefusal::BadRecord(place),
            OpenRefusal::DiskFault => ImageRefusal::DiskFault,
            OpenRefusal::NoMemory => ImageRefusal::NoMemory,
        }
    }
}
