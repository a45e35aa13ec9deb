//! Images of the store: what they stand for, and how they are read and made.
//!
//! It stands on `opfs_data` and `opfs_records`; on it stand `opfs_commit`, `opfs_migrate`, `opfs_tools` and
//! `opfs_examples`.
#![tactic(auto)]

mod formatting;
mod geometry;
mod laws;
mod reading;
mod records;
mod recovered;
mod recovering;
mod refusal;
mod superblock;

pub use formatting::format;
pub use geometry::Geometry;
pub use laws::{an_image_is_what_its_records_build, only_named_blocks_matter};
pub use reading::{ReadImage, read_image};
pub use recovered::Recovered;
pub use recovering::recover;
pub use refusal::ImageRefusal;
