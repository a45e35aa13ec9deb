//! Names, paths, keys, locators and lists of blocks: the words that the whole store shares.
//!
//! It stands on no other crate of this repository; on it stand `opfs_splice`, `opfs_hist`, `opfs_codec`, `opfs_data`,
//! `opfs_tree`, `opfs_shed`, `opfs_pool` and `opfs_blocks`.
#![tactic(auto)]

pub mod bytes;
pub mod data;
pub mod extents;
pub mod key;
pub mod locator;
pub mod measures;
pub mod name;
pub mod path;
pub mod places;
pub mod text;
pub mod words;

pub use bytes::Bytes;
pub use data::{Data, SharedBytes, Told};
pub use extents::{Extent, Extents};
pub use key::{Key, KeyRefusal, UnitRefusal, is_bucket_name, origin_of, same_origin};
pub use locator::{Kind, Locator, resolve, same};
pub use measures::{
    BLOCK_CHARGE, BLOCK_SIZE, blocks, directory_charge, file_charge, mode_charge, path_bytes,
    place_charge, plus, root_charge, times, unit_bytes,
};
pub use name::{Name, is_valid_name};
pub use path::Path;
pub use places::{
    Place, begins_with, child_name, child_of, compare_places, copy_key, copy_place, is_within,
    rest_below, unit_of,
};
pub use text::Text;
pub use words::Words;
