//! What was read of a text.

ghost use Rattle.std.specs.Prelude.{◌≡◌, ◌+◌, ◌≤◌, [], true, map};
ghost use Rattle.opfs_dump.specs.Text.Limits.{are_units, blocks_needed, charge_of_map, may_all_follow};
ghost use Rattle.opfs_dump.specs.Text.Seen.{map_of, row_of};
ghost use Rattle.opfs_image.specs.Superblock.{area_bytes, is_in_range};

use opfs_base::{Bytes, Key};
use opfs_image::Geometry;
use opfs_machine::Place;

/// A file's bytes and its time stamp in milliseconds.
#[derive(Drop)]
pub struct DumpedFile {
    pub bytes: Bytes,
    pub stamp: u64,
}

/// A row: a directory, or a file.
#[derive(Drop)]
pub struct DumpedRow {
    pub place: Place,
    pub file: Option<DumpedFile>,
}

/// The sizes of an image, its rows in the order of their places, and its persistent units in order. The sizes are in range,
/// each row may follow those before it, there are blocks enough for the files, and the charge, with a record's 7 bytes, fits
/// an area.
#[derive(Drop)]
pub struct Dumped {
    pub geometry: Geometry,
    pub rows: Vec<DumpedRow>,
    pub persistent: Vec<Key>,
    pub ghost range: { is_in_range geometry ≡ true },
    pub ghost order: { may_all_follow [] (map row_of rows.items) ≡ true },
    pub ghost units: { are_units persistent.items ≡ true },
    pub ghost few: { blocks_needed (map row_of rows.items) ≤ geometry.blocks },
    pub ghost room: { charge_of_map (map_of rows.items persistent.items) + 7 ≤ area_bytes geometry },
}
