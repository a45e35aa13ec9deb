//! Whether rows and units have a spelling that is read.

ghost use Rattle.std.specs.Prelude.{◌≡◌, ◌↔◌, ◌<◌, ◌≤◌, ◌^◌, true, false, length, IsTrue};
ghost use Rattle.std.specs.List.{AllByRecursion};
ghost use Rattle.opfs_base.specs.Texts.{same_text};
ghost use Rattle.opfs_base.specs.Units.{is_bucket_name, default_bucket};
ghost use Rattle.opfs_codec.specs.Spelling.{IsText, IsKey, IsName, IsPath, IsExtent, AreExtents, is_key_text};
ghost use Rattle.opfs_codec.specs.declared.change.Format.TheVariants.{New};
ghost use Rattle.opfs_records.specs.Checkpoint.Contents.{as_file};
ghost use Rattle.opfs_records.specs.Checkpoint.Written.{IsWritablePlace, IsWritableFile, IsWritableRow, AreWritable};
ghost use Rattle.opfs_records.specs.Replay.Sums.{persistent_in};

use crate::checkpoint::content::FileContent;
use opfs_base::{Extent, Key, Name, Path, is_bucket_name, origin_of};
use opfs_shed::Shed;
use opfs_tree::{ReadyTree, Row, Walk};

/// Whether all rows of a tree and all persistent units of a shed have a spelling that is read. Those of an image have.
pub fn are_writable(tree: &ReadyTree, shed: &Shed) -> bool
    ensures { IsTrue result ↔ AreWritable tree.now.rows (persistent_in shed.now.buckets) }
{
    are_rows(tree) && are_units(shed)
}

// Whether all rows have.
fn are_rows(tree: &ReadyTree) -> bool
    ensures { IsTrue result ↔ AllByRecursion (λ e. IsWritableRow e.0 e.1) tree.now.rows }
{
    let mut walk = Walk::make();
    while let Some(row) = tree.step(&mut walk) {
        if !is_writable(walk.key(), walk.path(), row) {
            return false;
        }
    }
    true
}

// Whether all persistent units have.
fn are_units(shed: &Shed) -> bool
    ensures { IsTrue result ↔ AllByRecursion (IsKey New) (persistent_in shed.now.buckets) }
{
    let mut last = None;
    while let Some(unit) = shed.persistent_after(last) {
        if !is_key(unit) {
            return false;
        }
        last = Some(unit);
    }
    true
}

// Whether a unit has an origin of 1 to 255 bytes and a bucket's name, and is the unit of the two.
fn is_key(unit: &Key) -> bool
    ensures { IsTrue result ↔ IsKey New unit.now }
{
    let unit = unit.as_bytes();
    let end = origin_of(unit).len();
    if end == unit.len() {
        return is_origin(unit);
    }
    is_origin(&unit[..end]) && is_named_bucket(&unit[end + 1..])
}

// Whether a row has a spelling that is read.
fn is_writable(unit: &Key, path: &Path, row: &Row) -> bool
    ensures { IsTrue result ↔ IsWritableRow (unit.now, path.now) row.now }
{
    match row {
        Row::Dir => is_place(unit, path),
        Row::File(file) => is_file(unit, path, &FileContent::of(file)),
    }
}

// Whether bytes are a text of 1 to 255 bytes.
fn is_origin(bytes: &[u8]) -> bool
    ensures { IsTrue result ↔ IsText is_key_text bytes.now }
{
    match str::from_utf8(bytes) {
        Ok(text) => is_key_text(text),
        Err(_) => false,
    }
}

// Whether a text has 1 to 255 bytes.
fn is_key_text(text: &str) -> bool
    ensures { result ≡ is_key_text text.now }
{
    1 <= text.len() && text.len() <= 255
}

// Whether bytes are the name of a bucket that is not the default one.
fn is_named_bucket(bytes: &[u8]) -> bool
    ensures { IsTrue result ↔ (IsText is_bucket_name bytes.now × (same_text bytes.now default_bucket ≡ false)) }
{
    match str::from_utf8(bytes) {
        Ok(text) => is_bucket_name(text) && text != "default",
        Err(_) => false,
    }
}

// Whether a place has a spelling that is read.
fn is_place(unit: &Key, path: &Path) -> bool
    ensures { IsTrue result ↔ IsWritablePlace (unit.now, path.now) }
{
    let names = path.names();
    is_key(unit) && names.len() <= 32 && are_names(names)
}

// Whether all names are short enough.
fn are_names(names: &[Name]) -> bool
    ensures { IsTrue result ↔ AllByRecursion IsName names.now }
{
    for name in names {
        if !is_name(name) {
            return false;
        }
    }
    true
}

// Whether a name is short enough.
fn is_name(name: &Name) -> bool
    ensures { IsTrue result ↔ IsName name.now }
{
    name.as_str().len() <= 255
}

// Whether a file can stand at a place.
fn is_file(unit: &Key, path: &Path, file: &FileContent<'_>) -> bool
    ensures { IsTrue result ↔ (IsWritablePlace (unit.now, path.now) × IsWritableFile path.now (as_file file.now)) }
{
    is_place(unit, path) && is_content(path, file)
}

// Whether a file is no root, and has few enough extents. Its stamp and length are words of 64 bits, as their types say.
fn is_content(path: &Path, file: &FileContent<'_>) -> bool
    ensures { IsTrue result ↔ IsWritableFile path.now (as_file file.now) }
{
    let _stamp = file.stamp;
    let _length = file.length;
    !path.names().is_empty() && are_extents(file.extents.as_slice())
}

// Whether there are few enough extents.
fn are_extents(extents: &[Extent]) -> bool
    ensures { IsTrue result ↔ AreExtents extents.now }
{
    for extent in extents {
        has_words(extent);
    }
    extents.len() as u64 <= 4_294_967_295
}

// The numbers of an extent are words of 32 bits, as their types say.
fn has_words(extent: &Extent)
    ensures { IsExtent extent.now }
{
    let _start = extent.start;
    let _count = extent.count;
}
