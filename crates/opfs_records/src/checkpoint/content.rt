//! What a file has, as a row or a change says it.

ghost use Rattle.std.specs.Prelude.{◌≡◌};
ghost use Rattle.opfs_records.specs.Checkpoint.Contents.{as_file};
ghost use Rattle.opfs_records.specs.Checkpoint.Written.{stored_file};

use opfs_base::Extents;
use opfs_tree::FileRow;

/// A file's stamp, its length in bytes, and its blocks.
#[derive(Clone, Copy)]
pub(crate) struct FileContent<'a> {
    pub stamp: u64,
    pub length: u64,
    pub extents: &'a Extents,
}

impl<'a> FileContent<'a> {
    /// What a file's row stores.
    pub(crate) fn of(file: &'a FileRow) -> FileContent<'a>
        ensures { as_file result ≡ stored_file file.now }
    {
        FileContent {
            stamp: file.stamp,
            length: file.length,
            extents: &file.extents,
        }
    }
}
