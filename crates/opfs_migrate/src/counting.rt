//! The files of a tree.

ghost use Rattle.std.specs.Prelude.{◌≡◌, ◌+◌, count_by, is_some, if◌then◌else◌, IfOk};
ghost use Rattle.opfs_tree.specs.Rows.{file_in, rows_above};

use opfs_tree::{Row, Tree, Walk};
use std::alloc::AllocError;

// One more for a file.
fn with_row(files: u64, row: &Row) -> Result<u64, AllocError>
    ensures { IfOk result (λ n. n ≡ files + (if is_some (file_in row.now) then 1 else 0)) }
{
    match row {
        Row::Dir => Ok(files),
        Row::File(_) => match files.checked_add(1) {
            Some(sum) => Ok(sum),
            None => Err(AllocError),
        },
    }
}

/// How many files there are.
pub(crate) fn count_files(tree: &Tree) -> Result<u64, AllocError>
    ensures { IfOk result (λ n. n ≡ count_by (λ e. is_some (file_in e.1)) tree.now) }
{
    let mut walk = Walk::make();
    let mut files = 0;
    while let Some(row) = tree.step(&mut walk) {
        files = with_row(files, row)?;
    }
    Ok(files)
}
