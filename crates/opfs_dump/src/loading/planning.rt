//! The one record of an image's journal that builds what was read.

ghost use Rattle.std.specs.Prelude.{ℕ, ◌≡◌, ◌+◌, ◌^◌, ◌<◌, ◌≤◌, [], ◌∷◌, true, length, map, Some, IfOk, OnOk};
ghost use Rattle.std.specs.FinMap.Entries.{put};
ghost use Rattle.opfs_base.specs.Places.{place_cmp};
ghost use Rattle.opfs_codec.specs.declared.change.Format.TheVariants.{New};
ghost use Rattle.opfs_dump.specs.Text.Limits.{blocks_needed, can_stand, charge_of_map, is_rising, may_all_follow, stored_blocks};
ghost use Rattle.opfs_dump.specs.Text.Seen.{row_of, stored_of};
ghost use Rattle.opfs_dump.specs.Text.Whole.{dump_of};
ghost use Rattle.opfs_records.specs.Replay.Applying.{rows_of};
ghost use Rattle.opfs_records.specs.Replay.Built.{IsSound};
ghost use Rattle.opfs_records.specs.Replay.Sums.{charge_of, persistent_in};
ghost use Rattle.opfs_records.specs.Checkpoint.Written.{stored_rows};
ghost use Rattle.opfs_tree.specs.Rows.{IsInOrder};
ghost use Rattle.opfs_dump.specs.Loading.Laid.{laid, laid_map, laid_row, laid_run};

use crate::text::{Dumped, DumpedFile, DumpedRow};
use opfs_base::{Extent, Extents, Key, blocks};
use opfs_locks::FileLock;
use opfs_records::{are_writable, snapshot};
use opfs_shed::Shed;
use opfs_tree::{FileRow, ReadyTree, Row, Tree};
use std::alloc::{AllocError, Global};

// So many blocks from one on.
fn laid_run(alloc: Global, at: u32, count: u32) -> Result<Extents, AllocError>
    ensures { IfOk result (λ extents. extents ≡ laid_run at count) }
{
    let mut extents = Vec::new(alloc);
    if count > 0 {
        extents.push(Extent { start: at, count })?;
    }
    Ok(Extents::from_vec(extents))
}

// A row with the blocks of its file from one on.
fn laid_row(
    alloc: Global,
    file: &Option<DumpedFile>,
    at: u32,
    count: u32,
) -> Result<Row, AllocError>
    requires { count ≡ stored_blocks (stored_of file.now) }
    ensures { IfOk result (λ row. row ≡ laid_row at (stored_of file.now)) }
{
    match file {
        None => Ok(Row::Dir),
        Some(file) => {
            let extents = laid_run(alloc, at, count)?;
            Ok(Row::File(FileRow {
                length: file.bytes.len() as u64,
                stamp: file.stamp,
                present: file.bytes.len() as u64,
                present_stamp: file.stamp,
                extents,
                lock: FileLock::make(),
            }))
        }
    }
}

// The blocks that a file takes.
fn count_of(file: &Option<DumpedFile>) -> u32
    requires { stored_blocks (stored_of file.now) < 2 ^ 32 }
    ensures { result ≡ stored_blocks (stored_of file.now) }
{
    match file {
        None => 0,
        Some(file) => blocks(file.bytes.len() as u64) as u32,
    }
}

// Adds a row whose file has the blocks from one on, and gives the number behind them.
fn add_laid(alloc: Global, tree: &mut Tree, row: &DumpedRow, at: u32) -> Result<u32, AllocError>
    requires stands { can_stand tree.old row.now.place (stored_of row.now.file) ≡ true }
    requires small { at + stored_blocks (stored_of row.now.file) < 2 ^ 32 }
    ensures tree { OnOk result (tree.new ≡ put place_cmp row.now.place (laid_row at (stored_of row.now.file)) tree.old) }
    ensures order { IsInOrder tree.old }
    ensures next { IfOk result (λ next. next ≡ at + stored_blocks (stored_of row.now.file)) }
{
    tree.know_order();
    let count = count_of(&row.file);
    let made = laid_row(alloc, &row.file, at, count)?;
    tree.add(alloc, &row.place.0, &row.place.1, made)?;
    Ok(at + count)
}

// The rows with their blocks.
fn laid_tree(alloc: Global, rows: &[DumpedRow]) -> Result<Tree, AllocError>
    requires order { may_all_follow [] (map row_of rows.now) ≡ true }
    requires few { blocks_needed (map row_of rows.now) < 2 ^ 32 }
    ensures { IfOk result (λ tree. tree ≡ laid 0 (map row_of rows.now)) }
{
    let mut tree = Tree::make(alloc);
    let mut at = 0;
    for row in rows {
        at = add_laid(alloc, &mut tree, row, at)?;
    }
    Ok(tree)
}

// The modes of the persistent units.
fn shed_of(alloc: Global, units: &[Key]) -> Result<Shed, AllocError>
    requires { is_rising units.now ≡ true }
    ensures { IfOk result (λ shed. persistent_in shed.buckets ≡ units.now) }
{
    let mut shed = Shed::make(alloc, 0);
    for unit in units {
        shed.touch(unit)?;
        shed.set_persistent(unit);
    }
    Ok(shed)
}

// One record that builds a tree with the modes of a shed.
fn spell(alloc: Global, tree: Tree, shed: &Shed) -> Result<Vec<u8>, AllocError>
    ensures builds { IfOk result (λ body. (size : ℕ) → IsSound size (stored_rows tree) → rows_of New size (body.items ∷ []) ≡ Some (record { rows = stored_rows tree; persistent = persistent_in shed.now.buckets })) }
    ensures fits { IfOk result (λ body. (size : ℕ) → IsSound size (stored_rows tree) → length body.items ≤ charge_of New (record { rows = stored_rows tree; persistent = persistent_in shed.now.buckets })) }
{
    let tree = ReadyTree::make(alloc, tree);
    if !are_writable(&tree, shed) {
        return Err(AllocError);
    }
    let mut body = Vec::new(alloc);
    snapshot(&tree, shed, &mut body)?;
    Ok(body)
}

/// The body of the record.
pub(crate) fn body_of(alloc: Global, dumped: &Dumped) -> Result<Vec<u8>, AllocError>
    ensures builds { IfOk result (λ body. rows_of New dumped.now.geometry.blocks (body.items ∷ []) ≡ Some (laid_map (dump_of dumped.now).map)) }
    ensures short { IfOk result (λ body. length body.items ≤ charge_of_map (dump_of dumped.now).map) }
{
    let tree = laid_tree(alloc, &dumped.rows)?;
    let shed = shed_of(alloc, &dumped.persistent)?;
    let body = spell(alloc, tree, &shed)?;
    Ok(body)
}
