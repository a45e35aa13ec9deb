// What the files of a tree have.
ghost use Rattle.std.specs.Prelude.{◌≡◌, ℕ, Option, Some, true, false, List, length, sum_by, IsTrue};
ghost use Rattle.std.specs.List.{AllByRecursion};
ghost use Rattle.opfs_base.specs.Places.{Place, is_within};
ghost use Rattle.opfs_base.specs.declared.extents.Extent.{Extent};
ghost use Rattle.opfs_blocks.specs.Sets.{blocks_of};
ghost use Rattle.opfs_records.specs.Replay.Built.{has_block, is_once, named, block_count};
ghost use Rattle.opfs_space.specs.Files.{file_has, IsChangedAt};
ghost use Rattle.opfs_tree.specs.declared.row.FileRow.{FileRow};
ghost use Rattle.opfs_tree.specs.Rows.{Rows, file_at, extents_of, change_at, stored, without, durable_blocks, IsInOrder};

/// The law of files' blocks: those that rows name are those that their files have, each file's its own, and as many as the
/// files' stored bytes take.
pub fn files_have_the_named_blocks()
    ensures named { (rows : Rows) (f : Option Place) (b : ℕ) → file_has rows f b ≡ true → has_block (named rows) b ≡ true }
    ensures some { (rows : Rows) (b : ℕ) → IsInOrder rows → has_block (named rows) b ≡ true → (f : Option Place) × (file_has rows f b ≡ true) }
    ensures once { (rows : Rows) (f g : Option Place) (b : ℕ) → is_once (named rows) ≡ true → file_has rows f b ≡ true → file_has rows g b ≡ true → f ≡ g }
    ensures count { (rows : Rows) → AllByRecursion (λ e. block_count (extents_of e.1) ≡ durable_blocks e.1) rows → length (named rows) ≡ sum_by (λ e. durable_blocks e.1) rows }
{}

/// The law of changes of a tree: another content changes the blocks of its file alone, and what is removed takes those of its
/// files alone.
pub fn changes_leave_other_files()
    ensures stored { (rows : Rows) (place : Place) (f : FileRow) (length stamp : ℕ) (extents : List Extent) → file_at place rows ≡ Some f
        → IsChangedAt place (blocks_of extents) rows (change_at place (stored length stamp extents) rows) }
    ensures fewer { (rows : Rows) (place : Place) (f : Option Place) (b : ℕ) → file_has (without place rows) f b ≡ true → file_has rows f b ≡ true }
    ensures stays { (rows : Rows) (place other : Place) (b : ℕ) → is_within place other ≡ false → file_has rows (Some other) b ≡ true → file_has (without place rows) (Some other) b ≡ true }
{}
