// That blocks suffice.
ghost use Rattle.std.specs.Prelude.{ℕ, ◌≤◌, List, length};
ghost use Rattle.opfs_blocks.specs.Sets.{Used, free_blocks};
ghost use Rattle.opfs_data.specs.declared.page.Page.{Page};
ghost use Rattle.opfs_space.specs.Spaces.{SpaceSeen, IsCovered, IsSwept, pages_seen, files_seen};

/// The law that free blocks suffice for the moves of a call where the sums of what files, other rows and this row may have
/// leave room, and each used block is one of theirs.
pub fn covered_blocks_leave_room()
    ensures { (used : Used) (files others mine moves : List ℕ) (reserve : ℕ) → IsCovered used files others mine moves reserve → length moves ≤ length (free_blocks used) }
{}

/// The law that a sweep, which sees the blocks of all files and then the pages of all open rows, finds exactly the blocks that
/// these have, and as a page's own exactly those that one page alone has and no file.
pub fn a_sweep_finds_what_is_used()
    ensures { (size : ℕ) (files : List ℕ) (pages : List Page) (space : SpaceSeen) → IsSwept size files pages (pages_seen pages (files_seen size files space)) }
{}
