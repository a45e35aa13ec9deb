// That the blocks stay right through all that happens.
ghost use Rattle.std.specs.Prelude.{◌≡◌, ℕ, true, false, List, length, take, replicate, nat_eq};
ghost use Rattle.std.specs.List.{IsDistinct};
ghost use Rattle.opfs_base.specs.declared.extents.Extent.{Extent};
ghost use Rattle.opfs_blocks.specs.Sets.{Used, free_blocks, marked, blocks_of};
ghost use Rattle.opfs_data.specs.Pages.{resized, with_writes, pages_in, AreOnce};
ghost use Rattle.opfs_data.specs.Rows.{pages_at};
ghost use Rattle.opfs_data.specs.Writes.{PageWrite};
ghost use Rattle.opfs_space.specs.Holders.{Holders, AreBlocks, HasPage, HasFiles, HasFewer, KeepsRow, KeepsOthers, HasLess, AreMine, AreUnheld, IsMine, IsOpened, IsStored, IsFirst, AreSwept};
ghost use Rattle.opfs_records.specs.Replay.Built.{has_block};
ghost use Rattle.opfs_space.specs.Spaces.{is_own};

/// The law of blocks taken: free ones that are marked used and own leave all right, and each of them may then be written
/// for a page.
pub fn taken_blocks_are_right()
    ensures right { (h : Holders) (used own : Used) (n : ℕ) → AreBlocks h used own → length own ≡ length used
        → AreBlocks h (marked true (take n (free_blocks used)) used) (marked true (take n (free_blocks used)) own) }
    ensures mine { (h : Holders) (used own : Used) (n agent row page b : ℕ) → AreBlocks h used own → length own ≡ length used → has_block (take n (free_blocks used)) b ≡ true
        → IsMine (marked true (take n (free_blocks used)) used) (marked true (take n (free_blocks used)) own) h.swap agent row page b }
    ensures own { (h : Holders) (used own : Used) (agent row page b : ℕ) → AreBlocks h used own → HasPage h.swap agent row page b → is_own own b ≡ true → IsMine used own h.swap agent row page b }
{}

/// The law of pages written, where each goes into a block that may be written for it.
pub fn written_pages_keep_blocks_right()
    ensures { (old new : Holders) (used own : Used) (agent row pages : ℕ) (writes : List PageWrite) → AreBlocks old used own → HasFiles old new → KeepsRow old new agent row → KeepsOthers old new agent row
        → pages_at agent row new.swap ≡ with_writes writes (resized pages (pages_at agent row old.swap)) → AreOnce writes → AreMine used own old.swap agent row (new.reserve agent row) writes → AreBlocks new used own }
{}

/// The law of rows opened without pages, dropped, or kept more for, and of puts that failed: no page comes.
pub fn fewer_pages_keep_blocks_right()
    ensures { (old new : Holders) (used own : Used) → AreBlocks old used own → HasFiles old new → HasFewer old new → AreBlocks new used own }
{}

/// The law of a row opened with the blocks of its file.
pub fn opened_rows_keep_blocks_right()
    ensures { (old new : Holders) (used own : Used) (agent row : ℕ) (extents : List Extent) → AreBlocks old used own → HasFiles old new → KeepsOthers old new agent row
        → pages_at agent row new.swap ≡ pages_in extents → IsDistinct nat_eq (blocks_of extents) → IsOpened old new agent row (blocks_of extents) → AreBlocks new used own }
{}

/// The law of a content that a close or a flush stores: its blocks are no page's alone any more.
pub fn stored_contents_keep_blocks_right()
    ensures { (old new : Holders) (used own : Used) (agent row : ℕ) (blocks : List ℕ) → AreBlocks old used own → IsStored old new agent row blocks → AreBlocks new used (marked false blocks own) }
{}

/// The law of blocks given back: those of one list but for those of another, where no record and no page has them.
pub fn blocks_given_back_are_right()
    ensures { (h : Holders) (used own : Used) (gone kept : List ℕ) → AreBlocks h used own → AreUnheld h gone kept → AreBlocks h (marked true kept (marked false gone used)) own }
{}

/// The law of a unit evicted, of something removed, and of what is kept back made durable.
pub fn fewer_files_keep_blocks_right()
    ensures { (old new : Holders) (used own : Used) → AreBlocks old used own → HasLess old new → HasFewer old new → AreBlocks new used own }
{}

/// The law of looks and of sweeps: what a look finds is right, and what a sweep finds where nothing is kept back.
pub fn sweeps_keep_blocks_right()
    ensures look { (h : Holders) (used own then found : Used) → AreBlocks h used own → AreSwept (length used) h.rows h.swap then found → AreBlocks h used found }
    ensures sweep { (h : Holders) (used own then found : Used) → AreBlocks h used own → AreSwept (length used) h.rows h.swap then found
        → ((b : ℕ) → h.ground b ≡ true → h.rows b ≡ true) → AreBlocks h then found }
{}

/// The law of the beginning: with no open row and no page's own block, used blocks that the records name are right.
pub fn first_blocks_are_right()
    ensures { (h : Holders) (used : Used) → IsFirst h used → AreBlocks h used (replicate (length used) false) }
{}
