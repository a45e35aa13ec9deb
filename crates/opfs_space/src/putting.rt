// That pages may be written into the blocks that are planned for them.
ghost use Rattle.std.specs.Prelude.{◌≡◌, ℕ, ◌++◌, ◌≤◌, Some, None, true, false, List, map, length, take, nat_eq};
ghost use Rattle.std.specs.List.{IsDistinct};
ghost use Rattle.opfs_blocks.specs.Sets.{Used, free_blocks, marked};
ghost use Rattle.opfs_data.specs.Pages.{AreOnce, AreOwn, NamesPage};
ghost use Rattle.opfs_data.specs.Rows.{Rows, pages_at, AreFree};
ghost use Rattle.opfs_data.specs.Writes.{PageWrite, placed};
ghost use Rattle.opfs_space.specs.Holders.{Holders, AreBlocks, Writes, AreMine};
ghost use Rattle.opfs_space.specs.Plans.{own_block, ArePlanned};

/// The law of pages that go into blocks which may be written for them: these are blocks of no other page, and of no record.
pub fn own_blocks_may_be_written()
    ensures own { (used own : Used) (swap : Rows) (agent row reserve : ℕ) (writes : List PageWrite) → AreMine used own swap agent row reserve writes → AreOwn (pages_at agent row swap) writes }
    ensures free { (used own : Used) (swap : Rows) (agent row reserve : ℕ) (writes : List PageWrite) → AreMine used own swap agent row reserve writes → AreFree agent row swap writes }
    ensures unnamed { (h : Holders) (used own : Used) (swap : Rows) (agent row reserve page b : ℕ) (writes : List PageWrite) → AreBlocks h used own → AreMine used own swap agent row reserve writes
        → Writes writes page b → h.ground b ≡ false }
{}

/// The law of a plan: pages that stay in their own blocks, and others that get free ones, may all be written.
pub fn planned_pages_may_be_written()
    ensures mine { (h : Holders) (used own : Used) (agent row reserve : ℕ) (stay move : List PageWrite) → AreBlocks h used own → length own ≡ length used → ArePlanned own h.swap agent row reserve stay move
        → AreMine (marked true (take (length move) (free_blocks used)) used) (marked true (take (length move) (free_blocks used)) own) h.swap agent row reserve (stay ++ placed move (take (length move) (free_blocks used))) }
    ensures once { (h : Holders) (used own : Used) (agent row reserve : ℕ) (stay move : List PageWrite) → AreBlocks h used own → ArePlanned own h.swap agent row reserve stay move
        → AreOnce (stay ++ placed move (take (length move) (free_blocks used))) }
{}
