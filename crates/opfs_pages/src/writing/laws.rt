// That planned pages may be written into the blocks that were taken for them.
ghost use Rattle.std.specs.Prelude.{◌≡◌, ◌+◌, ◌*◌, ◌^◌, ◌≤◌, ℕ, List, length};
ghost use Rattle.opfs_base.specs.declared.extents.Extent.{Extent};
ghost use Rattle.opfs_data.specs.Writes.{WriteList, page_writes, page_moves};
ghost use Rattle.opfs_space.specs.Holders.{Holders, AreBlocks, AreMine};
ghost use Rattle.opfs_space.specs.Plans.{ArePlanned};
ghost use Rattle.opfs_space.specs.Spaces.{SpaceSeen};
ghost use Rattle.opfs_pages.specs.Writing.Puts.{IsTaken, IsPlaced, all_writes};

/// The law of planned pages: with the free blocks that were taken they may be written, and the blocks stay right.
pub fn planned_pages_get_their_blocks()
    ensures placed { (h : Holders) (old new : SpaceSeen) (base end agent row pages count : ℕ) (w : WriteList) (given : List ℕ) (extents : List Extent) → AreBlocks h old.used old.own → length old.own ≡ length old.used
        → ArePlanned old.own h.swap agent row pages (page_writes w given) (page_moves w given) → length (page_moves w given) ≡ count → IsTaken old new count extents
        → base + 4096 * length old.used ≤ end → length old.used ≤ 2 ^ 32 → IsPlaced base end h.swap agent row pages w given extents }
    ensures mine { (h : Holders) (old new : SpaceSeen) (agent row pages count : ℕ) (w : WriteList) (given : List ℕ) (extents : List Extent) → AreBlocks h old.used old.own → length old.own ≡ length old.used
        → ArePlanned old.own h.swap agent row pages (page_writes w given) (page_moves w given) → length (page_moves w given) ≡ count → IsTaken old new count extents
        → AreMine new.used new.own h.swap agent row pages (all_writes w given extents) }
    ensures right { (h : Holders) (old new : SpaceSeen) (count : ℕ) (extents : List Extent) → AreBlocks h old.used old.own → length old.own ≡ length old.used → IsTaken old new count extents
        → AreBlocks h new.used new.own }
{}
