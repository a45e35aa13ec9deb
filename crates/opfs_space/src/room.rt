// That a call finds blocks for all its pages where the machine has room for it.
ghost use Rattle.std.specs.Prelude.{ℕ, ◌≤◌, List, length};
ghost use Rattle.opfs_blocks.specs.Sets.{Used, free_blocks};
ghost use Rattle.opfs_space.specs.Holders.{Holders, AreBlocks, AreSwept, HasPage, HasLess, HasFewer};
ghost use Rattle.opfs_space.specs.Room.{Machine, IsExact, AreMoves, IsOfMachine, HasRoom};
ghost use Rattle.opfs_tree.specs.Rows.{Rows as Tree};

/// The law of room: where the machine in lengths has room in the pool for a call, a sweep leaves at least as many free blocks
/// as the call moves pages. So the blocks that it asks for are there.
pub fn a_sweep_leaves_blocks_enough()
    ensures { (s : Machine) (h : Holders) (rows : Tree) (used own then found : Used) (agent row reserve need : ℕ) (moves : List ℕ)
        → AreBlocks h used own → IsOfMachine s h rows → AreSwept s.limits.blocks h.rows h.swap then found → HasRoom s agent row reserve need
        → IsExact h own agent row → AreMoves own h.swap agent row reserve moves → length moves ≤ length (free_blocks then) }
{}

/// The law of own blocks: a look knows them exactly, and they stay known where units are evicted after it.
pub fn a_look_knows_own_blocks()
    ensures look { (h : Holders) (used before then own : Used) (agent row : ℕ) → AreBlocks h used before → AreSwept (length used) h.rows h.swap then own → IsExact h own agent row }
    ensures later { (old new : Holders) (used own : Used) (agent row : ℕ) → AreBlocks old used own → HasLess old new → HasFewer old new
        → ((l m j b : ℕ) → HasPage old.swap l m j b → HasPage new.swap l m j b) → IsExact old own agent row → IsExact new own agent row }
{}
